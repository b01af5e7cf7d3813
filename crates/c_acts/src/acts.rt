// Statements that hold no others.

ghost use Rattle.std.specs.Prelude.{◌≡◌, ◌++◌, ◌∷◌, [], false, not, ◌&&◌, ◌==◌, nat_le, nat_lt, length, option_map, is_some};
ghost use Rattle.std.specs.List.{list_any};
ghost use Rattle.c_tree.specs.Expressions.{expr_of, exprs_of, value_of, place_of, target_of};
ghost use Rattle.c_tree.specs.Lined.{stmt_of};
ghost use Rattle.c_rules.specs.declared.role.Role.TheVariants.{Value, OfMutex, OfCondition, OfThread, Start, Called};
ghost use Rattle.c_rules.specs.declared.rule.Rule.TheVariants.{JoinNotFixed, InitLate};
ghost use Rattle.c_rules.specs.Uses.{plain, of_expr, of_exprs, of_place, of_target};
ghost use Rattle.c_rules.specs.Using as counted;
ghost use Rattle.c_names.specs.Shown.{thing_of, shown};
ghost use Rattle.c_names.specs.Tables.{in_scope, meant};
ghost use Rattle.c_acts.specs.First.{noted_all, break_if};
ghost use Rattle.c_acts.specs.Uses.{around, uses_breaks};
ghost use Rattle.c_acts.specs.Acts as spec;

use crate::first::{Break, note, note_if};
use crate::uses::{
    Inside, check_expr, check_exprs, check_place, check_target, check_use, check_value,
};
use c_names::{Scope, Thing, declaration_of, is_in_scope, is_reserved, meaning, number_of};
use c_rules::{Role, Rule};
use c_tree::{Act, Expr, Exprs, Mode, Name, Numbers, Place, Stmt};

/// Looks at a local or a parameter that is declared where these names are in scope.
pub fn check_local(at: &Inside, scope: &Scope, first: &mut Option<Break>, line: u32, name: &[u8])
    ensures { first.new ≡ noted_all first.old (spec.local_breaks (around at.now) (in_scope scope.now) name.now line) }
{
    note_if(first, is_reserved(name), Rule::Reserved, line);
    note_if(first, is_in_scope(scope, name), Rule::Twice, line);
    if let Some(d) = declaration_of(at.names, name) {
        note(first, Rule::Twice, d.line.max(line));
    }
}

/// How many arguments a format has.
fn arguments_of(format: &[u8]) -> usize
    ensures { result ≡ counted.arguments_of false format.now }
{
    let mut count = 0;
    let mut behind_percent = false;
    for b in format {
        if behind_percent && *b == b'd' {
            count += 1;
        }
        behind_percent = !behind_percent && *b == b'%';
    }
    count
}

/// Whether a function that is meant takes another number of arguments.
fn takes_others(thing: &Option<Thing>, count: usize) -> bool
    ensures { result ≡ counted.takes_others (option_map thing_of thing.now) count }
{
    match thing {
        Some(Thing::Function(_, f)) => f.params.len() != count,
        _ => false,
    }
}

/// Looks at the function that a call with this many arguments names.
fn check_callee(
    at: &Inside,
    scope: &Scope,
    first: &mut Option<Break>,
    line: u32,
    function: &[u8],
    count: usize,
)
    ensures { first.new ≡ noted_all first.old (spec.call_breaks (around at.now) (in_scope scope.now) line function.now count) }
{
    let thing = meaning(at.names, scope, at.function, function);
    note_if(first, takes_others(&thing, count), Rule::WrongCount, line);
    note_if(
        first,
        function == at.function.name.as_slice(),
        Rule::Recursion,
        line,
    );
}

/// Looks at a call.
fn check_call(
    at: &Inside,
    scope: &Scope,
    first: &mut Option<Break>,
    line: u32,
    target: &Option<Place>,
    function: &Name,
    args: &Exprs,
)
    ensures { first.new ≡ noted_all first.old (uses_breaks (around at.now) (in_scope scope.now) line (of_target (target_of target.now) ++ plain (Called (is_some target.now)) function.now ∷ of_exprs (exprs_of args.now)) ++ spec.call_breaks (around at.now) (in_scope scope.now) line function.now (counted.count_of (exprs_of args.now))) }
{
    check_target(at, scope, first, line, target);
    let name = function.as_slice();
    let role = Role::Called(target.is_some());
    check_use(at, scope, first, line, name, role, false);
    check_exprs(at, scope, first, line, args.as_slice());
    check_callee(at, scope, first, line, name, args.len());
}

/// Looks at where a thread is created, and at its argument.
fn check_start(first: &mut Option<Break>, line: u32, arg: &Expr, unfixed: bool)
    ensures { first.new ≡ noted_all first.old (spec.create_breaks unfixed line (expr_of arg.now)) }
{
    note_if(first, unfixed, Rule::CreateNotFixed, line);
    note_if(first, number_of(arg).is_none(), Rule::ArgNotConstant, line);
}

/// Looks at a create.
fn check_create(
    at: &Inside,
    scope: &Scope,
    first: &mut Option<Break>,
    line: u32,
    slot: &Place,
    function: &Name,
    arg: &Expr,
    unfixed: bool,
)
    ensures { first.new ≡ noted_all first.old (uses_breaks (around at.now) (in_scope scope.now) line (of_place OfThread (place_of slot.now) ++ plain Start function.now ∷ of_expr (expr_of arg.now)) ++ spec.create_breaks unfixed line (expr_of arg.now)) }
{
    check_place(at, scope, first, line, slot, Role::OfThread);
    let name = function.as_slice();
    check_use(at, scope, first, line, name, Role::Start, false);
    check_expr(at, scope, first, line, arg);
    check_start(first, line, arg, unfixed);
}

/// Looks at a take or a give.
fn check_monitor(at: &Inside, first: &mut Option<Break>, line: u32, monitor: u32)
    ensures { first.new ≡ noted_all first.old (spec.monitor_breaks (around at.now) line monitor) }
{
    note_if(first, matches!(at.mode, Mode::Source), Rule::Reserved, line);
    note_if(
        first,
        at.monitors <= monitor as usize,
        Rule::IndexRange,
        line,
    );
}

/// Looks at an assignment.
fn check_assign(
    at: &Inside,
    scope: &Scope,
    first: &mut Option<Break>,
    line: u32,
    target: &Place,
    value: &Expr,
)
    ensures { first.new ≡ noted_all first.old (uses_breaks (around at.now) (in_scope scope.now) line (of_place Value (place_of target.now) ++ of_expr (expr_of value.now))) }
{
    check_place(at, scope, first, line, target, Role::Value);
    check_expr(at, scope, first, line, value);
}

/// Looks at the format of a print with this many arguments.
fn check_format(first: &mut Option<Break>, line: u32, format: &[u8], count: usize)
    ensures { first.new ≡ noted_all first.old (spec.print_breaks line format.now count) }
{
    note_if(first, arguments_of(format) != count, Rule::WrongCount, line);
}

/// Looks at a print.
fn check_print(
    at: &Inside,
    scope: &Scope,
    first: &mut Option<Break>,
    line: u32,
    format: &Name,
    args: &Exprs,
)
    ensures { first.new ≡ noted_all first.old (uses_breaks (around at.now) (in_scope scope.now) line (of_exprs (exprs_of args.now)) ++ spec.print_breaks line format.now (counted.count_of (exprs_of args.now))) }
{
    check_exprs(at, scope, first, line, args.as_slice());
    check_format(first, line, format.as_slice(), args.len());
}

/// Looks at a join.
fn check_join(
    at: &Inside,
    scope: &Scope,
    first: &mut Option<Break>,
    line: u32,
    slot: &Place,
    unfixed: bool,
)
    ensures { first.new ≡ noted_all first.old (uses_breaks (around at.now) (in_scope scope.now) line (of_place OfThread (place_of slot.now)) ++ break_if unfixed JoinNotFixed line) }
{
    check_place(at, scope, first, line, slot, Role::OfThread);
    note_if(first, unfixed, Rule::JoinNotFixed, line);
}

/// Looks at where a mutex or a condition, by the role, is initialised.
fn check_init(
    at: &Inside,
    scope: &Scope,
    first: &mut Option<Break>,
    line: u32,
    place: &Place,
    role: Role,
    late: bool,
)
    ensures { first.new ≡ noted_all first.old (uses_breaks (around at.now) (in_scope scope.now) line (of_place role (place_of place.now)) ++ break_if late InitLate line) }
{
    check_place(at, scope, first, line, place, role);
    note_if(first, late, Rule::InitLate, line);
}

/// Whether a wait takes tokens, which programs of users have not.
fn takes_some(mode: Mode, takes: &[u32]) -> bool
    ensures { result ≡ (nat_lt 0 (length takes.now) && spec.is_source mode) }
{
    match mode {
        Mode::Source => 0 < takes.len(),
        Mode::Any => false,
    }
}

/// Whether one of these monitors isn't there, where there are so many.
fn is_beyond(monitors: usize, takes: &[u32]) -> bool
    ensures { result ≡ list_any (nat_le monitors) takes.now }
{
    takes.iter().any(|monitor| monitors <= *monitor as usize)
}

/// Looks at the monitors of which a wait takes tokens.
fn check_takes(at: &Inside, first: &mut Option<Break>, line: u32, takes: &[u32])
    ensures { first.new ≡ noted_all first.old (spec.takes_breaks (around at.now) line takes.now) }
{
    note_if(first, takes_some(at.mode, takes), Rule::Reserved, line);
    note_if(first, is_beyond(at.monitors, takes), Rule::IndexRange, line);
}

/// Looks at the places of a wait.
fn check_places(
    at: &Inside,
    scope: &Scope,
    first: &mut Option<Break>,
    line: u32,
    cond: &Place,
    mutex: &Place,
)
    ensures { first.new ≡ noted_all first.old (uses_breaks (around at.now) (in_scope scope.now) line (of_place OfCondition (place_of cond.now) ++ of_place OfMutex (place_of mutex.now))) }
{
    check_place(at, scope, first, line, cond, Role::OfCondition);
    check_place(at, scope, first, line, mutex, Role::OfMutex);
}

/// Looks at a wait.
fn check_wait(
    at: &Inside,
    scope: &Scope,
    first: &mut Option<Break>,
    line: u32,
    cond: &Place,
    mutex: &Place,
    takes: &Numbers,
)
    ensures { first.new ≡ noted_all first.old (uses_breaks (around at.now) (in_scope scope.now) line (of_place OfCondition (place_of cond.now) ++ of_place OfMutex (place_of mutex.now)) ++ spec.takes_breaks (around at.now) line takes.now) }
{
    check_places(at, scope, first, line, cond, mutex);
    check_takes(at, first, line, takes.as_slice());
}

/// Looks at a statement that neither declares nor holds others, and passes over those. A create or
/// a join may not be fixed, and an init may be late.
pub fn check_act(
    at: &Inside,
    scope: &Scope,
    first: &mut Option<Break>,
    s: &Stmt,
    unfixed: bool,
    late: bool,
)
    ensures { first.new ≡ noted_all first.old (spec.act_breaks (around at.now) (in_scope scope.now) unfixed late (stmt_of s.now)) }
{
    let line = s.line;
    match &s.act {
        Act::Declare { .. }
        | Act::If { .. }
        | Act::While { .. }
        | Act::For { .. }
        | Act::TryLock { .. } => {}
        Act::Assign { target, value } => check_assign(at, scope, first, line, target, value),
        Act::Call {
            target,
            function,
            args,
        } => check_call(at, scope, first, line, target, function, args),
        Act::Return { value } => check_value(at, scope, first, line, value),
        Act::Read { target } => check_place(at, scope, first, line, target, Role::Value),
        Act::Print { format, args } => check_print(at, scope, first, line, format, args),
        Act::Create {
            slot,
            function,
            arg,
        } => check_create(at, scope, first, line, slot, function, arg, unfixed),
        Act::Join { slot } => check_join(at, scope, first, line, slot, unfixed),
        Act::InitMutex { place } => check_init(at, scope, first, line, place, Role::OfMutex, late),
        Act::InitCond { place } => {
            check_init(at, scope, first, line, place, Role::OfCondition, late);
        }
        Act::Lock { place } | Act::Unlock { place } => {
            check_place(at, scope, first, line, place, Role::OfMutex);
        }
        Act::Wait { cond, mutex, takes } => check_wait(at, scope, first, line, cond, mutex, takes),
        Act::Signal { cond } | Act::Broadcast { cond } => {
            check_place(at, scope, first, line, cond, Role::OfCondition);
        }
        Act::Take { monitor } | Act::Give { monitor } => check_monitor(at, first, line, *monitor),
    }
}
