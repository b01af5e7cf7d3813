// Statements of one line, without their `;`.

ghost use Rattle.std.specs.Prelude.{◌≡◌, ◌<◌, [], ◌∷◌, ◌++◌, Some, None, OnOk, codes, map, length};
ghost use Rattle.c_lexer.specs.declared.token.Sign.TheVariants as s;
ghost use Rattle.c_layout.specs.Layout as tokens;
ghost use Rattle.c_layout.specs.Layout.{text};
ghost use Rattle.c_tree.specs.declared.program.Kind.TheVariants as k;
ghost use Rattle.c_tree.specs.Bare as bare;
ghost use Rattle.c_tree.specs.Expressions.{expr_of, exprs_of, place_of, value_of, target_of};
ghost use Rattle.c_tree.specs.Lined.{stmt_of, stmts_of, bare_stmt, bare_stmts};
ghost use Rattle.c_canonical.specs.Expressions.{expression, expressions, followed, separated, numeral, is_binary, wrapped};
ghost use Rattle.c_canonical.specs.Statements as spec;

use crate::expressions::{expression, is_binary, operand, place};
use crate::writing::{put, put_name, put_number};
use c_tree::{Act, Expr, Exprs, Kind, Name, Numbers, Place, Stmt};
use std::alloc::{AllocError, Global};

/// A comma, a space and an expression.
fn next_argument(out: &mut Vec<u8>, alloc: Global, e: &Expr) -> Result<(), AllocError>
    ensures { OnOk result (out.new.items ≡ out.old.items ++ 44 ∷ 32 ∷ text (expression (expr_of e.now))) }
{
    put(out, b", ")?;
    expression(out, alloc, e)?;
    Ok(())
}

/// Expressions, each behind a comma and a space.
fn following(out: &mut Vec<u8>, alloc: Global, es: &[Expr]) -> Result<(), AllocError>
    ensures { OnOk result (out.new.items ≡ out.old.items ++ text (followed (expressions (exprs_of es.now)))) }
{
    for e in es {
        next_argument(out, alloc, e)?;
    }
    Ok(())
}

/// Expressions with a comma and a space between each two.
fn arguments(out: &mut Vec<u8>, alloc: Global, es: &[Expr]) -> Result<(), AllocError>
    ensures { OnOk result (out.new.items ≡ out.old.items ++ text (separated (expressions (exprs_of es.now)))) }
{
    match es.split_first() {
        None => Ok(()),
        Some((first, more)) => {
            expression(out, alloc, first)?;
            following(out, alloc, more)?;
            Ok(())
        }
    }
}

fn all_following(out: &mut Vec<u8>, alloc: Global, es: &Exprs) -> Result<(), AllocError>
    ensures { OnOk result (out.new.items ≡ out.old.items ++ text (followed (expressions (exprs_of es.now)))) }
{
    following(out, alloc, es.as_slice())
}

fn all_arguments(out: &mut Vec<u8>, alloc: Global, es: &Exprs) -> Result<(), AllocError>
    ensures { OnOk result (out.new.items ≡ out.old.items ++ text (separated (expressions (exprs_of es.now)))) }
{
    arguments(out, alloc, es.as_slice())
}

/// ` = ` and a value.
fn becomes(out: &mut Vec<u8>, alloc: Global, e: &Expr) -> Result<(), AllocError>
    ensures { OnOk result (out.new.items ≡ out.old.items ++ 32 ∷ 61 ∷ 32 ∷ text (expression (expr_of e.now))) }
{
    put(out, b" = ")?;
    expression(out, alloc, e)?;
    Ok(())
}

/// ` = ` and a value, if there is one.
fn initial(out: &mut Vec<u8>, alloc: Global, value: &Option<Expr>) -> Result<(), AllocError>
    ensures { OnOk result (out.new.items ≡ out.old.items ++ text (spec.initial (value_of value.now))) }
{
    match value {
        None => Ok(()),
        Some(e) => becomes(out, alloc, e),
    }
}

fn declare(
    out: &mut Vec<u8>,
    alloc: Global,
    kind: Kind,
    name: &Name,
    value: &Option<Expr>,
) -> Result<(), AllocError>
    ensures { OnOk result (out.new.items ≡ out.old.items ++ text (spec.simple kind (bare.Declare name.now (value_of value.now)))) }
{
    put(out, b"int ")?;
    put_name(out, name)?;
    initial(out, alloc, value)?;
    Ok(())
}

fn assign(
    out: &mut Vec<u8>,
    alloc: Global,
    kind: Kind,
    target: &Place,
    value: &Expr,
) -> Result<(), AllocError>
    ensures { OnOk result (out.new.items ≡ out.old.items ++ text (spec.simple kind (bare.Assign (place_of target.now) (expr_of value.now)))) }
{
    place(out, alloc, target)?;
    becomes(out, alloc, value)?;
    Ok(())
}

/// A target and ` = `.
fn gives(out: &mut Vec<u8>, alloc: Global, target: &Place) -> Result<(), AllocError>
    ensures { OnOk result (out.new.items ≡ out.old.items ++ text (spec.assigned (Some (place_of target.now)))) }
{
    place(out, alloc, target)?;
    put(out, b" = ")?;
    Ok(())
}

/// A target and ` = `, if there is a target.
fn assigned(out: &mut Vec<u8>, alloc: Global, target: &Option<Place>) -> Result<(), AllocError>
    ensures { OnOk result (out.new.items ≡ out.old.items ++ text (spec.assigned (target_of target.now))) }
{
    match target {
        None => Ok(()),
        Some(p) => gives(out, alloc, p),
    }
}

fn call(
    out: &mut Vec<u8>,
    alloc: Global,
    kind: Kind,
    target: &Option<Place>,
    function: &Name,
    args: &Exprs,
) -> Result<(), AllocError>
    ensures { OnOk result (out.new.items ≡ out.old.items ++ text (spec.simple kind (bare.Call (target_of target.now) function.now (exprs_of args.now)))) }
{
    assigned(out, alloc, target)?;
    put_name(out, function)?;
    put(out, b"(")?;
    all_arguments(out, alloc, args)?;
    put(out, b")")?;
    Ok(())
}

fn return_value(out: &mut Vec<u8>, alloc: Global, e: &Expr) -> Result<(), AllocError>
    ensures { OnOk result (out.new.items ≡ out.old.items ++ text (spec.returned k.Main (Some (expr_of e.now)))) }
{
    put(out, b"return ")?;
    expression(out, alloc, e)?;
    Ok(())
}

fn return_nothing(out: &mut Vec<u8>, kind: Kind) -> Result<(), AllocError>
    ensures { OnOk result (out.new.items ≡ out.old.items ++ text (spec.returned kind None)) }
{
    match kind {
        Kind::Thread => put(out, b"return NULL"),
        Kind::Main | Kind::Int | Kind::Void => put(out, b"return"),
    }
}

fn return_of(
    out: &mut Vec<u8>,
    alloc: Global,
    kind: Kind,
    value: &Option<Expr>,
) -> Result<(), AllocError>
    ensures { OnOk result (out.new.items ≡ out.old.items ++ text (spec.simple kind (bare.Return (value_of value.now)))) }
{
    match value {
        None => return_nothing(out, kind),
        Some(e) => return_value(out, alloc, e),
    }
}

fn read(out: &mut Vec<u8>, alloc: Global, kind: Kind, target: &Place) -> Result<(), AllocError>
    ensures { OnOk result (out.new.items ≡ out.old.items ++ text (spec.simple kind (bare.Read (place_of target.now)))) }
{
    put(out, b"scanf(\"%d\", &")?;
    place(out, alloc, target)?;
    put(out, b")")?;
    Ok(())
}

fn print(
    out: &mut Vec<u8>,
    alloc: Global,
    kind: Kind,
    format: &Name,
    args: &Exprs,
) -> Result<(), AllocError>
    ensures { OnOk result (out.new.items ≡ out.old.items ++ text (spec.simple kind (bare.Print format.now (exprs_of args.now)))) }
{
    put(out, b"printf(\"")?;
    put_name(out, format)?;
    put(out, b"\"")?;
    all_following(out, alloc, args)?;
    put(out, b")")?;
    Ok(())
}

/// A comma, the casts of a create's argument, and the argument.
fn create_argument(out: &mut Vec<u8>, alloc: Global, arg: &Expr) -> Result<(), AllocError>
    ensures { OnOk result (out.new.items ≡ out.old.items ++ 44 ∷ 32 ∷ text (spec.argument_cast ++ wrapped (is_binary (expr_of arg.now)) (expression (expr_of arg.now)))) }
{
    let is_in_parentheses = is_binary(arg);
    put(out, b", (void *)(long)")?;
    operand(out, alloc, arg, is_in_parentheses)?;
    Ok(())
}

fn create(
    out: &mut Vec<u8>,
    alloc: Global,
    kind: Kind,
    slot: &Place,
    function: &Name,
    arg: &Expr,
) -> Result<(), AllocError>
    ensures { OnOk result (out.new.items ≡ out.old.items ++ text (spec.simple kind (bare.Create (place_of slot.now) function.now (expr_of arg.now)))) }
{
    put(out, b"pthread_create(&")?;
    place(out, alloc, slot)?;
    put(out, b", NULL, ")?;
    put_name(out, function)?;
    create_argument(out, alloc, arg)?;
    put(out, b")")?;
    Ok(())
}

fn join(out: &mut Vec<u8>, alloc: Global, kind: Kind, slot: &Place) -> Result<(), AllocError>
    ensures { OnOk result (out.new.items ≡ out.old.items ++ text (spec.simple kind (bare.Join (place_of slot.now)))) }
{
    put(out, b"pthread_join(")?;
    place(out, alloc, slot)?;
    put(out, b", NULL)")?;
    Ok(())
}

/// A function called with the address of an object and `NULL`.
fn init_call(
    out: &mut Vec<u8>,
    alloc: Global,
    function: &[u8],
    object: &Place,
) -> Result<(), AllocError>
    ensures { OnOk result (out.new.items ≡ out.old.items ++ text (spec.called function.now (spec.address (place_of object.now) ++ spec.with_null))) }
{
    put(out, function)?;
    put(out, b"(&")?;
    place(out, alloc, object)?;
    put(out, b", NULL)")?;
    Ok(())
}

/// A function called with the address of an object.
fn object_call(
    out: &mut Vec<u8>,
    alloc: Global,
    function: &[u8],
    object: &Place,
) -> Result<(), AllocError>
    ensures { OnOk result (out.new.items ≡ out.old.items ++ text (spec.called function.now (spec.address (place_of object.now)))) }
{
    put(out, function)?;
    put(out, b"(&")?;
    place(out, alloc, object)?;
    put(out, b")")?;
    Ok(())
}

/// A comma, a space and a number.
fn next_number(out: &mut Vec<u8>, alloc: Global, n: u32) -> Result<(), AllocError>
    ensures { OnOk result (out.new.items ≡ out.old.items ++ 44 ∷ 32 ∷ text (numeral n)) }
{
    put(out, b", ")?;
    put_number(out, alloc, n)?;
    Ok(())
}

/// Numbers, each behind a comma and a space.
pub fn following_numbers(out: &mut Vec<u8>, alloc: Global, ns: &[u32]) -> Result<(), AllocError>
    ensures { OnOk result (out.new.items ≡ out.old.items ++ text (followed (map numeral ns.now))) }
{
    for n in ns {
        next_number(out, alloc, *n)?;
    }
    Ok(())
}

/// A wait that takes tokens of these monitors.
fn taking_wait(
    out: &mut Vec<u8>,
    alloc: Global,
    cond: &Place,
    mutex: &Place,
    takes: &[u32],
) -> Result<(), AllocError>
    requires some { 0 < length takes.now }
    ensures { OnOk result (out.new.items ≡ out.old.items ++ text (spec.waited (place_of cond.now) (place_of mutex.now) takes.now)) }
{
    put(out, b"gd_cond_wait(&")?;
    place(out, alloc, cond)?;
    put(out, b", &")?;
    place(out, alloc, mutex)?;
    following_numbers(out, alloc, takes)?;
    put(out, b", -1)")?;
    Ok(())
}

/// A wait that takes no tokens.
fn plain_wait(
    out: &mut Vec<u8>,
    alloc: Global,
    cond: &Place,
    mutex: &Place,
) -> Result<(), AllocError>
    ensures { OnOk result (out.new.items ≡ out.old.items ++ text (spec.waited (place_of cond.now) (place_of mutex.now) [])) }
{
    put(out, b"pthread_cond_wait(&")?;
    place(out, alloc, cond)?;
    put(out, b", &")?;
    place(out, alloc, mutex)?;
    put(out, b")")?;
    Ok(())
}

fn wait(
    out: &mut Vec<u8>,
    alloc: Global,
    kind: Kind,
    cond: &Place,
    mutex: &Place,
    takes: &Numbers,
) -> Result<(), AllocError>
    ensures { OnOk result (out.new.items ≡ out.old.items ++ text (spec.simple kind (bare.Wait (place_of cond.now) (place_of mutex.now) takes.now))) }
{
    let monitors = takes.as_slice();
    if monitors.is_empty() {
        plain_wait(out, alloc, cond, mutex)
    } else {
        taking_wait(out, alloc, cond, mutex, monitors)
    }
}

/// A function called with the number of a monitor.
fn monitor_call(
    out: &mut Vec<u8>,
    alloc: Global,
    function: &[u8],
    monitor: u32,
) -> Result<(), AllocError>
    ensures { OnOk result (out.new.items ≡ out.old.items ++ text (spec.called function.now (tokens.number monitor ∷ []))) }
{
    put(out, function)?;
    put(out, b"(")?;
    put_number(out, alloc, monitor)?;
    put(out, b")")?;
    Ok(())
}

/// A statement of one line, without its `;`; nothing for an `if`, `while` or `for`.
pub fn simple(out: &mut Vec<u8>, alloc: Global, kind: Kind, s: &Stmt) -> Result<(), AllocError>
    ensures { OnOk result (out.new.items ≡ out.old.items ++ text (spec.simple kind (bare_stmt (stmt_of s.now)))) }
{
    match &s.act {
        Act::Declare { name, value } => declare(out, alloc, kind, name, value),
        Act::Assign { target, value } => assign(out, alloc, kind, target, value),
        Act::Call {
            target,
            function,
            args,
        } => call(out, alloc, kind, target, function, args),
        Act::If { .. } | Act::TryLock { .. } | Act::While { .. } | Act::For { .. } => Ok(()),
        Act::Return { value } => return_of(out, alloc, kind, value),
        Act::Read { target } => read(out, alloc, kind, target),
        Act::Print { format, args } => print(out, alloc, kind, format, args),
        Act::Create {
            slot,
            function,
            arg,
        } => create(out, alloc, kind, slot, function, arg),
        Act::Join { slot } => join(out, alloc, kind, slot),
        Act::InitMutex { place } => init_call(out, alloc, b"pthread_mutex_init", place),
        Act::InitCond { place } => init_call(out, alloc, b"pthread_cond_init", place),
        Act::Lock { place } => object_call(out, alloc, b"pthread_mutex_lock", place),
        Act::Unlock { place } => object_call(out, alloc, b"pthread_mutex_unlock", place),
        Act::Wait { cond, mutex, takes } => wait(out, alloc, kind, cond, mutex, takes),
        Act::Signal { cond } => object_call(out, alloc, b"pthread_cond_signal", cond),
        Act::Broadcast { cond } => object_call(out, alloc, b"pthread_cond_broadcast", cond),
        Act::Take { monitor } => monitor_call(out, alloc, b"gd_take", *monitor),
        Act::Give { monitor } => monitor_call(out, alloc, b"gd_give", *monitor),
    }
}
