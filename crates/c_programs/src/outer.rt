//! The parser of what stands outside functions. Each function reads what the function of its name in `specs/`
//! does.

ghost use Rattle.std.specs.Prelude.{◌≡◌, ◌≤◌, ◌∷◌, length};
ghost use Rattle.c_tree.specs.Lined.{program_of};
ghost use Rattle.parse_laws.specs.Parser.{moved, refuse};
ghost use Rattle.c_expressions.specs.Gives.{sight, tall_of};
ghost use Rattle.c_declarations.specs.Words.{int_holds};
ghost use Rattle.c_programs.specs.Gives.{GivesProgram};
ghost use Rattle.c_programs.specs.Parsers as spec;

use crate::function::function_behind;
use crate::token::{Opening, outer_opening};
use crate::tree::{with_capacities, with_function, with_ints, with_objects, with_slots};
use c_declarations::declaration::behind_int;
use c_declarations::function::head_behind_void;
use c_declarations::object::objects;
use c_declarations::token::Read;
use c_declarations::tree::{Begun, Head, Sort};
use c_declarations::wait::wait_declared;
use c_expressions::tall::Tall;
use c_expressions::token::{Marked, Setting};
use c_statements::slot::slot_list;
use c_tree::Program;
use parse_laws::fault::{Fault, Refusal};
use parse_laws::token::next;
use std::alloc::Global;

/// A program as far as it was read, and the tokens after it.
pub type ReadProgram<'a> = Read<'a, Tall<Program>>;

// Behind the head of a function.
fn function_added<'a>(
    alloc: Global,
    setting: Setting,
    room: u8,
    program: Tall<Program>,
    head: Head,
    tokens: &'a [Marked],
) -> ReadProgram<'a>
    requires { room ≤ 64 }
    ensures { GivesProgram result (spec.function_added (sight setting.entry) room (tall_of program_of program) head tokens.now) }
{
    let (more, rest) = function_behind(alloc, setting, room, head, tokens)?;
    Ok((with_function(program, more)?, rest))
}

// Behind what `int` begins.
fn finished<'a>(
    alloc: Global,
    setting: Setting,
    room: u8,
    program: Tall<Program>,
    begun: Begun,
    tokens: &'a [Marked],
) -> ReadProgram<'a>
    requires { room ≤ 64 }
    ensures { GivesProgram result (spec.finished (sight setting.entry) room (tall_of program_of program) begun tokens.now) }
{
    match begun {
        Begun::Cells(all) => Ok((with_ints(program, all)?, tokens)),
        Begun::Head(head) => function_added(alloc, setting, room, program, head, tokens),
        Begun::Capacities(capacities) => {
            let (_, rest) = wait_declared(setting, tokens)?;
            Ok((with_capacities(program, capacities), rest))
        }
    }
}

/// Reads what stands behind `int`, on its line, and adds it to a program; the capacities only where nothing stands
/// before the `int`.
#[tactic(auto, unfolding(crate::specs::Parsers::ints_added))]
pub fn ints_added<'a>(
    alloc: Global,
    setting: Setting,
    room: u8,
    first: bool,
    line: u32,
    program: Tall<Program>,
    tokens: &'a [Marked],
) -> ReadProgram<'a>
    requires { room ≤ 64 }
    ensures { GivesProgram result (spec.ints_added (sight setting.entry) int_holds room first line (tall_of program_of program) tokens.now) }
{
    let (begun, rest) = behind_int(alloc, setting, first, line, tokens)?;
    finished(alloc, setting, room, program, begun, rest)
}

// Behind `void`.
#[tactic(auto, unfolding(crate::specs::Parsers::void_added))]
fn void_added<'a>(
    alloc: Global,
    setting: Setting,
    room: u8,
    line: u32,
    program: Tall<Program>,
    tokens: &'a [Marked],
) -> ReadProgram<'a>
    requires { room ≤ 64 }
    ensures { GivesProgram result (spec.void_added (sight setting.entry) room line (tall_of program_of program) tokens.now) }
{
    let (head, rest) = head_behind_void(alloc, setting, line, tokens)?;
    function_added(alloc, setting, room, program, head, rest)
}

// Behind the word of the type of mutexes or conditions.
#[tactic(auto, unfolding(crate::specs::Parsers::objects_added))]
fn objects_added<'a>(
    alloc: Global,
    setting: Setting,
    sort: Sort,
    program: Tall<Program>,
    tokens: &'a [Marked],
) -> ReadProgram<'a>
    requires few { length tokens.now ≤ 65536 }
    ensures { GivesProgram result (spec.objects_added (sight setting.entry) sort (tall_of program_of program) tokens.now) }
{
    let (all, rest) = objects(alloc, setting, sort, tokens)?;
    Ok((with_objects(program, sort, all)?, rest))
}

// Behind `pthread_t`.
#[tactic(auto, unfolding(crate::specs::Parsers::slots_added))]
fn slots_added<'a>(
    alloc: Global,
    setting: Setting,
    program: Tall<Program>,
    tokens: &'a [Marked],
) -> ReadProgram<'a>
    ensures { GivesProgram result (spec.slots_added (sight setting.entry) (tall_of program_of program) tokens.now) }
{
    let (all, rest) = slot_list(alloc, setting, tokens)?;
    Ok((with_slots(program, all)?, rest))
}

// What the first of the tokens `whole` begins, of which `tokens` are those behind it.
fn declared<'a>(
    alloc: Global,
    setting: Setting,
    room: u8,
    program: Tall<Program>,
    token: Marked,
    begins: Opening,
    whole: &'a [Marked],
    tokens: &'a [Marked],
) -> ReadProgram<'a>
    requires room { room ≤ 64 }
    requires few { length tokens.now ≤ 65536 }
    requires whole { whole.now ≡ token ∷ tokens.now }
    ensures { GivesProgram result (moved (spec.declared_by (sight setting.entry) int_holds room (tall_of program_of program) token.line begins) refuse token tokens.now) }
{
    match begins {
        Opening::Int => ints_added(alloc, setting, room, false, token.line, program, tokens),
        Opening::Void => void_added(alloc, setting, room, token.line, program, tokens),
        Opening::Mutex => objects_added(alloc, setting, Sort::Mutex, program, tokens),
        Opening::Condition => objects_added(alloc, setting, Sort::Condition, program, tokens),
        Opening::Thread => slots_added(alloc, setting, program, tokens),
        _ => Err(Refusal::At(Fault::Syntax, whole)),
    }
}

// Behind `static`.
#[tactic(auto, unfolding(crate::specs::Parsers::static_added))]
fn static_added<'a>(
    alloc: Global,
    setting: Setting,
    room: u8,
    program: Tall<Program>,
    tokens: &'a [Marked],
) -> ReadProgram<'a>
    requires room { room ≤ 64 }
    requires few { length tokens.now ≤ 65536 }
    ensures { GivesProgram result (spec.static_added (sight setting.entry) int_holds room (tall_of program_of program) tokens.now) }
{
    match next(tokens) {
        Some((token, rest)) => {
            let begins = outer_opening(token.what);
            declared(alloc, setting, room, program, token, begins, tokens, rest)
        }
        None => Err(Refusal::At(Fault::Syntax, tokens)),
    }
}

/// Reads what the first of the tokens `whole` begins outside functions, of which `tokens` are those behind it,
/// and adds it to a program.
pub fn outer<'a>(
    alloc: Global,
    setting: Setting,
    room: u8,
    program: Tall<Program>,
    token: Marked,
    begins: Opening,
    whole: &'a [Marked],
    tokens: &'a [Marked],
) -> ReadProgram<'a>
    requires room { room ≤ 64 }
    requires few { length tokens.now ≤ 65536 }
    requires whole { whole.now ≡ token ∷ tokens.now }
    ensures { GivesProgram result (moved (spec.outer_by (sight setting.entry) int_holds room (tall_of program_of program) token.line begins) refuse token tokens.now) }
{
    match begins {
        Opening::Static => {
            if setting.declarations {
                static_added(alloc, setting, room, program, tokens)
            } else {
                Err(Refusal::At(Fault::Syntax, whole))
            }
        }
        _ => declared(alloc, setting, room, program, token, begins, whole, tokens),
    }
}
