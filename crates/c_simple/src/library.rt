//! The parser of calls of the library, behind the word and `(`.

ghost use Rattle.std.specs.Prelude.{◌≡◌, ◌≤◌, IfOk};
ghost use Rattle.c_tree.specs.Expressions.{place_of};
ghost use Rattle.c_tree.specs.Lined as lined;
ghost use Rattle.parse_laws.specs.Gives.{Gives};
ghost use Rattle.parse_laws.specs.Parser.{expect};
ghost use Rattle.c_expressions.specs.Gives.{GivesPlace, sight, tall_of};
ghost use Rattle.c_expressions.specs.Parsers.{no_arguments};
ghost use Rattle.c_simple.specs.Gives.{GivesStatements, statements_of};
ghost use Rattle.c_simple.specs.Parsers as spec;

use crate::assignments::ParsedStatements;
use crate::takes::takes;
use crate::token::{Routine, format, is_null, is_number_format, number};
use crate::trees::{Made, alone, created, printed, waited};
use c_expressions::argument::argument;
use c_expressions::expression::{Passed, close, sign};
use c_expressions::list::expressions;
use c_expressions::part::{ParsedPlace, address, place};
use c_expressions::tall::Tall;
use c_expressions::token::{Marked, Setting, What, name};
use c_lexer::Sign;
use c_tree::{Act, Place};
use parse_laws::fault::{Fault, Refusal};
use parse_laws::token::next;
use sqlite_items::Items;
use std::alloc::Global;

// ---- places

fn null_word<'a>(setting: Setting, tokens: &'a [Marked]) -> Passed<'a>
    ensures { Gives result (expect (spec.is_null_at (sight setting.entry)) tokens.now) }
{
    match next(tokens) {
        Some((token, rest)) => {
            if is_null(token.what) {
                Ok((token, rest))
            } else {
                Err(Refusal::At(Fault::Syntax, tokens))
            }
        }
        None => Err(Refusal::At(Fault::Syntax, tokens)),
    }
}

// `, NULL )` behind a place.
#[tactic(auto, unfolding(crate::specs::Parsers::null_closed))]
fn null_closed<'a>(setting: Setting, found: Tall<Place>, tokens: &'a [Marked]) -> ParsedPlace<'a>
    ensures gives { GivesPlace result (spec.null_closed (sight setting.entry) (tall_of place_of found) tokens.now) }
    ensures low { IfOk result (λ x. x.0.levels ≡ found.levels) }
{
    let (_, rest) = sign(setting, Sign::Comma, tokens)?;
    let (_, rest) = null_word(setting, rest)?;
    let (_, rest) = sign(setting, Sign::RightParenthesis, rest)?;
    Ok((found, rest))
}

// `& place )`
#[tactic(auto, unfolding(crate::specs::Parsers::addressed))]
fn addressed<'a>(alloc: Global, setting: Setting, room: u8, tokens: &'a [Marked]) -> ParsedPlace<'a>
    requires { room ≤ 64 }
    ensures gives { GivesPlace result (spec.addressed (sight setting.entry) room tokens.now) }
    ensures low { IfOk result (λ x. x.0.levels ≤ 64) }
{
    let (found, rest) = address(alloc, setting, room, tokens)?;
    let (_, rest) = sign(setting, Sign::RightParenthesis, rest)?;
    Ok((found, rest))
}

// `& place , NULL )`
#[tactic(auto, unfolding(crate::specs::Parsers::initialised))]
fn initialised<'a>(
    alloc: Global,
    setting: Setting,
    room: u8,
    tokens: &'a [Marked],
) -> ParsedPlace<'a>
    requires { room ≤ 64 }
    ensures gives { GivesPlace result (spec.initialised (sight setting.entry) room tokens.now) }
    ensures low { IfOk result (λ x. x.0.levels ≤ 64) }
{
    let (found, rest) = address(alloc, setting, room, tokens)?;
    null_closed(setting, found, rest)
}

// `place , NULL )`
#[tactic(auto, unfolding(crate::specs::Parsers::joined))]
fn joined<'a>(alloc: Global, setting: Setting, room: u8, tokens: &'a [Marked]) -> ParsedPlace<'a>
    requires { room ≤ 64 }
    ensures gives { GivesPlace result (spec.joined (sight setting.entry) room tokens.now) }
    ensures low { IfOk result (λ x. x.0.levels ≤ 64) }
{
    let (found, rest) = place(alloc, setting, room, tokens)?;
    null_closed(setting, found, rest)
}

// ---- acts on one place

fn join<'a>(
    alloc: Global,
    setting: Setting,
    room: u8,
    line: u32,
    tokens: &'a [Marked],
) -> ParsedStatements<'a>
    requires { room ≤ 64 }
    ensures { GivesStatements result (spec.acting (lined.Join line) (spec.joined (sight setting.entry) room) tokens.now) }
{
    let (found, rest) = joined(alloc, setting, room, tokens)?;
    let act = Act::Join { slot: found.tree };
    Ok((alone(alloc, line, act, found.levels)?, rest))
}

fn init_mutex<'a>(
    alloc: Global,
    setting: Setting,
    room: u8,
    line: u32,
    tokens: &'a [Marked],
) -> ParsedStatements<'a>
    requires { room ≤ 64 }
    ensures { GivesStatements result (spec.acting (lined.InitMutex line) (spec.initialised (sight setting.entry) room) tokens.now) }
{
    let (found, rest) = initialised(alloc, setting, room, tokens)?;
    let act = Act::InitMutex { place: found.tree };
    Ok((alone(alloc, line, act, found.levels)?, rest))
}

fn init_condition<'a>(
    alloc: Global,
    setting: Setting,
    room: u8,
    line: u32,
    tokens: &'a [Marked],
) -> ParsedStatements<'a>
    requires { room ≤ 64 }
    ensures { GivesStatements result (spec.acting (lined.InitCond line) (spec.initialised (sight setting.entry) room) tokens.now) }
{
    let (found, rest) = initialised(alloc, setting, room, tokens)?;
    let act = Act::InitCond { place: found.tree };
    Ok((alone(alloc, line, act, found.levels)?, rest))
}

fn lock<'a>(
    alloc: Global,
    setting: Setting,
    room: u8,
    line: u32,
    tokens: &'a [Marked],
) -> ParsedStatements<'a>
    requires { room ≤ 64 }
    ensures { GivesStatements result (spec.acting (lined.Lock line) (spec.addressed (sight setting.entry) room) tokens.now) }
{
    let (found, rest) = addressed(alloc, setting, room, tokens)?;
    let act = Act::Lock { place: found.tree };
    Ok((alone(alloc, line, act, found.levels)?, rest))
}

fn unlock<'a>(
    alloc: Global,
    setting: Setting,
    room: u8,
    line: u32,
    tokens: &'a [Marked],
) -> ParsedStatements<'a>
    requires { room ≤ 64 }
    ensures { GivesStatements result (spec.acting (lined.Unlock line) (spec.addressed (sight setting.entry) room) tokens.now) }
{
    let (found, rest) = addressed(alloc, setting, room, tokens)?;
    let act = Act::Unlock { place: found.tree };
    Ok((alone(alloc, line, act, found.levels)?, rest))
}

fn signal<'a>(
    alloc: Global,
    setting: Setting,
    room: u8,
    line: u32,
    tokens: &'a [Marked],
) -> ParsedStatements<'a>
    requires { room ≤ 64 }
    ensures { GivesStatements result (spec.acting (lined.Signal line) (spec.addressed (sight setting.entry) room) tokens.now) }
{
    let (found, rest) = addressed(alloc, setting, room, tokens)?;
    let act = Act::Signal { cond: found.tree };
    Ok((alone(alloc, line, act, found.levels)?, rest))
}

fn broadcast<'a>(
    alloc: Global,
    setting: Setting,
    room: u8,
    line: u32,
    tokens: &'a [Marked],
) -> ParsedStatements<'a>
    requires { room ≤ 64 }
    ensures { GivesStatements result (spec.acting (lined.Broadcast line) (spec.addressed (sight setting.entry) room) tokens.now) }
{
    let (found, rest) = addressed(alloc, setting, room, tokens)?;
    let act = Act::Broadcast { cond: found.tree };
    Ok((alone(alloc, line, act, found.levels)?, rest))
}

fn read<'a>(
    alloc: Global,
    setting: Setting,
    room: u8,
    line: u32,
    tokens: &'a [Marked],
) -> ParsedStatements<'a>
    requires { room ≤ 64 }
    ensures { GivesStatements result (spec.acting (lined.Read line) (spec.addressed (sight setting.entry) room) tokens.now) }
{
    let (found, rest) = addressed(alloc, setting, room, tokens)?;
    let act = Act::Read { target: found.tree };
    Ok((alone(alloc, line, act, found.levels)?, rest))
}

// ---- the others

// `& place , & place )`
#[tactic(auto, unfolding(crate::specs::Parsers::wait))]
fn wait<'a>(
    alloc: Global,
    setting: Setting,
    room: u8,
    line: u32,
    tokens: &'a [Marked],
) -> ParsedStatements<'a>
    requires { room ≤ 64 }
    ensures { GivesStatements result (spec.wait (sight setting.entry) room line tokens.now) }
{
    let (cond, rest) = address(alloc, setting, room, tokens)?;
    let (_, rest) = sign(setting, Sign::Comma, rest)?;
    let (mutex, rest) = addressed(alloc, setting, room, rest)?;
    Ok((waited(alloc, line, cond, mutex, Items::new(alloc))?, rest))
}

// `& place , & place , K , {K ,} - 1 )`
#[tactic(auto, unfolding(crate::specs::Parsers::controlled_wait))]
fn controlled_wait<'a>(
    alloc: Global,
    setting: Setting,
    room: u8,
    line: u32,
    tokens: &'a [Marked],
) -> ParsedStatements<'a>
    requires { room ≤ 64 }
    ensures { GivesStatements result (spec.controlled_wait (sight setting.entry) room line tokens.now) }
{
    let (cond, rest) = address(alloc, setting, room, tokens)?;
    let (_, rest) = sign(setting, Sign::Comma, rest)?;
    let (mutex, rest) = address(alloc, setting, room, rest)?;
    let (_, rest) = sign(setting, Sign::Comma, rest)?;
    let (takes, rest) = takes(alloc, setting, rest)?;
    Ok((waited(alloc, line, cond, mutex, takes)?, rest))
}

// A number, and `)`.
#[tactic(auto, unfolding(crate::specs::Parsers::monitor))]
fn monitor<'a>(
    setting: Setting,
    tokens: &'a [Marked],
) -> Result<(u32, &'a [Marked]), Refusal<'a, Marked>>
    ensures { Gives result (spec.monitor (sight setting.entry) tokens.now) }
{
    let Some((token, rest)) = next(tokens) else {
        return Err(Refusal::At(Fault::Syntax, tokens));
    };
    let Some(number) = number(token.what) else {
        return Err(Refusal::At(Fault::Syntax, tokens));
    };
    let (_, rest) = sign(setting, Sign::RightParenthesis, rest)?;
    Ok((number, rest))
}

fn take<'a>(
    alloc: Global,
    setting: Setting,
    line: u32,
    tokens: &'a [Marked],
) -> ParsedStatements<'a>
    ensures { GivesStatements result (spec.numbered (sight setting.entry) (lined.Take line) tokens.now) }
{
    let (monitor, rest) = monitor(setting, tokens)?;
    Ok((alone(alloc, line, Act::Take { monitor }, 0)?, rest))
}

fn give<'a>(
    alloc: Global,
    setting: Setting,
    line: u32,
    tokens: &'a [Marked],
) -> ParsedStatements<'a>
    ensures { GivesStatements result (spec.numbered (sight setting.entry) (lined.Give line) tokens.now) }
{
    let (monitor, rest) = monitor(setting, tokens)?;
    Ok((alone(alloc, line, Act::Give { monitor }, 0)?, rest))
}

// The text `"%d"`.
fn number_format<'a>(setting: Setting, tokens: &'a [Marked]) -> Passed<'a>
    ensures { Gives result (expect (spec.is_number_format_at (sight setting.entry)) tokens.now) }
{
    match next(tokens) {
        Some((token, rest)) => {
            if is_number_format(setting.text, token.what) {
                Ok((token, rest))
            } else {
                Err(Refusal::At(Fault::Syntax, tokens))
            }
        }
        None => Err(Refusal::At(Fault::Syntax, tokens)),
    }
}

// `"%d" , & place )`
#[tactic(auto, unfolding(crate::specs::Parsers::scan))]
fn scan<'a>(
    alloc: Global,
    setting: Setting,
    room: u8,
    line: u32,
    tokens: &'a [Marked],
) -> ParsedStatements<'a>
    requires { room ≤ 64 }
    ensures { GivesStatements result (spec.scan (sight setting.entry) room line tokens.now) }
{
    let (_, rest) = number_format(setting, tokens)?;
    let (_, rest) = sign(setting, Sign::Comma, rest)?;
    read(alloc, setting, room, line, rest)
}

// Behind the text and a comma.
fn print_with<'a>(
    alloc: Global,
    setting: Setting,
    room: u8,
    line: u32,
    format: &[u8],
    tokens: &'a [Marked],
) -> ParsedStatements<'a>
    requires { room ≤ 64 }
    ensures { GivesStatements result (spec.print_with (sight setting.entry) room line format.now tokens.now) }
{
    let (args, rest) = expressions(alloc, setting, room, tokens)?;
    let (_, rest) = close(setting, Sign::RightParenthesis, room, args.levels, rest)?;
    Ok((printed(alloc, line, format, args)?, rest))
}

fn print_alone(alloc: Global, line: u32, format: &[u8]) -> Made
    ensures { IfOk result (λ x. tall_of statements_of x ≡ spec.printed line format.now no_arguments) }
{
    let args = Tall {
        tree: Items::new(alloc),
        levels: 0,
    };
    printed(alloc, line, format, args)
}

// Behind the text.
#[tactic(auto, unfolding(crate::specs::Parsers::print_behind))]
fn print_behind<'a>(
    alloc: Global,
    setting: Setting,
    room: u8,
    line: u32,
    format: &[u8],
    tokens: &'a [Marked],
) -> ParsedStatements<'a>
    requires { room ≤ 64 }
    ensures { GivesStatements result (spec.print_behind (sight setting.entry) room line format.now tokens.now) }
{
    match next(tokens) {
        Some((token, rest)) => match token.what {
            What::Sign(Sign::RightParenthesis) => Ok((print_alone(alloc, line, format)?, rest)),
            What::Sign(Sign::Comma) if room == 0 => Err(Refusal::At(Fault::TooDeep, tokens)),
            What::Sign(Sign::Comma) => print_with(alloc, setting, room, line, format, rest),
            _ => Err(Refusal::At(Fault::Syntax, tokens)),
        },
        None => Err(Refusal::At(Fault::Syntax, tokens)),
    }
}

// `S {, e} )`
#[tactic(auto, unfolding(crate::specs::Parsers::print))]
fn print<'a>(
    alloc: Global,
    setting: Setting,
    room: u8,
    line: u32,
    tokens: &'a [Marked],
) -> ParsedStatements<'a>
    requires { room ≤ 64 }
    ensures { GivesStatements result (spec.print (sight setting.entry) room line tokens.now) }
{
    match next(tokens) {
        Some((token, rest)) => match format(setting.text, token.what) {
            Some(format) => print_behind(alloc, setting, room, line, format, rest),
            None => Err(Refusal::At(Fault::Syntax, tokens)),
        },
        None => Err(Refusal::At(Fault::Syntax, tokens)),
    }
}

// The argument of a new thread, and `)`.
#[tactic(auto, unfolding(crate::specs::Parsers::create_argument))]
fn create_argument<'a>(
    alloc: Global,
    setting: Setting,
    room: u8,
    line: u32,
    slot: Tall<Place>,
    function: &[u8],
    tokens: &'a [Marked],
) -> ParsedStatements<'a>
    requires room { room ≤ 64 }
    requires slot { slot.levels ≤ 64 }
    ensures { GivesStatements result (spec.create_argument (sight setting.entry) room line (tall_of place_of slot) function.now tokens.now) }
{
    let (arg, rest) = argument(alloc, setting, room, tokens)?;
    let (_, rest) = close(setting, Sign::RightParenthesis, room, arg.levels, rest)?;
    Ok((created(alloc, line, slot, function, arg)?, rest))
}

fn behind_function<'a>(
    alloc: Global,
    setting: Setting,
    room: u8,
    line: u32,
    slot: Tall<Place>,
    function: &[u8],
    tokens: &'a [Marked],
) -> ParsedStatements<'a>
    requires room { room ≤ 64 }
    requires slot { slot.levels ≤ 64 }
    ensures { GivesStatements result (spec.behind_function (sight setting.entry) room line (tall_of place_of slot) function.now tokens.now) }
{
    let (_, rest) = sign(setting, Sign::Comma, tokens)?;
    create_argument(alloc, setting, room, line, slot, function, rest)
}

// The start function of a new thread, and what follows it.
#[tactic(auto, unfolding(crate::specs::Parsers::create_function))]
fn create_function<'a>(
    alloc: Global,
    setting: Setting,
    room: u8,
    line: u32,
    slot: Tall<Place>,
    tokens: &'a [Marked],
) -> ParsedStatements<'a>
    requires room { room ≤ 64 }
    requires slot { slot.levels ≤ 64 }
    ensures { GivesStatements result (spec.create_function (sight setting.entry) room line (tall_of place_of slot) tokens.now) }
{
    match next(tokens) {
        Some((token, rest)) => match name(setting.text, token.what) {
            Some(name) => behind_function(alloc, setting, room, line, slot, name, rest),
            None => Err(Refusal::At(Fault::Syntax, tokens)),
        },
        None => Err(Refusal::At(Fault::Syntax, tokens)),
    }
}

// `& place , NULL , N , arg )`
#[tactic(auto, unfolding(crate::specs::Parsers::create))]
fn create<'a>(
    alloc: Global,
    setting: Setting,
    room: u8,
    line: u32,
    tokens: &'a [Marked],
) -> ParsedStatements<'a>
    requires { room ≤ 64 }
    ensures { GivesStatements result (spec.create (sight setting.entry) room line tokens.now) }
{
    let (slot, rest) = address(alloc, setting, room, tokens)?;
    let (_, rest) = sign(setting, Sign::Comma, rest)?;
    let (_, rest) = null_word(setting, rest)?;
    let (_, rest) = sign(setting, Sign::Comma, rest)?;
    create_function(alloc, setting, room, line, slot, rest)
}

/// Reads a call of the library behind the word and `(`, up to its `)`. What stands in it may take `room`
/// levels.
pub fn library<'a>(
    alloc: Global,
    setting: Setting,
    room: u8,
    line: u32,
    routine: Routine,
    tokens: &'a [Marked],
) -> ParsedStatements<'a>
    requires { room ≤ 64 }
    ensures { GivesStatements result (spec.library (sight setting.entry) room line routine tokens.now) }
{
    match routine {
        Routine::Print => print(alloc, setting, room, line, tokens),
        Routine::Scan => scan(alloc, setting, room, line, tokens),
        Routine::Create => create(alloc, setting, room, line, tokens),
        Routine::Join => join(alloc, setting, room, line, tokens),
        Routine::InitMutex => init_mutex(alloc, setting, room, line, tokens),
        Routine::InitCondition => init_condition(alloc, setting, room, line, tokens),
        Routine::Lock => lock(alloc, setting, room, line, tokens),
        Routine::Unlock => unlock(alloc, setting, room, line, tokens),
        Routine::Wait => wait(alloc, setting, room, line, tokens),
        Routine::Signal => signal(alloc, setting, room, line, tokens),
        Routine::Broadcast => broadcast(alloc, setting, room, line, tokens),
        Routine::Take => take(alloc, setting, line, tokens),
        Routine::Give => give(alloc, setting, line, tokens),
        Routine::ControlledWait => controlled_wait(alloc, setting, room, line, tokens),
    }
}
