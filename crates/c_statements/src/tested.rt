//! The parser of what an `if` tests: an expression, or a trylock. Each function reads what the function of its name
//! in `specs/` does.

ghost use Rattle.std.specs.Prelude.{◌≡◌, ◌+◌, ◌<◌, ◌≤◌, ◌∷◌, IfOk};
ghost use Rattle.c_tree.specs.Expressions.{place_of};
ghost use Rattle.c_expressions.specs.Gives.{GivesPlace, sight, tall_of};
ghost use Rattle.c_statements.specs.Gives.{GivesChoice, choice_of};
ghost use Rattle.c_statements.specs.Parsers as spec;

use crate::tree::Test;
use crate::word::{Comparison, Question, asks, behind_try, is_try, is_zero};
use c_expressions::expression::{close, expression, sign};
use c_expressions::part::{ParsedPlace, address};
use c_expressions::tall::Tall;
use c_expressions::token::{Marked, Setting, is_sign};
use c_lexer::Sign;
use c_tree::Place;
use parse_laws::fault::{Fault, Refusal};
use parse_laws::token::next;
use std::alloc::Global;

/// What an `if` tests, its levels and the tokens after it.
pub type ParsedTest<'a> = Result<(Tall<Test>, &'a [Marked]), Refusal<'a, Marked>>;

// An expression, and the `)` behind it.
fn valued<'a>(alloc: Global, setting: Setting, room: u8, tokens: &'a [Marked]) -> ParsedTest<'a>
    requires { room ≤ 64 }
    ensures gives { GivesChoice result (spec.valued (sight setting.entry) room tokens.now) }
    ensures low { IfOk result (λ x. x.0.levels ≤ room) }
{
    let (test, rest) = expression(alloc, setting, room, tokens)?;
    let (_, rest) = close(setting, Sign::RightParenthesis, room, test.levels, rest)?;
    Ok((
        Tall {
            levels: test.levels,
            tree: Test::Value(test.tree),
        },
        rest,
    ))
}

// `&`, a place and `)`.
#[tactic(auto, unfolding(crate::specs::Parsers::tried))]
fn tried<'a>(alloc: Global, setting: Setting, room: u8, tokens: &'a [Marked]) -> ParsedPlace<'a>
    requires { room ≤ 64 }
    ensures gives { GivesPlace result (spec.tried (sight setting.entry) room tokens.now) }
    ensures low { IfOk result (λ x. x.0.levels ≤ room) }
{
    let (place, rest) = address(alloc, setting, room, tokens)?;
    let (_, rest) = sign(setting, Sign::RightParenthesis, rest)?;
    Ok((place, rest))
}

// A trylock of a mutex that was busy in the first arm.
fn busy(place: Tall<Place>) -> Tall<Test>
    requires { place.levels < 200 }
    ensures { tall_of choice_of result ≡ spec.as_busy (tall_of place_of place) }
{
    Tall {
        levels: place.levels + 1,
        tree: Test::Busy(place.tree),
    }
}

// A trylock of a mutex that was taken in the first arm.
fn taken(place: Tall<Place>) -> Tall<Test>
    requires { place.levels < 200 }
    ensures { tall_of choice_of result ≡ spec.as_taken (tall_of place_of place) }
{
    Tall {
        levels: place.levels + 1,
        tree: Test::Taken(place.tree),
    }
}

// The same, where `!` stands before the trylock.
fn turned(place: Tall<Place>) -> Tall<Test>
    requires { place.levels < 200 }
    ensures { tall_of choice_of result ≡ spec.as_negated (tall_of place_of place) }
{
    Tall {
        levels: place.levels + 2,
        tree: Test::Taken(place.tree),
    }
}

// The number 0, and `)`.
fn zero_behind<'a>(setting: Setting, test: Tall<Test>, tokens: &'a [Marked]) -> ParsedTest<'a>
    ensures gives { GivesChoice result (spec.zero_behind (sight setting.entry) (tall_of choice_of test) tokens.now) }
    ensures low { IfOk result (λ x. x.0.levels ≡ test.levels) }
{
    match next(tokens) {
        Some((token, rest)) => {
            if is_zero(token.what) {
                let (_, rest) = sign(setting, Sign::RightParenthesis, rest)?;
                Ok((test, rest))
            } else {
                Err(Refusal::At(Fault::Syntax, tokens))
            }
        }
        None => Err(Refusal::At(Fault::Syntax, tokens)),
    }
}

// Behind a trylock: what it is compared with, or nothing, and `)`.
#[tactic(auto, unfolding(crate::specs::Parsers::compared))]
fn compared<'a>(setting: Setting, place: Tall<Place>, tokens: &'a [Marked]) -> ParsedTest<'a>
    requires { place.levels < 200 }
    ensures gives { GivesChoice result (spec.compared (sight setting.entry) (tall_of place_of place) tokens.now) }
    ensures low { IfOk result (λ x. x.0.levels ≡ place.levels + 1) }
{
    match next(tokens) {
        Some((token, rest)) => match behind_try(token.what) {
            Comparison::End => Ok((busy(place), rest)),
            Comparison::Equal => zero_behind(setting, taken(place), rest),
            Comparison::NotEqual => zero_behind(setting, busy(place), rest),
            Comparison::Other => Err(Refusal::At(Fault::Syntax, tokens)),
        },
        None => Err(Refusal::At(Fault::Syntax, tokens)),
    }
}

// A trylock, behind its name and `(`.
fn called<'a>(alloc: Global, setting: Setting, room: u8, tokens: &'a [Marked]) -> ParsedTest<'a>
    requires { room ≤ 64 }
    ensures gives { GivesChoice result (spec.called (sight setting.entry) room tokens.now) }
    ensures low { IfOk result (λ x. x.0.levels ≤ room + 1) }
{
    let (place, rest) = tried(alloc, setting, room, tokens)?;
    compared(setting, place, rest)
}

// The same, where `!` stands before the trylock.
fn called_behind_not<'a>(
    alloc: Global,
    setting: Setting,
    room: u8,
    tokens: &'a [Marked],
) -> ParsedTest<'a>
    requires { room ≤ 64 }
    ensures gives { GivesChoice result (spec.called_behind_not (sight setting.entry) room tokens.now) }
    ensures low { IfOk result (λ x. x.0.levels ≤ room + 2) }
{
    let (place, rest) = tried(alloc, setting, room, tokens)?;
    let (_, rest) = sign(setting, Sign::RightParenthesis, rest)?;
    Ok((turned(place), rest))
}

// Behind the name of the trylock: its call, or else an expression that begins with that name, which is the first of
// the tokens `whole`, of which `tokens` are those behind it.
#[tactic(auto, unfolding(crate::specs::Parsers::plain))]
fn plain<'a>(
    alloc: Global,
    setting: Setting,
    room: u8,
    whole: &'a [Marked],
    token: Marked,
    tokens: &'a [Marked],
) -> ParsedTest<'a>
    requires small { room ≤ 64 }
    requires deep { 0 < room }
    requires whole { whole.now ≡ token ∷ tokens.now }
    ensures gives { GivesChoice result (spec.plain (sight setting.entry) room token tokens.now) }
    ensures low { IfOk result (λ x. x.0.levels ≤ room) }
{
    match next(tokens) {
        Some((open, rest)) => {
            if is_sign(Sign::LeftParenthesis, open.what) {
                called(alloc, setting, room - 1, rest)
            } else {
                valued(alloc, setting, room, whole)
            }
        }
        None => valued(alloc, setting, room, whole),
    }
}

// The same behind `!`; `not` and `name` are the first of the tokens `whole`.
#[tactic(auto, unfolding(crate::specs::Parsers::negated))]
fn negated<'a>(
    alloc: Global,
    setting: Setting,
    room: u8,
    whole: &'a [Marked],
    not: Marked,
    name: Marked,
    tokens: &'a [Marked],
) -> ParsedTest<'a>
    requires small { room ≤ 64 }
    requires deep { 1 < room }
    requires whole { whole.now ≡ not ∷ name ∷ tokens.now }
    ensures gives { GivesChoice result (spec.negated (sight setting.entry) room not name tokens.now) }
    ensures low { IfOk result (λ x. x.0.levels ≤ room) }
{
    match next(tokens) {
        Some((open, rest)) => {
            if is_sign(Sign::LeftParenthesis, open.what) {
                called_behind_not(alloc, setting, room - 2, rest)
            } else {
                valued(alloc, setting, room, whole)
            }
        }
        None => valued(alloc, setting, room, whole),
    }
}

// Behind `!`: the name of the trylock, or else an expression that `!` begins, which is the first of the tokens
// `whole`.
#[tactic(auto, unfolding(crate::specs::Parsers::behind_not))]
fn behind_not<'a>(
    alloc: Global,
    setting: Setting,
    room: u8,
    whole: &'a [Marked],
    token: Marked,
    tokens: &'a [Marked],
) -> ParsedTest<'a>
    requires small { room ≤ 64 }
    requires deep { 1 < room }
    requires whole { whole.now ≡ token ∷ tokens.now }
    ensures gives { GivesChoice result (spec.behind_not (sight setting.entry) room token tokens.now) }
    ensures low { IfOk result (λ x. x.0.levels ≤ room) }
{
    match next(tokens) {
        Some((name, rest)) => {
            if is_try(name.what) {
                negated(alloc, setting, room, whole, token, name, rest)
            } else {
                valued(alloc, setting, room, whole)
            }
        }
        None => valued(alloc, setting, room, whole),
    }
}

// A trylock or an expression, and the `)` behind it.
#[tactic(auto, unfolding(crate::specs::Parsers::asked))]
fn asked<'a>(alloc: Global, setting: Setting, room: u8, tokens: &'a [Marked]) -> ParsedTest<'a>
    requires { room ≤ 64 }
    ensures gives { GivesChoice result (spec.asked (sight setting.entry) room tokens.now) }
    ensures low { IfOk result (λ x. x.0.levels ≤ room) }
{
    match next(tokens) {
        Some((token, rest)) => match asks(token.what) {
            Question::TryLock if room == 0 => Err(Refusal::At(Fault::TooDeep, tokens)),
            Question::TryLock => plain(alloc, setting, room, tokens, token, rest),
            Question::Not if room <= 1 => Err(Refusal::At(Fault::TooDeep, tokens)),
            Question::Not => behind_not(alloc, setting, room, tokens, token, rest),
            Question::Expression => valued(alloc, setting, room, tokens),
        },
        None => valued(alloc, setting, room, tokens),
    }
}

/// Reads what an `if` tests, in parentheses, which may take `room` levels.
#[tactic(auto, unfolding(crate::specs::Parsers::trial))]
pub fn trial<'a>(alloc: Global, setting: Setting, room: u8, tokens: &'a [Marked]) -> ParsedTest<'a>
    requires { room ≤ 64 }
    ensures gives { GivesChoice result (spec.trial (sight setting.entry) room tokens.now) }
    ensures low { IfOk result (λ x. x.0.levels ≤ room) }
{
    let (_, rest) = sign(setting, Sign::LeftParenthesis, tokens)?;
    asked(alloc, setting, room, rest)
}
