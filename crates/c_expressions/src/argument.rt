//! The parser of the argument of a new thread. Each function reads what the function of its name in `specs/`
//! does.

ghost use Rattle.std.specs.Prelude.{◌≡◌, ◌+◌, ◌≤◌, ◌∷◌, IfOk};
ghost use Rattle.c_lexer.specs.declared.token.Sign.TheVariants.{RightParenthesis};
ghost use Rattle.parse_laws.specs.Gives.{Gives};
ghost use Rattle.parse_laws.specs.Parser.{commit, expect, must};
ghost use Rattle.c_expressions.specs.Gives.{GivesExpression, sight};
ghost use Rattle.c_expressions.specs.Parsers as spec;

use crate::expression::{Parsed, Passed, closed, int_cast, operand, pointer_first, sign};
use crate::tall::Tall;
use crate::token::{Inner, Marked, Setting, What, behind_open, is_sign};
use c_grammar::FixedWord;
use c_lexer::Sign;
use c_tree::Expr;
use parse_laws::fault::{Fault, Refusal};
use parse_laws::token::next;
use std::alloc::Global;

// Behind `( long`: the operand that is cast.
fn long_cast<'a>(alloc: Global, setting: Setting, room: u8, tokens: &'a [Marked]) -> Parsed<'a>
    requires { room ≤ 64 }
    ensures gives { GivesExpression result (must (spec.is (sight setting.entry) RightParenthesis) (spec.unary (sight setting.entry) room) tokens.now) }
    ensures low { IfOk result (λ x. x.0.levels ≤ room + 2) }
{
    let (_, rest) = sign(setting, Sign::RightParenthesis, tokens)?;
    operand(alloc, setting, room, rest)
}

// Behind `( intptr_t`.
#[tactic(auto, unfolding(crate::specs::Parsers::pointer))]
fn pointer<'a>(
    alloc: Global,
    setting: Setting,
    room: u8,
    whole: &'a [Marked],
    token: Marked,
    tokens: &'a [Marked],
) -> Parsed<'a>
    requires room { room ≤ 64 }
    requires whole { whole.now ≡ token ∷ tokens.now }
    ensures gives { GivesExpression result (spec.pointer (sight setting.entry) room (spec.lower_in (sight setting.entry) room) (spec.unary (sight setting.entry) room) token tokens.now) }
    ensures low { IfOk result (λ x. x.0.levels ≤ room + 2) }
{
    match next(tokens) {
        Some((sign, rest)) => {
            if is_sign(Sign::RightParenthesis, sign.what) {
                operand(alloc, setting, room, rest)
            } else {
                pointer_first(alloc, setting, room, whole, token, tokens)
            }
        }
        None => pointer_first(alloc, setting, room, whole, token, tokens),
    }
}

// Behind `( void * ) (`: the cast of the argument, or an operand that begins so.
#[tactic(auto, unfolding(crate::specs::Parsers::opened))]
fn opened<'a>(alloc: Global, setting: Setting, room: u8, tokens: &'a [Marked]) -> Parsed<'a>
    requires { room ≤ 64 }
    ensures gives { GivesExpression result (spec.opened (sight setting.entry) room (spec.lower_in (sight setting.entry) room) (spec.unary (sight setting.entry) room) (spec.unary (sight setting.entry) room) tokens.now) }
    ensures low { IfOk result (λ x. x.0.levels ≤ room + 2) }
{
    match next(tokens) {
        Some((token, rest)) => match behind_open(token.what) {
            Inner::Int => {
                if setting.casts {
                    int_cast(alloc, setting, rest)
                } else {
                    closed(alloc, setting, room, tokens)
                }
            }
            Inner::Long => long_cast(alloc, setting, room, rest),
            Inner::Pointer => pointer(alloc, setting, room, tokens, token, rest),
            Inner::Other => closed(alloc, setting, room, tokens),
        },
        None => closed(alloc, setting, room, tokens),
    }
}

// Behind `( void * )`.
#[tactic(auto, unfolding(crate::specs::Parsers::cast_unary))]
fn cast_unary<'a>(alloc: Global, setting: Setting, room: u8, tokens: &'a [Marked]) -> Parsed<'a>
    requires { room ≤ 64 }
    ensures gives { GivesExpression result (spec.cast_unary (sight setting.entry) room tokens.now) }
    ensures low { IfOk result (λ x. x.0.levels ≤ room + 2) }
{
    match next(tokens) {
        Some((token, rest)) => {
            if !is_sign(Sign::LeftParenthesis, token.what) {
                operand(alloc, setting, room, tokens)
            } else if room > 0 || setting.casts {
                opened(alloc, setting, room, rest)
            } else {
                Err(Refusal::At(Fault::TooDeep, tokens))
            }
        }
        None => operand(alloc, setting, room, tokens),
    }
}

// `void`.
fn void_word<'a>(setting: Setting, tokens: &'a [Marked]) -> Passed<'a>
    ensures { Gives result (expect (λ u. spec.is_void (spec.seen (sight setting.entry) u)) tokens.now) }
{
    match next(tokens) {
        Some((token, rest)) => match token.what {
            What::Fixed(FixedWord::Void) => Ok((token, rest)),
            _ => Err(Refusal::At(Fault::Syntax, tokens)),
        },
        None => Err(Refusal::At(Fault::Syntax, tokens)),
    }
}

// Behind the `(` of an argument.
#[tactic(auto, unfolding(crate::specs::Parsers::void_cast))]
fn void_cast<'a>(alloc: Global, setting: Setting, room: u8, tokens: &'a [Marked]) -> Parsed<'a>
    requires { room ≤ 64 }
    ensures gives { GivesExpression result (spec.void_cast (sight setting.entry) room tokens.now) }
    ensures low { IfOk result (λ x. x.0.levels ≤ room + 2) }
{
    let (_, rest) = void_word(setting, tokens)?;
    let (_, rest) = sign(setting, Sign::Star, rest)?;
    let (_, rest) = sign(setting, Sign::RightParenthesis, rest)?;
    cast_unary(alloc, setting, room, rest)
}

/// Reads the argument of a new thread, which may take `room` levels: `NULL`, which is the number 0 and takes
/// none, or an operand behind `( void * )` and perhaps a cast to an integer type.
///
/// Like an expression it may take one level more where it ends in `( intptr_t )`.
#[tactic(auto, unfolding(crate::specs::Parsers::argument))]
pub fn argument<'a>(alloc: Global, setting: Setting, room: u8, tokens: &'a [Marked]) -> Parsed<'a>
    requires { room ≤ 64 }
    ensures gives { GivesExpression result (spec.argument (sight setting.entry) room tokens.now) }
    ensures low { IfOk result (λ x. x.0.levels ≤ room + 1) }
{
    match next(tokens) {
        Some((token, rest)) => match token.what {
            What::Fixed(FixedWord::Null) => Ok((
                Tall {
                    tree: Expr::Number(0),
                    levels: 0,
                },
                rest,
            )),
            What::Sign(Sign::LeftParenthesis) if !setting.void => {
                Err(Refusal::At(Fault::Syntax, tokens))
            }
            What::Sign(Sign::LeftParenthesis) if room == 0 => {
                Err(Refusal::At(Fault::TooDeep, tokens))
            }
            What::Sign(Sign::LeftParenthesis) => void_cast(alloc, setting, room - 1, rest),
            _ => Err(Refusal::At(Fault::Syntax, tokens)),
        },
        None => Err(Refusal::At(Fault::Syntax, tokens)),
    }
}
