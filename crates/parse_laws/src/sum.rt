//! The parser of one sum. Each function reads what the function of its name in `specs/` does.

ghost use Rattle.std.specs.Prelude.{◌≡◌, ◌+◌, ◌≤◌, ◌<◌, IfOk};
ghost use Rattle.parse_laws.specs.Gives.{Gives};
ghost use Rattle.parse_laws.specs.Parser.{fault_at, a_level_down, loop, commit, refuse};
ghost use Rattle.parse_laws.specs.Operators as tower;
ghost use Rattle.parse_laws.specs.Sums as grammar;
ghost use Rattle.parse_laws.specs.SumParser as spec;

use crate::fault::{Fault, Refusal};
use crate::token::{Token, next};
use crate::tree::{Operator, Sum, Tall};
use sqlite_items::Boxed;
use std::alloc::{AllocError, Global};

type Parsed<'a> = Result<(Tall<Sum>, &'a [Token]), Refusal<'a, Token>>;

fn operator(level: u8, token: Token) -> Option<Operator>
    ensures { result ≡ grammar.operator level token }
{
    match (level, token) {
        (0, Token::Times) => Some(Operator::Times),
        (1, Token::Plus) => Some(Operator::Plus),
        _ => None,
    }
}

// An operator of the level comes next.
fn is_operator(level: u8, tokens: &[Token]) -> bool
    ensures { result ≡ spec.comes level tokens.now }
{
    match next(tokens) {
        Some((token, _)) => operator(level, token).is_some(),
        None => false,
    }
}

fn joined(
    alloc: Global,
    operator: Operator,
    left: Tall<Sum>,
    right: Tall<Sum>,
) -> Result<Tall<Sum>, AllocError>
    requires left { left.height < 200 }
    requires right { right.height < 200 }
    ensures { IfOk result (λ x. x ≡ grammar.joined operator left right) }
{
    let height = left.height.max(right.height) + 1;
    let left = Boxed::new(alloc, left.tree)?;
    let right = Boxed::new(alloc, right.tree)?;
    Ok(Tall {
        tree: Sum::Binary(operator, left, right),
        height,
    })
}

fn negative(alloc: Global, below: Tall<Sum>) -> Result<Tall<Sum>, AllocError>
    requires { below.height < 200 }
    ensures { IfOk result (λ x. x ≡ grammar.negative below) }
{
    let height = below.height + 1;
    Ok(Tall {
        tree: Sum::Negative(Boxed::new(alloc, below.tree)?),
        height,
    })
}

// A parenthesis that closes what it follows.
fn close<'a>(inside: Tall<Sum>, tokens: &'a [Token]) -> Parsed<'a>
    requires { inside.height < 200 }
    ensures gives { Gives result (spec.close inside tokens.now) }
    ensures low { IfOk result (λ x. x.0.height ≡ inside.height + 1) }
{
    match next(tokens) {
        Some((Token::RParen, rest)) => Ok((
            Tall {
                tree: inside.tree,
                height: inside.height + 1,
            },
            rest,
        )),
        _ => Err(Refusal::At(Fault::Syntax, tokens)),
    }
}

// The fault where a sum would be too deep.
fn where_a_sum_begins(tokens: &[Token]) -> Fault
    ensures { result ≡ fault_at spec.begins_sum tokens.now }
{
    match next(tokens) {
        Some((Token::Number(_) | Token::LParen | Token::Minus, _)) => Fault::TooDeep,
        _ => Fault::Syntax,
    }
}

#[cycle(sums)]
fn closed<'a>(alloc: Global, room: u8, tokens: &'a [Token]) -> Parsed<'a>
    requires { room ≤ 64 }
    ensures gives { Gives result (a_level_down spec.begins_sum (λ _. spec.closed (tower.below spec.sums room 2)) room tokens.now) }
    ensures low { IfOk result (λ x. x.0.height ≤ room) }
{
    if room == 0 {
        return Err(Refusal::At(where_a_sum_begins(tokens), tokens));
    }
    let (inside, rest) = chain(alloc, room - 1, 2, tokens)?;
    close(inside, rest)
}

#[cycle(sums)]
#[tactic(auto, unfolding(crate::specs::SumParser::opened))]
fn opened<'a>(alloc: Global, room: u8, tokens: &'a [Token]) -> Parsed<'a>
    requires { room ≤ 64 }
    ensures gives { Gives result (spec.opened room (tower.below spec.sums room 2) tokens.now) }
    ensures low { IfOk result (λ x. x.0.height ≤ room) }
{
    match next(tokens) {
        Some((Token::RParen, rest)) => Ok((
            Tall {
                tree: Sum::Nothing,
                height: 0,
            },
            rest,
        )),
        _ => closed(alloc, room, tokens),
    }
}

#[cycle(sums)]
fn negated<'a>(alloc: Global, room: u8, tokens: &'a [Token]) -> Parsed<'a>
    requires { room < 64 }
    ensures gives { Gives result (spec.negated (tower.chain spec.sums room 0) tokens.now) }
    ensures low { IfOk result (λ x. x.0.height ≤ room + 1) }
{
    let (below, rest) = chain(alloc, room, 0, tokens)?;
    Ok((negative(alloc, below)?, rest))
}

#[cycle(sums)]
#[tactic(auto, unfolding(crate::specs::SumParser::operand))]
fn operand<'a>(alloc: Global, room: u8, tokens: &'a [Token]) -> Parsed<'a>
    requires { room ≤ 64 }
    ensures gives { Gives result (spec.operand room (tower.below spec.sums room) tokens.now) }
    ensures low { IfOk result (λ x. x.0.height ≤ room) }
{
    match next(tokens) {
        Some((Token::Number(n), rest)) => Ok((
            Tall {
                tree: Sum::Number(n),
                height: 0,
            },
            rest,
        )),
        Some((Token::LParen, rest)) => opened(alloc, room, rest),
        Some((Token::Minus, rest)) => {
            if room == 0 {
                return Err(Refusal::At(Fault::TooDeep, tokens));
            }
            negated(alloc, room - 1, rest)
        }
        _ => Err(Refusal::At(Fault::Syntax, tokens)),
    }
}

// One more operator, and the operand on its right.
#[cycle(sums)]
fn turn<'a>(alloc: Global, room: u8, level: u8, left: Tall<Sum>, tokens: &'a [Token]) -> Parsed<'a>
    requires small { room ≤ 64 }
    requires level { level ≤ 1 }
    requires left { left.height ≤ room }
    ensures gives { Gives result (commit (tower.operate spec.sums room level (tower.below spec.sums room level) left) refuse tokens.now) }
    ensures low { IfOk result (λ x. x.0.height ≤ room) }
{
    let Some((token, rest)) = next(tokens) else {
        return Err(Refusal::At(Fault::Syntax, tokens));
    };
    let Some(operator) = operator(level, token) else {
        return Err(Refusal::At(Fault::Syntax, tokens));
    };
    if left.height >= room {
        return Err(Refusal::At(Fault::TooDeep, tokens));
    }
    let (right, rest) = chain(alloc, room - 1, level, rest)?;
    Ok((joined(alloc, operator, left, right)?, rest))
}

// Operators of one level, to the left.
#[cycle(sums)]
fn operators<'a>(
    alloc: Global,
    room: u8,
    level: u8,
    left: Tall<Sum>,
    tokens: &'a [Token],
) -> Parsed<'a>
    requires small { room ≤ 64 }
    requires level { level ≤ 1 }
    requires left { left.height ≤ room }
    ensures gives { Gives result (loop (tower.operate spec.sums room level (tower.below spec.sums room level)) left tokens.now) }
    ensures low { IfOk result (λ x. x.0.height ≤ room) }
{
    let mut left = left;
    let mut rest = tokens;
    'turns: while is_operator(level, rest) {
        let (more, after) = turn(alloc, room, level, left, rest)?;
        left = more;
        rest = after;
    }
    Ok((left, rest))
}

/// Reads a sum with operators of the levels of precedence below `level` (0: an operand; 2: any sum), at
/// most `room` levels deep. Answers it with its height and the tokens after it, or the first token with
/// which no such sum goes on.
#[cycle(sums)]
pub fn chain<'a>(alloc: Global, room: u8, level: u8, tokens: &'a [Token]) -> Parsed<'a>
    requires small { room ≤ 64 }
    requires level { level ≤ 2 }
    ensures gives { Gives result (tower.chain spec.sums room level tokens.now) }
    ensures low { IfOk result (λ x. x.0.height ≤ room) }
{
    if level == 0 {
        return operand(alloc, room, tokens);
    }
    let (left, rest) = chain(alloc, room, level - 1, tokens)?;
    operators(alloc, room, level - 1, left, rest)
}
