//! The parser of expressions. Each function reads what the function of its name in `specs/` does.

ghost use Rattle.std.specs.Prelude.{◌≡◌, ◌+◌, ◌≤◌, ◌<◌, ◌∷◌, IfOk, List, ℕ};
ghost use Rattle.c_grammar.specs.Levels.{over};
ghost use Rattle.c_tree.specs.Expressions as plain;
ghost use Rattle.c_tree.specs.Expressions.{expr_of};
ghost use Rattle.c_grammar.specs.Expressions as grammar;
ghost use Rattle.parse_laws.specs.Gives.{Gives};
ghost use Rattle.c_lexer.specs.declared.token.Sign.TheVariants.{RightParenthesis};
ghost use Rattle.parse_laws.specs.Parser.{commit, expect, fault_at, loop, must, refuse};
ghost use Rattle.parse_laws.specs.Operators as tower;
ghost use Rattle.c_expressions.specs.Gives.{GivesExpression, sight, tall_of};
ghost use Rattle.c_expressions.specs.Marked.{what_of};
ghost use Rattle.c_expressions.specs.Parsers as spec;

use crate::tall::Tall;
use crate::token::{Head, Inner, Marked, Setting, What, beginning, behind_open, is_sign, name};
use c_lexer::Sign;
use c_tree::{Expr, Name, Op};
use parse_laws::fault::{Fault, Refusal};
use parse_laws::token::next;
use sqlite_items::{Boxed, Items};
use std::alloc::{AllocError, Global};

/// An expression, its levels and the tokens after it.
pub type Parsed<'a> = Result<(Tall<Expr>, &'a [Marked]), Refusal<'a, Marked>>;

/// What is left behind a token that had to come.
pub type Passed<'a> = Result<(Marked, &'a [Marked]), Refusal<'a, Marked>>;

/// A sign that must come: it, and the tokens after it.
pub fn sign<'a>(setting: Setting, expected: Sign, tokens: &'a [Marked]) -> Passed<'a>
    ensures { Gives result (expect (spec.is (sight setting.entry) expected) tokens.now) }
{
    match next(tokens) {
        Some((token, rest)) => {
            if is_sign(expected, token.what) {
                Ok((token, rest))
            } else {
                Err(Refusal::At(Fault::Syntax, tokens))
            }
        }
        None => Err(Refusal::At(Fault::Syntax, tokens)),
    }
}

// An expression that takes a level itself.
fn over(tree: Expr, below: u8) -> Tall<Expr>
    requires { below < 200 }
    ensures { tall_of expr_of result ≡ over (expr_of tree) below }
{
    Tall {
        tree,
        levels: below + 1,
    }
}

fn argument_of(alloc: Global, name: &[u8]) -> Result<Tall<Expr>, AllocError>
    ensures { IfOk result (λ x. tall_of expr_of x ≡ spec.argument_of name.now) }
{
    Ok(over(Expr::Arg(Items::from_slice(alloc, name)?), 0))
}

// The sign that ends an expression of so many levels: where they don't fit into the room, it is too deep.
pub fn close<'a>(
    setting: Setting,
    expected: Sign,
    room: u8,
    levels: u8,
    tokens: &'a [Marked],
) -> Passed<'a>
    ensures gives { Gives result (spec.closing (sight setting.entry) expected (spec.fits room levels) tokens.now) }
    ensures fits { IfOk result (λ _. levels ≤ room) }
{
    let (token, rest) = sign(setting, expected, tokens)?;
    if levels <= room {
        Ok((token, rest))
    } else {
        Err(Refusal::At(Fault::TooDeep, tokens))
    }
}

// The name that is cast.
#[tactic(auto, unfolding(crate::specs::Parsers::cast_name))]
fn cast_name<'a>(alloc: Global, setting: Setting, tokens: &'a [Marked]) -> Parsed<'a>
    ensures gives { GivesExpression result (spec.cast_name (sight setting.entry) tokens.now) }
    ensures low { IfOk result (λ x. x.0.levels ≤ 1) }
{
    match next(tokens) {
        Some((token, rest)) => match name(setting.text, token.what) {
            Some(name) => Ok((argument_of(alloc, name)?, rest)),
            None => Err(Refusal::At(Fault::Syntax, tokens)),
        },
        None => Err(Refusal::At(Fault::Syntax, tokens)),
    }
}

// `long` or `intptr_t`.
fn cast_word<'a>(setting: Setting, tokens: &'a [Marked]) -> Passed<'a>
    ensures { Gives result (expect (spec.is_cast_word (sight setting.entry)) tokens.now) }
{
    match next(tokens) {
        Some((token, rest)) => match behind_open(token.what) {
            Inner::Long | Inner::Pointer => Ok((token, rest)),
            _ => Err(Refusal::At(Fault::Syntax, tokens)),
        },
        None => Err(Refusal::At(Fault::Syntax, tokens)),
    }
}

// Behind `( int`.
#[tactic(auto, unfolding(crate::specs::Parsers::int_cast))]
pub fn int_cast<'a>(alloc: Global, setting: Setting, tokens: &'a [Marked]) -> Parsed<'a>
    ensures gives { GivesExpression result (spec.int_cast (sight setting.entry) tokens.now) }
    ensures low { IfOk result (λ x. x.0.levels ≤ 1) }
{
    let (_, rest) = sign(setting, Sign::RightParenthesis, tokens)?;
    let (_, rest) = sign(setting, Sign::LeftParenthesis, rest)?;
    let (_, rest) = cast_word(setting, rest)?;
    let (_, rest) = sign(setting, Sign::RightParenthesis, rest)?;
    cast_name(alloc, setting, rest)
}

fn pointer_name(alloc: Global) -> Result<Tall<Expr>, AllocError>
    ensures { IfOk result (λ x. tall_of expr_of x ≡ spec.pointer_name) }
{
    Ok(over(Expr::Name(Items::from_slice(alloc, b"intptr_t")?), 1))
}

// Behind `( intptr_t )`.
#[tactic(auto, unfolding(crate::specs::Parsers::pointer_cast))]
fn pointer_cast<'a>(alloc: Global, setting: Setting, tokens: &'a [Marked]) -> Parsed<'a>
    ensures gives { GivesExpression result (spec.pointer_cast (sight setting.entry) tokens.now) }
    ensures low { IfOk result (λ x. x.0.levels ≤ 2) }
{
    match next(tokens) {
        Some((token, rest)) => match name(setting.text, token.what) {
            Some(name) => Ok((argument_of(alloc, name)?, rest)),
            None => Ok((pointer_name(alloc)?, tokens)),
        },
        None => Ok((pointer_name(alloc)?, tokens)),
    }
}

fn operator_of(what: What) -> Option<Op>
    ensures { (text : List ℕ) → result ≡ spec.operator_of (what_of text what) }
{
    let What::Sign(sign) = what else {
        return None;
    };
    match sign {
        Sign::Or => Some(Op::Or),
        Sign::And => Some(Op::And),
        Sign::Equal => Some(Op::Eq),
        Sign::NotEqual => Some(Op::Ne),
        Sign::Less => Some(Op::Lt),
        Sign::LessEqual => Some(Op::Le),
        Sign::Greater => Some(Op::Gt),
        Sign::GreaterEqual => Some(Op::Ge),
        Sign::Plus => Some(Op::Add),
        Sign::Minus => Some(Op::Sub),
        Sign::Star => Some(Op::Mul),
        Sign::Slash => Some(Op::Div),
        Sign::Percent => Some(Op::Rem),
        _ => None,
    }
}

// How loosely an operator binds, from 1 to 6.
fn looseness(operator: Op) -> u8
    ensures { result ≡ grammar.looseness operator }
{
    match operator {
        Op::Or => 6,
        Op::And => 5,
        Op::Eq | Op::Ne => 4,
        Op::Lt | Op::Le | Op::Gt | Op::Ge => 3,
        Op::Add | Op::Sub => 2,
        Op::Mul | Op::Div | Op::Rem => 1,
    }
}

// The operator that a token is, where it binds one step looser than `level`.
fn operator(setting: Setting, level: u8, token: Marked) -> Option<Op>
    requires { level ≤ 5 }
    ensures { result ≡ spec.operator_at (sight setting.entry) level token }
{
    let operator = operator_of(token.what)?;
    if looseness(operator) == level + 1 {
        Some(operator)
    } else {
        None
    }
}

// Such an operator comes next.
fn is_operator(setting: Setting, level: u8, tokens: &[Marked]) -> bool
    requires { level ≤ 5 }
    ensures { result ≡ spec.operator_comes (sight setting.entry) level tokens.now }
{
    match next(tokens) {
        Some((token, _)) => operator(setting, level, token).is_some(),
        None => false,
    }
}

fn joined(
    alloc: Global,
    op: Op,
    left: Tall<Expr>,
    right: Tall<Expr>,
) -> Result<Tall<Expr>, AllocError>
    requires left { left.levels < 200 }
    requires right { right.levels < 200 }
    ensures { IfOk result (λ x. tall_of expr_of x ≡ grammar.joined op (tall_of expr_of left) (tall_of expr_of right)) }
{
    let levels = left.levels.max(right.levels);
    let left = Boxed::new(alloc, left.tree)?;
    let right = Boxed::new(alloc, right.tree)?;
    Ok(over(Expr::Binary { op, left, right }, levels))
}

fn element(alloc: Global, name: &[u8], index: Tall<Expr>) -> Result<Tall<Expr>, AllocError>
    requires { index.levels < 200 }
    ensures { IfOk result (λ x. tall_of expr_of x ≡ spec.element name.now (tall_of expr_of index)) }
{
    let levels = index.levels;
    let name: Name = Items::from_slice(alloc, name)?;
    let index = Boxed::new(alloc, index.tree)?;
    Ok(over(Expr::Element { name, index }, levels))
}

fn negation(alloc: Global, operand: Tall<Expr>) -> Result<Tall<Expr>, AllocError>
    requires { operand.levels < 200 }
    ensures { IfOk result (λ x. tall_of expr_of x ≡ spec.negation (tall_of expr_of operand)) }
{
    let levels = operand.levels;
    Ok(over(Expr::Not(Boxed::new(alloc, operand.tree)?), levels))
}

fn opposite(alloc: Global, operand: Tall<Expr>) -> Result<Tall<Expr>, AllocError>
    requires { operand.levels < 200 }
    ensures { IfOk result (λ x. tall_of expr_of x ≡ spec.opposite (tall_of expr_of operand)) }
{
    let levels = operand.levels;
    Ok(over(Expr::Minus(Boxed::new(alloc, operand.tree)?), levels))
}

// The fault where an expression would be too deep.
fn where_an_expression_begins(setting: Setting, tokens: &[Marked]) -> Fault
    ensures { result ≡ fault_at (spec.begins (sight setting.entry)) tokens.now }
{
    match next(tokens) {
        Some((token, _)) => match beginning(setting.text, token.what) {
            Head::Other => Fault::Syntax,
            _ => Fault::TooDeep,
        },
        None => Fault::Syntax,
    }
}

// The fault where an expression that began with a name would be too deep.
fn where_a_name_goes_on(setting: Setting, tokens: &[Marked]) -> Fault
    ensures { result ≡ fault_at (spec.goes_on (sight setting.entry)) tokens.now }
{
    match next(tokens) {
        Some((token, _)) => {
            if is_sign(Sign::LeftBracket, token.what) || operator_of(token.what).is_some() {
                Fault::TooDeep
            } else {
                Fault::Syntax
            }
        }
        None => Fault::Syntax,
    }
}

/// An expression, and the `)` behind it. A parenthesis takes a level, so the expression stands one below
/// the room's first.
#[cycle(expressions)]
pub fn closed<'a>(alloc: Global, setting: Setting, room: u8, tokens: &'a [Marked]) -> Parsed<'a>
    requires { room ≤ 64 }
    ensures gives { GivesExpression result (spec.closed (sight setting.entry) room (spec.expression (sight setting.entry) room) tokens.now) }
    ensures low { IfOk result (λ x. x.0.levels ≤ room + 1) }
{
    let (inside, rest) = expression(alloc, setting, room, tokens)?;
    let (_, rest) = close(setting, Sign::RightParenthesis, room, inside.levels, rest)?;
    Ok((over(inside.tree, inside.levels), rest))
}

/// Behind `( intptr_t`, where no `)` follows: an expression that begins with that name, which is the first
/// of the tokens `whole`, of which `tokens` are those behind it.
#[cycle(expressions)]
pub fn pointer_first<'a>(
    alloc: Global,
    setting: Setting,
    room: u8,
    whole: &'a [Marked],
    token: Marked,
    tokens: &'a [Marked],
) -> Parsed<'a>
    requires room { room ≤ 64 }
    requires whole { whole.now ≡ token ∷ tokens.now }
    ensures gives { GivesExpression result (spec.pointer_first (sight setting.entry) room (spec.lower_in (sight setting.entry) room) token tokens.now) }
    ensures low { IfOk result (λ x. x.0.levels ≤ room + 1) }
{
    if room == 0 {
        return Err(Refusal::At(where_a_name_goes_on(setting, tokens), tokens));
    }
    closed(alloc, setting, room, whole)
}

// Behind `( intptr_t`.
#[cycle(expressions)]
#[tactic(auto, unfolding(crate::specs::Parsers::pointer))]
fn pointer<'a>(
    alloc: Global,
    setting: Setting,
    room: u8,
    whole: &'a [Marked],
    token: Marked,
    tokens: &'a [Marked],
) -> Parsed<'a>
    requires room { room ≤ 64 }
    requires whole { whole.now ≡ token ∷ tokens.now }
    ensures gives { GivesExpression result (spec.pointer (sight setting.entry) room (spec.lower_in (sight setting.entry) room) (spec.pointer_cast (sight setting.entry)) token tokens.now) }
    ensures low { IfOk result (λ x. x.0.levels ≤ room + 2) }
{
    match next(tokens) {
        Some((sign, rest)) => {
            if is_sign(Sign::RightParenthesis, sign.what) {
                pointer_cast(alloc, setting, rest)
            } else {
                pointer_first(alloc, setting, room, whole, token, tokens)
            }
        }
        None => pointer_first(alloc, setting, room, whole, token, tokens),
    }
}

// Behind `( long`.
fn long_cast<'a>(alloc: Global, setting: Setting, tokens: &'a [Marked]) -> Parsed<'a>
    ensures gives { GivesExpression result (must (spec.is (sight setting.entry) RightParenthesis) (spec.cast_name (sight setting.entry)) tokens.now) }
    ensures low { IfOk result (λ x. x.0.levels ≤ 1) }
{
    let (_, rest) = sign(setting, Sign::RightParenthesis, tokens)?;
    cast_name(alloc, setting, rest)
}

// Behind `(`.
#[cycle(expressions)]
#[tactic(auto, unfolding(crate::specs::Parsers::opened))]
fn opened<'a>(alloc: Global, setting: Setting, room: u8, tokens: &'a [Marked]) -> Parsed<'a>
    requires { room ≤ 64 }
    ensures gives { GivesExpression result (spec.opened (sight setting.entry) room (spec.lower_in (sight setting.entry) room) (spec.cast_name (sight setting.entry)) (spec.pointer_cast (sight setting.entry)) tokens.now) }
    ensures low { IfOk result (λ x. x.0.levels ≤ room + 2) }
{
    match next(tokens) {
        Some((token, rest)) => match behind_open(token.what) {
            Inner::Int => {
                if setting.casts {
                    int_cast(alloc, setting, rest)
                } else {
                    closed(alloc, setting, room, tokens)
                }
            }
            Inner::Long => long_cast(alloc, setting, rest),
            Inner::Pointer => pointer(alloc, setting, room, tokens, token, rest),
            Inner::Other => closed(alloc, setting, room, tokens),
        },
        None => closed(alloc, setting, room, tokens),
    }
}

/// Behind `[`: an index, and the `]` behind it.
#[cycle(expressions)]
pub fn index<'a>(alloc: Global, setting: Setting, room: u8, tokens: &'a [Marked]) -> Parsed<'a>
    requires room { room ≤ 64 }
    requires some { 0 < room }
    ensures gives { GivesExpression result (spec.index_in (sight setting.entry) room (spec.lower_in (sight setting.entry) room) tokens.now) }
    ensures low { IfOk result (λ x. x.0.levels ≤ room) }
{
    let (inside, rest) = chain(alloc, setting, room - 1, 6, tokens)?;
    let (_, rest) = close(setting, Sign::RightBracket, room, inside.levels, rest)?;
    Ok((inside, rest))
}

// Behind a name and `[`.
#[cycle(expressions)]
fn member<'a>(
    alloc: Global,
    setting: Setting,
    room: u8,
    name: &[u8],
    tokens: &'a [Marked],
) -> Parsed<'a>
    requires room { room ≤ 64 }
    requires some { 0 < room }
    ensures gives { GivesExpression result (spec.indexed (sight setting.entry) room (spec.lower_in (sight setting.entry) room) (spec.element name.now) tokens.now) }
    ensures low { IfOk result (λ x. x.0.levels ≤ room + 1) }
{
    let (inside, rest) = index(alloc, setting, room, tokens)?;
    Ok((element(alloc, name, inside)?, rest))
}

// Behind a name.
#[cycle(expressions)]
#[tactic(auto, unfolding(crate::specs::Parsers::name_operand))]
fn name_operand<'a>(
    alloc: Global,
    setting: Setting,
    room: u8,
    name: &[u8],
    tokens: &'a [Marked],
) -> Parsed<'a>
    requires { room ≤ 64 }
    ensures gives { GivesExpression result (spec.name_operand (sight setting.entry) room (spec.lower_in (sight setting.entry) room) name.now tokens.now) }
    ensures low { IfOk result (λ x. x.0.levels ≤ room + 1) }
{
    if let Some((token, rest)) = next(tokens) {
        if is_sign(Sign::LeftBracket, token.what) {
            if room == 0 {
                return Err(Refusal::At(Fault::TooDeep, tokens));
            }
            return member(alloc, setting, room, name, rest);
        }
    }
    Ok((over(Expr::Name(Items::from_slice(alloc, name)?), 0), tokens))
}

// Behind `!`.
#[cycle(expressions)]
fn negated<'a>(alloc: Global, setting: Setting, room: u8, tokens: &'a [Marked]) -> Parsed<'a>
    requires room { room ≤ 64 }
    requires some { 0 < room }
    ensures gives { GivesExpression result (spec.signed (spec.lower_in (sight setting.entry) room) spec.negation tokens.now) }
    ensures low { IfOk result (λ x. x.0.levels ≤ room + 2) }
{
    let (below, rest) = chain(alloc, setting, room - 1, 0, tokens)?;
    Ok((negation(alloc, below)?, rest))
}

// Behind `-`.
#[cycle(expressions)]
fn reversed<'a>(alloc: Global, setting: Setting, room: u8, tokens: &'a [Marked]) -> Parsed<'a>
    requires room { room ≤ 64 }
    requires some { 0 < room }
    ensures gives { GivesExpression result (spec.signed (spec.lower_in (sight setting.entry) room) spec.opposite tokens.now) }
    ensures low { IfOk result (λ x. x.0.levels ≤ room + 2) }
{
    let (below, rest) = chain(alloc, setting, room - 1, 0, tokens)?;
    Ok((opposite(alloc, below)?, rest))
}

/// Reads an operand with the signs before it, below which `room` levels may stand.
#[cycle(expressions)]
#[tactic(auto, unfolding(crate::specs::Parsers::operand))]
pub fn operand<'a>(alloc: Global, setting: Setting, room: u8, tokens: &'a [Marked]) -> Parsed<'a>
    requires { room ≤ 64 }
    ensures gives { GivesExpression result (spec.unary (sight setting.entry) room tokens.now) }
    ensures low { IfOk result (λ x. x.0.levels ≤ room + 2) }
{
    let Some((token, rest)) = next(tokens) else {
        return Err(Refusal::At(Fault::Syntax, tokens));
    };
    match beginning(setting.text, token.what) {
        Head::Value(value) => Ok((over(Expr::Number(value), 0), rest)),
        Head::Word(name) => name_operand(alloc, setting, room, name, rest),
        Head::Open if room > 0 || setting.casts => opened(alloc, setting, room, rest),
        Head::Not if room > 0 => negated(alloc, setting, room, rest),
        Head::Minus if room > 0 => reversed(alloc, setting, room, rest),
        Head::Open | Head::Not | Head::Minus => Err(Refusal::At(Fault::TooDeep, tokens)),
        Head::Other => Err(Refusal::At(Fault::Syntax, tokens)),
    }
}

// One more operator, and the operand on its right.
#[cycle(expressions)]
fn turn<'a>(
    alloc: Global,
    setting: Setting,
    room: u8,
    level: u8,
    left: Tall<Expr>,
    tokens: &'a [Marked],
) -> Parsed<'a>
    requires small { room ≤ 64 }
    requires level { level ≤ 5 }
    requires left { left.levels ≤ room + 2 }
    ensures gives { GivesExpression result (commit (tower.operate (spec.expressions_of (sight setting.entry)) room level (spec.lower_in (sight setting.entry) room level) (tall_of expr_of left)) refuse tokens.now) }
    ensures low { IfOk result (λ x. x.0.levels ≤ room + 2) }
{
    let Some((token, rest)) = next(tokens) else {
        return Err(Refusal::At(Fault::Syntax, tokens));
    };
    let Some(operator) = operator(setting, level, token) else {
        return Err(Refusal::At(Fault::Syntax, tokens));
    };
    if left.below() >= room {
        return Err(Refusal::At(Fault::TooDeep, tokens));
    }
    let (right, rest) = chain(alloc, setting, room - 1, level, rest)?;
    Ok((joined(alloc, operator, left, right)?, rest))
}

// Operators of one looseness, to the left.
#[cycle(expressions)]
fn operators<'a>(
    alloc: Global,
    setting: Setting,
    room: u8,
    level: u8,
    left: Tall<Expr>,
    tokens: &'a [Marked],
) -> Parsed<'a>
    requires small { room ≤ 64 }
    requires level { level ≤ 5 }
    requires left { left.levels ≤ room + 2 }
    ensures gives { GivesExpression result (loop (tower.operate (spec.expressions_of (sight setting.entry)) room level (spec.lower_in (sight setting.entry) room level)) (tall_of expr_of left) tokens.now) }
    ensures low { IfOk result (λ x. x.0.levels ≤ room + 2) }
{
    let mut left = left;
    let mut rest = tokens;
    'turns: while is_operator(setting, level, rest) {
        let (more, after) = turn(alloc, setting, room, level, left, rest)?;
        left = more;
        rest = after;
    }
    Ok((left, rest))
}

/// Reads an expression whose operators bind at most so loosely as `level` says (0: an operand; 6: any
/// expression), below which `room` levels may stand.
#[cycle(expressions)]
pub fn chain<'a>(
    alloc: Global,
    setting: Setting,
    room: u8,
    level: u8,
    tokens: &'a [Marked],
) -> Parsed<'a>
    requires small { room ≤ 64 }
    requires level { level ≤ 6 }
    ensures gives { GivesExpression result (tower.chain (spec.expressions_of (sight setting.entry)) room level tokens.now) }
    ensures low { IfOk result (λ x. x.0.levels ≤ room + 2) }
{
    if level == 0 {
        return operand(alloc, setting, room, tokens);
    }
    let (left, rest) = chain(alloc, setting, room, level - 1, tokens)?;
    operators(alloc, setting, room, level - 1, left, rest)
}

/// Reads an expression that may take `room` levels.
///
/// Where it ends in `( intptr_t )` it may take one more than it may: the token behind it decides whether that
/// is a cast, and is asked by its reader whether the expression fits.
#[cycle(expressions)]
pub fn expression<'a>(alloc: Global, setting: Setting, room: u8, tokens: &'a [Marked]) -> Parsed<'a>
    requires { room ≤ 64 }
    ensures gives { GivesExpression result (spec.expression (sight setting.entry) room tokens.now) }
    ensures low { IfOk result (λ x. x.0.levels ≤ room + 1) }
{
    if room == 0 {
        return Err(Refusal::At(where_an_expression_begins(setting, tokens), tokens));
    }
    chain(alloc, setting, room - 1, 6, tokens)
}
