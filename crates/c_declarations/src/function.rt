//! The parser of the heads of functions. Each function reads what the function of its name in `specs/` does.

ghost use Rattle.std.specs.Prelude.{◌≡◌, ◌∷◌, IfOk};
ghost use Rattle.c_lexer.specs.declared.token.Sign.TheVariants.{Comma};
ghost use Rattle.parse_laws.specs.Gives.{Gives};
ghost use Rattle.parse_laws.specs.Parser.{must};
ghost use Rattle.c_expressions.specs.Gives.{sight};
ghost use Rattle.c_expressions.specs.Parsers.{is};
ghost use Rattle.c_declarations.specs.Parsers as spec;

use crate::token::{Read, function_name, is_comma, name, word};
use crate::tree::Head;
use c_expressions::expression::sign;
use c_expressions::token::{Marked, Setting, What, is_sign};
use c_grammar::FixedWord;
use c_lexer::Sign;
use c_tree::{Kind, Name, Names};
use parse_laws::fault::{Fault, Refusal};
use parse_laws::token::next;
use sqlite_items::Items;
use std::alloc::{AllocError, Global};

fn alone(alloc: Global, name: Name) -> Result<Names, AllocError>
    ensures { IfOk result (λ all. all ≡ spec.alone name) }
{
    let mut all = Items::new(alloc);
    all.push(name)?;
    Ok(all)
}

#[tactic(auto, unfolding(crate::specs::Parsers::parameter))]
fn parameter<'a>(alloc: Global, setting: Setting, tokens: &'a [Marked]) -> Read<'a, Name>
    ensures { Gives result (spec.parameter (sight setting.entry) tokens.now) }
{
    let (_, rest) = word(setting, FixedWord::Int, tokens)?;
    name(alloc, setting, rest)
}

// A comma and a parameter.
fn next_parameter<'a>(alloc: Global, setting: Setting, tokens: &'a [Marked]) -> Read<'a, Name>
    ensures { Gives result (must (is (sight setting.entry) Comma) (spec.parameter (sight setting.entry)) tokens.now) }
{
    let (_, rest) = sign(setting, Sign::Comma, tokens)?;
    parameter(alloc, setting, rest)
}

// The parameters behind those read so far.
fn more_parameters<'a>(
    alloc: Global,
    setting: Setting,
    all: Names,
    tokens: &'a [Marked],
) -> Read<'a, Names>
    ensures { Gives result (spec.more (sight setting.entry) (spec.parameter (sight setting.entry)) spec.grown all tokens.now) }
{
    let mut all = all;
    let mut rest = tokens;
    'turns: while is_comma(setting, rest) {
        let (one, after) = next_parameter(alloc, setting, rest)?;
        all.push(one)?;
        rest = after;
    }
    Ok((all, rest))
}

// Behind `int`: a parameter, or several, and `)`.
#[tactic(auto, unfolding(crate::specs::Parsers::some_parameters))]
fn some_parameters<'a>(alloc: Global, setting: Setting, tokens: &'a [Marked]) -> Read<'a, Names>
    ensures { Gives result (spec.some_parameters (sight setting.entry) tokens.now) }
{
    let (first, rest) = name(alloc, setting, tokens)?;
    let all = alone(alloc, first)?;
    let (all, rest) = more_parameters(alloc, setting, all, rest)?;
    let (_, rest) = sign(setting, Sign::RightParenthesis, rest)?;
    Ok((all, rest))
}

// No parameters, which `void` may say, and `)`.
#[tactic(auto, unfolding(crate::specs::Parsers::no_parameters))]
fn no_parameters<'a>(alloc: Global, setting: Setting, tokens: &'a [Marked]) -> Read<'a, Names>
    ensures { Gives result (spec.no_parameters (sight setting.entry) tokens.now) }
{
    match next(tokens) {
        Some((token, rest)) => match token.what {
            What::Fixed(FixedWord::Void) => {
                let (_, rest) = sign(setting, Sign::RightParenthesis, rest)?;
                Ok((Items::new(alloc), rest))
            }
            What::Sign(Sign::RightParenthesis) => Ok((Items::new(alloc), rest)),
            _ => Err(Refusal::At(Fault::Syntax, tokens)),
        },
        None => Err(Refusal::At(Fault::Syntax, tokens)),
    }
}

// Parameters or none, and `)`.
#[tactic(auto, unfolding(crate::specs::Parsers::parameters))]
fn parameters<'a>(alloc: Global, setting: Setting, tokens: &'a [Marked]) -> Read<'a, Names>
    ensures { Gives result (spec.parameters (sight setting.entry) tokens.now) }
{
    match next(tokens) {
        Some((token, rest)) => match token.what {
            What::Fixed(FixedWord::Void) => {
                let (_, rest) = sign(setting, Sign::RightParenthesis, rest)?;
                Ok((Items::new(alloc), rest))
            }
            What::Fixed(FixedWord::Int) => some_parameters(alloc, setting, rest),
            What::Sign(Sign::RightParenthesis) => Ok((Items::new(alloc), rest)),
            _ => Err(Refusal::At(Fault::Syntax, tokens)),
        },
        None => Err(Refusal::At(Fault::Syntax, tokens)),
    }
}

/// Reads what stands behind `int main (`, with the `)`, on the line of `int`.
#[tactic(auto, unfolding(crate::specs::Parsers::main_head))]
pub fn main_head<'a>(
    alloc: Global,
    setting: Setting,
    line: u32,
    tokens: &'a [Marked],
) -> Read<'a, Head>
    ensures { Gives result (spec.main_head (sight setting.entry) line tokens.now) }
{
    let (params, rest) = no_parameters(alloc, setting, tokens)?;
    let name = Items::from_slice(alloc, b"main")?;
    Ok((
        Head {
            name,
            kind: Kind::Main,
            params,
            line,
        },
        rest,
    ))
}

/// Reads what stands behind `int` and the name of a function and `(`, with the `)`, on the line of `int`.
#[tactic(auto, unfolding(crate::specs::Parsers::int_head))]
pub fn int_head<'a>(
    alloc: Global,
    setting: Setting,
    line: u32,
    name: &[u8],
    tokens: &'a [Marked],
) -> Read<'a, Head>
    ensures { Gives result (spec.int_head (sight setting.entry) line name.now tokens.now) }
{
    let (params, rest) = parameters(alloc, setting, tokens)?;
    let name = Items::from_slice(alloc, name)?;
    Ok((
        Head {
            name,
            kind: Kind::Int,
            params,
            line,
        },
        rest,
    ))
}

// Behind `void` and a name.
#[tactic(auto, unfolding(crate::specs::Parsers::void_head))]
fn void_head<'a>(
    alloc: Global,
    setting: Setting,
    line: u32,
    name: &[u8],
    tokens: &'a [Marked],
) -> Read<'a, Head>
    ensures { Gives result (spec.void_head (sight setting.entry) line name.now tokens.now) }
{
    let (_, rest) = sign(setting, Sign::LeftParenthesis, tokens)?;
    let (params, rest) = parameters(alloc, setting, rest)?;
    let name = Items::from_slice(alloc, name)?;
    Ok((
        Head {
            name,
            kind: Kind::Void,
            params,
            line,
        },
        rest,
    ))
}

// The parameter of the start function of threads.
#[tactic(auto, unfolding(crate::specs::Parsers::start_parameter))]
fn start_parameter<'a>(alloc: Global, setting: Setting, tokens: &'a [Marked]) -> Read<'a, Name>
    ensures { Gives result (spec.start_parameter (sight setting.entry) tokens.now) }
{
    let (_, rest) = word(setting, FixedWord::Void, tokens)?;
    let (_, rest) = sign(setting, Sign::Star, rest)?;
    name(alloc, setting, rest)
}

// Behind `void *` and a name.
#[tactic(auto, unfolding(crate::specs::Parsers::start_head))]
fn start_head<'a>(
    alloc: Global,
    setting: Setting,
    line: u32,
    name: &[u8],
    tokens: &'a [Marked],
) -> Read<'a, Head>
    ensures { Gives result (spec.start_head (sight setting.entry) line name.now tokens.now) }
{
    let (_, rest) = sign(setting, Sign::LeftParenthesis, tokens)?;
    let (parameter, rest) = start_parameter(alloc, setting, rest)?;
    let (_, rest) = sign(setting, Sign::RightParenthesis, rest)?;
    let params = alone(alloc, parameter)?;
    let name = Items::from_slice(alloc, name)?;
    Ok((
        Head {
            name,
            kind: Kind::Thread,
            params,
            line,
        },
        rest,
    ))
}

// Behind `void *`.
#[tactic(auto, unfolding(crate::specs::Parsers::thread_head))]
fn thread_head<'a>(
    alloc: Global,
    setting: Setting,
    line: u32,
    tokens: &'a [Marked],
) -> Read<'a, Head>
    ensures { Gives result (spec.thread_head (sight setting.entry) line tokens.now) }
{
    match next(tokens) {
        Some((token, rest)) => match function_name(setting.text, token.what) {
            Some(name) => start_head(alloc, setting, line, name, rest),
            None => Err(Refusal::At(Fault::Syntax, tokens)),
        },
        None => Err(Refusal::At(Fault::Syntax, tokens)),
    }
}

/// Reads what stands behind `void` outside functions: the head of a function, up to its `)`, on the line of
/// `void`.
#[tactic(auto, unfolding(crate::specs::Parsers::head_behind_void))]
pub fn head_behind_void<'a>(
    alloc: Global,
    setting: Setting,
    line: u32,
    tokens: &'a [Marked],
) -> Read<'a, Head>
    ensures { Gives result (spec.head_behind_void (sight setting.entry) line tokens.now) }
{
    match next(tokens) {
        Some((token, rest)) => {
            if is_sign(Sign::Star, token.what) {
                thread_head(alloc, setting, line, rest)
            } else {
                match function_name(setting.text, token.what) {
                    Some(name) => void_head(alloc, setting, line, name, rest),
                    None => Err(Refusal::At(Fault::Syntax, tokens)),
                }
            }
        }
        None => Err(Refusal::At(Fault::Syntax, tokens)),
    }
}
