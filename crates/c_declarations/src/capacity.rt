//! The parser of the capacities of monitors. Each function reads what the function of its name in `specs/`
//! does.

ghost use Rattle.std.specs.Prelude.{◌≡◌, ◌∷◌};
ghost use Rattle.c_lexer.specs.declared.token.Sign.TheVariants.{Comma};
ghost use Rattle.parse_laws.specs.Gives.{Gives};
ghost use Rattle.parse_laws.specs.Parser.{must};
ghost use Rattle.c_expressions.specs.Gives.{sight};
ghost use Rattle.c_expressions.specs.Parsers.{is};
ghost use Rattle.c_declarations.specs.Parsers as spec;

use crate::token::{Read, is_comma, length_behind, number, word};
use crate::tree::Capacities;
use c_expressions::expression::sign;
use c_expressions::token::{Marked, Setting};
use c_grammar::FixedWord;
use c_lexer::Sign;
use c_tree::Caps;
use sqlite_items::Items;
use std::alloc::Global;

// A comma and a number.
fn next_number<'a>(setting: Setting, tokens: &'a [Marked]) -> Read<'a, u32>
    ensures { Gives result (must (is (sight setting.entry) Comma) (spec.number (sight setting.entry)) tokens.now) }
{
    let (_, rest) = sign(setting, Sign::Comma, tokens)?;
    number(setting, rest)
}

// The numbers behind those read so far.
fn more_numbers<'a>(setting: Setting, all: Caps, tokens: &'a [Marked]) -> Read<'a, Caps>
    ensures { Gives result (spec.more (sight setting.entry) (spec.number (sight setting.entry)) spec.grown all tokens.now) }
{
    let mut all = all;
    let mut rest = tokens;
    'turns: while is_comma(setting, rest) {
        let (one, after) = next_number(setting, rest)?;
        all.push(one)?;
        rest = after;
    }
    Ok((all, rest))
}

#[tactic(auto, unfolding(crate::specs::Parsers::numbers))]
fn numbers<'a>(alloc: Global, setting: Setting, tokens: &'a [Marked]) -> Read<'a, Caps>
    ensures { Gives result (spec.numbers (sight setting.entry) tokens.now) }
{
    let (first, rest) = number(setting, tokens)?;
    let mut all = Items::new(alloc);
    all.push(first)?;
    more_numbers(setting, all, rest)
}

// The numbers, in braces.
fn braced_numbers<'a>(alloc: Global, setting: Setting, tokens: &'a [Marked]) -> Read<'a, Caps>
    ensures { Gives result (spec.braced (sight setting.entry) (spec.numbers (sight setting.entry)) tokens.now) }
{
    let (_, rest) = sign(setting, Sign::LeftBrace, tokens)?;
    let (all, rest) = numbers(alloc, setting, rest)?;
    let (_, rest) = sign(setting, Sign::RightBrace, rest)?;
    Ok((all, rest))
}

#[tactic(auto, unfolding(crate::specs::Parsers::capacity_values))]
fn capacity_values<'a>(alloc: Global, setting: Setting, tokens: &'a [Marked]) -> Read<'a, Caps>
    ensures { Gives result (spec.capacity_values (sight setting.entry) tokens.now) }
{
    let (_, rest) = sign(setting, Sign::Assign, tokens)?;
    let (all, rest) = braced_numbers(alloc, setting, rest)?;
    let (_, rest) = sign(setting, Sign::Semicolon, rest)?;
    Ok((all, rest))
}

// `( int k ) ;`
#[tactic(auto, unfolding(crate::specs::Parsers::prototype_end))]
fn prototype_end<'a>(setting: Setting, tokens: &'a [Marked]) -> Read<'a, ()>
    ensures { Gives result (spec.prototype_end (sight setting.entry) tokens.now) }
{
    let (_, rest) = sign(setting, Sign::LeftParenthesis, tokens)?;
    let (_, rest) = word(setting, FixedWord::Int, rest)?;
    let (_, rest) = word(setting, FixedWord::Parameter, rest)?;
    let (_, rest) = sign(setting, Sign::RightParenthesis, rest)?;
    let (_, rest) = sign(setting, Sign::Semicolon, rest)?;
    Ok(((), rest))
}

#[tactic(auto, unfolding(crate::specs::Parsers::prototype))]
fn prototype<'a>(setting: Setting, name: FixedWord, tokens: &'a [Marked]) -> Read<'a, ()>
    ensures { Gives result (spec.prototype (sight setting.entry) name tokens.now) }
{
    let (_, rest) = word(setting, FixedWord::Void, tokens)?;
    let (_, rest) = word(setting, name, rest)?;
    prototype_end(setting, rest)
}

#[tactic(auto, unfolding(crate::specs::Parsers::prototypes))]
fn prototypes<'a>(setting: Setting, tokens: &'a [Marked]) -> Read<'a, ()>
    ensures { Gives result (spec.prototypes (sight setting.entry) tokens.now) }
{
    let (_, rest) = prototype(setting, FixedWord::Take, tokens)?;
    prototype(setting, FixedWord::Give, rest)
}

/// Reads what stands behind `int gd_cap [`: the capacities, and the prototypes of `gd_take` and `gd_give`.
#[tactic(auto, unfolding(crate::specs::Parsers::capacities))]
pub fn capacities<'a>(
    alloc: Global,
    setting: Setting,
    line: u32,
    tokens: &'a [Marked],
) -> Read<'a, Capacities>
    ensures { Gives result (spec.capacities (sight setting.entry) line tokens.now) }
{
    let (len, rest) = length_behind(setting, tokens)?;
    let (values, rest) = capacity_values(alloc, setting, rest)?;
    let (_, rest) = prototypes(setting, rest)?;
    Ok((Capacities { len, values, line }, rest))
}
