//! The parser of the threads that `main` declares. Each function reads what the function of its name in `specs/`
//! does.

ghost use Rattle.std.specs.Prelude.{◌≡◌, ◌∷◌, [], IfOk, Some, None};
ghost use Rattle.c_lexer.specs.declared.token.Sign.TheVariants.{Comma, RightBracket};
ghost use Rattle.parse_laws.specs.Gives.{Gives};
ghost use Rattle.parse_laws.specs.Parser.{commit, many, must, pure, refuse};
ghost use Rattle.c_expressions.specs.Gives.{sight};
ghost use Rattle.c_expressions.specs.Parsers as expressions;
ghost use Rattle.c_statements.specs.Parsers as spec;

use c_expressions::expression::sign;
use c_expressions::token::{Marked, Setting, is_sign, name};
use c_lexer::Sign;
use c_simple::token::number;
use c_tree::{Slot, Slots};
use parse_laws::fault::{Fault, Refusal};
use parse_laws::token::next;
use sqlite_items::Items;
use std::alloc::{AllocError, Global};

/// A thread or an array of them, and the tokens after it.
pub type ParsedSlot<'a> = Result<(Slot, &'a [Marked]), Refusal<'a, Marked>>;

/// Threads in their order, and the tokens after them.
pub type ParsedSlots<'a> = Result<(Slots, &'a [Marked]), Refusal<'a, Marked>>;

fn slot_of(alloc: Global, line: u32, name: &[u8], len: Option<u32>) -> Result<Slot, AllocError>
    ensures { IfOk result (λ x. x ≡ spec.slot_of line name.now len) }
{
    Ok(Slot {
        name: Items::from_slice(alloc, name)?,
        len,
        line,
    })
}

// Behind the length.
fn closed<'a>(
    alloc: Global,
    setting: Setting,
    line: u32,
    name: &[u8],
    len: u32,
    tokens: &'a [Marked],
) -> ParsedSlot<'a>
    ensures { Gives result (must (expressions.is (sight setting.entry) RightBracket) (pure (spec.slot_of line name.now (Some len))) tokens.now) }
{
    let (_, rest) = sign(setting, Sign::RightBracket, tokens)?;
    Ok((slot_of(alloc, line, name, Some(len))?, rest))
}

// Behind a name and `[`.
#[tactic(auto, unfolding(crate::specs::Parsers::slot_length))]
fn slot_length<'a>(
    alloc: Global,
    setting: Setting,
    line: u32,
    name: &[u8],
    tokens: &'a [Marked],
) -> ParsedSlot<'a>
    ensures { Gives result (spec.slot_length (sight setting.entry) line name.now tokens.now) }
{
    match next(tokens) {
        Some((token, rest)) => match number(token.what) {
            Some(len) => closed(alloc, setting, line, name, len, rest),
            None => Err(Refusal::At(Fault::Syntax, tokens)),
        },
        None => Err(Refusal::At(Fault::Syntax, tokens)),
    }
}

// Behind a name.
#[tactic(auto, unfolding(crate::specs::Parsers::slot_behind))]
fn slot_behind<'a>(
    alloc: Global,
    setting: Setting,
    line: u32,
    name: &[u8],
    tokens: &'a [Marked],
) -> ParsedSlot<'a>
    ensures { Gives result (spec.slot_behind (sight setting.entry) line name.now tokens.now) }
{
    match next(tokens) {
        Some((token, rest)) => {
            if is_sign(Sign::LeftBracket, token.what) {
                slot_length(alloc, setting, line, name, rest)
            } else {
                Ok((slot_of(alloc, line, name, None)?, tokens))
            }
        }
        None => Ok((slot_of(alloc, line, name, None)?, tokens)),
    }
}

// One thread, or an array of them.
#[tactic(auto, unfolding(crate::specs::Parsers::slot))]
fn slot<'a>(alloc: Global, setting: Setting, tokens: &'a [Marked]) -> ParsedSlot<'a>
    ensures { Gives result (spec.slot (sight setting.entry) tokens.now) }
{
    match next(tokens) {
        Some((token, rest)) => match name(setting.text, token.what) {
            Some(name) => slot_behind(alloc, setting, token.line, name, rest),
            None => Err(Refusal::At(Fault::Syntax, tokens)),
        },
        None => Err(Refusal::At(Fault::Syntax, tokens)),
    }
}

fn is_comma(setting: Setting, tokens: &[Marked]) -> bool
    ensures { result ≡ expressions.comes (sight setting.entry) Comma tokens.now }
{
    match next(tokens) {
        Some((token, _)) => is_sign(Sign::Comma, token.what),
        None => false,
    }
}

// A comma, and one more.
fn behind_comma<'a>(alloc: Global, setting: Setting, tokens: &'a [Marked]) -> ParsedSlot<'a>
    ensures { Gives result (commit (spec.comma_by (sight setting.entry)) refuse tokens.now) }
{
    match next(tokens) {
        Some((token, rest)) => {
            if is_sign(Sign::Comma, token.what) {
                slot(alloc, setting, rest)
            } else {
                Err(Refusal::At(Fault::Syntax, tokens))
            }
        }
        None => Err(Refusal::At(Fault::Syntax, tokens)),
    }
}

// Those behind commas.
fn behind_commas<'a>(
    alloc: Global,
    setting: Setting,
    all: Slots,
    tokens: &'a [Marked],
) -> ParsedSlots<'a>
    ensures { Gives result (many (spec.comma_by (sight setting.entry)) spec.one_more_slot all tokens.now) }
{
    let mut all = all;
    let mut rest = tokens;
    'turns: while is_comma(setting, rest) {
        let (more, after) = behind_comma(alloc, setting, rest)?;
        all.push(more)?;
        rest = after;
    }
    Ok((all, rest))
}

// Behind threads: more of them, and `;`.
#[tactic(auto, unfolding(crate::specs::Parsers::more_slots))]
fn more_slots<'a>(
    alloc: Global,
    setting: Setting,
    all: Slots,
    tokens: &'a [Marked],
) -> ParsedSlots<'a>
    ensures { Gives result (spec.more_slots (sight setting.entry) all tokens.now) }
{
    let (all, rest) = behind_commas(alloc, setting, all, tokens)?;
    let (_, rest) = sign(setting, Sign::Semicolon, rest)?;
    Ok((all, rest))
}

fn one_slot(alloc: Global, first: Slot) -> Result<Slots, AllocError>
    ensures { IfOk result (λ all. all ≡ first ∷ []) }
{
    let mut all = Items::new(alloc);
    all.push(first)?;
    Ok(all)
}

/// Reads what follows `pthread_t` and the name of the first thread.
pub fn named_slots<'a>(
    alloc: Global,
    setting: Setting,
    line: u32,
    name: &[u8],
    tokens: &'a [Marked],
) -> ParsedSlots<'a>
    ensures { Gives result (spec.named_slots (sight setting.entry) line name.now tokens.now) }
{
    let (first, rest) = slot_behind(alloc, setting, line, name, tokens)?;
    let all = one_slot(alloc, first)?;
    more_slots(alloc, setting, all, rest)
}

/// Reads what follows `pthread_t`: one thread or array of threads or more, with commas between them, and `;`.
#[tactic(auto, unfolding(crate::specs::Parsers::slot_list))]
pub fn slot_list<'a>(alloc: Global, setting: Setting, tokens: &'a [Marked]) -> ParsedSlots<'a>
    ensures { Gives result (spec.slot_list (sight setting.entry) tokens.now) }
{
    match next(tokens) {
        Some((token, rest)) => match name(setting.text, token.what) {
            Some(name) => named_slots(alloc, setting, token.line, name, rest),
            None => Err(Refusal::At(Fault::Syntax, tokens)),
        },
        None => Err(Refusal::At(Fault::Syntax, tokens)),
    }
}
