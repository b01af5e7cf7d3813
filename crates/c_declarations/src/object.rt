//! The parser of mutexes and conditions. Each function reads what the function of its name in `specs/` does.

ghost use Rattle.std.specs.Prelude.{◌≡◌, ◌∷◌, ◌+◌, ◌≤◌, ◌<◌, length, IfOk, Option, ℕ};
ghost use Rattle.c_lexer.specs.declared.token.Sign.TheVariants.{Comma};
ghost use Rattle.parse_laws.specs.Gives.{Gives};
ghost use Rattle.parse_laws.specs.Parser.{must};
ghost use Rattle.c_expressions.specs.Gives.{sight};
ghost use Rattle.c_expressions.specs.Parsers.{is};
ghost use Rattle.c_declarations.specs.Words as words;
ghost use Rattle.c_declarations.specs.Parsers as spec;

use crate::token::{Read, is_comma, length_behind, word};
use crate::tree::Sort;
use c_expressions::expression::sign;
use c_expressions::token::{Marked, Setting, is_sign, name as name_of};
use c_grammar::FixedWord;
use c_lexer::Sign;
use c_tree::{Object, Objects};
use parse_laws::fault::{Fault, Refusal};
use parse_laws::token::next;
use sqlite_items::Items;
use std::alloc::{AllocError, Global};

fn initial_word(sort: Sort) -> FixedWord
    ensures { result ≡ words.initial_word sort }
{
    match sort {
        Sort::Mutex => FixedWord::MutexInitializer,
        Sort::Condition => FixedWord::ConditionInitializer,
    }
}

fn is_ready(setting: Setting, sort: Sort) -> bool
    ensures { result ≡ spec.is_ready (sight setting.entry) sort }
{
    match sort {
        Sort::Mutex => setting.ready_mutexes,
        Sort::Condition => setting.ready_conditions,
    }
}

// The word that a mutex or a condition begins with, which counts as one.
#[tactic(auto, unfolding(crate::specs::Parsers::initial))]
fn initial<'a>(setting: Setting, sort: Sort, tokens: &'a [Marked]) -> Read<'a, u32>
    ensures gives { Gives result (spec.initial (sight setting.entry) sort tokens.now) }
    ensures one { IfOk result (λ x. x.0 ≡ 1) }
{
    let (_, rest) = word(setting, initial_word(sort), tokens)?;
    Ok((1, rest))
}

// A comma and such a word.
fn next_initial<'a>(setting: Setting, sort: Sort, tokens: &'a [Marked]) -> Read<'a, u32>
    ensures { Gives result (must (is (sight setting.entry) Comma) (spec.initial (sight setting.entry) sort) tokens.now) }
{
    let (_, rest) = sign(setting, Sign::Comma, tokens)?;
    initial(setting, sort, rest)
}

// How many there are with those counted so far.
fn more_initials<'a>(setting: Setting, sort: Sort, all: u32, tokens: &'a [Marked]) -> Read<'a, u32>
    requires few { all + length tokens.now ≤ 65537 }
    ensures { Gives result (spec.more (sight setting.entry) (spec.initial (sight setting.entry) sort) spec.counted all tokens.now) }
{
    let mut all = all;
    let mut rest = tokens;
    'turns: while is_comma(setting, rest) {
        let (_, after) = next_initial(setting, sort, rest)?;
        all += 1;
        rest = after;
    }
    Ok((all, rest))
}

#[tactic(auto, unfolding(crate::specs::Parsers::initials))]
fn initials<'a>(setting: Setting, sort: Sort, tokens: &'a [Marked]) -> Read<'a, u32>
    requires few { length tokens.now ≤ 65536 }
    ensures { Gives result (spec.initials (sight setting.entry) sort tokens.now) }
{
    let (first, rest) = initial(setting, sort, tokens)?;
    more_initials(setting, sort, first, rest)
}

// The initialisers of an array, in braces.
fn braced_initials<'a>(setting: Setting, sort: Sort, tokens: &'a [Marked]) -> Read<'a, u32>
    requires few { length tokens.now ≤ 65536 }
    ensures { Gives result (spec.braced (sight setting.entry) (spec.initials (sight setting.entry) sort) tokens.now) }
{
    let (_, rest) = sign(setting, Sign::LeftBrace, tokens)?;
    let (given, rest) = initials(setting, sort, rest)?;
    let (_, rest) = sign(setting, Sign::RightBrace, rest)?;
    Ok((given, rest))
}

fn object_of(
    alloc: Global,
    line: u32,
    name: &[u8],
    len: Option<u32>,
    ready: bool,
    given: u32,
) -> Result<Object, AllocError>
    ensures { IfOk result (λ x. x ≡ spec.object_of line name.now len ready given) }
{
    Ok(Object {
        name: Items::from_slice(alloc, name)?,
        len,
        ready,
        given,
        line,
    })
}

// Behind the length of an array.
#[tactic(auto, unfolding(crate::specs::Parsers::objects_end))]
fn objects_end<'a>(
    alloc: Global,
    setting: Setting,
    sort: Sort,
    line: u32,
    name: &[u8],
    len: u32,
    tokens: &'a [Marked],
) -> Read<'a, Object>
    requires few { length tokens.now ≤ 65536 }
    ensures { Gives result (spec.objects_end (sight setting.entry) sort line name.now len tokens.now) }
{
    if let Some((token, rest)) = next(tokens) {
        if is_sign(Sign::Assign, token.what) && is_ready(setting, sort) {
            let (given, rest) = braced_initials(setting, sort, rest)?;
            return Ok((object_of(alloc, line, name, Some(len), true, given)?, rest));
        }
    }
    Ok((object_of(alloc, line, name, Some(len), false, 0)?, tokens))
}

// Behind `[`.
#[tactic(auto, unfolding(crate::specs::Parsers::objects_behind))]
fn objects_behind<'a>(
    alloc: Global,
    setting: Setting,
    sort: Sort,
    line: u32,
    name: &[u8],
    tokens: &'a [Marked],
) -> Read<'a, Object>
    requires few { length tokens.now ≤ 65536 }
    ensures { Gives result (spec.objects_behind (sight setting.entry) sort line name.now tokens.now) }
{
    let (len, rest) = length_behind(setting, tokens)?;
    objects_end(alloc, setting, sort, line, name, len, rest)
}

// Behind `=`.
#[tactic(auto, unfolding(crate::specs::Parsers::ready_object))]
fn ready_object<'a>(
    alloc: Global,
    setting: Setting,
    sort: Sort,
    line: u32,
    name: &[u8],
    tokens: &'a [Marked],
) -> Read<'a, Object>
    ensures { Gives result (spec.ready_object (sight setting.entry) sort line name.now tokens.now) }
{
    let (given, rest) = initial(setting, sort, tokens)?;
    Ok((object_of(alloc, line, name, None, true, given)?, rest))
}

// Behind the name.
#[tactic(auto, unfolding(crate::specs::Parsers::object_behind))]
fn object_behind<'a>(
    alloc: Global,
    setting: Setting,
    sort: Sort,
    line: u32,
    name: &[u8],
    tokens: &'a [Marked],
) -> Read<'a, Object>
    requires few { length tokens.now ≤ 65536 }
    ensures { Gives result (spec.object_behind (sight setting.entry) sort line name.now tokens.now) }
{
    if let Some((token, rest)) = next(tokens) {
        if is_sign(Sign::LeftBracket, token.what) {
            return objects_behind(alloc, setting, sort, line, name, rest);
        }
        if is_sign(Sign::Assign, token.what) && is_ready(setting, sort) {
            return ready_object(alloc, setting, sort, line, name, rest);
        }
    }
    Ok((object_of(alloc, line, name, None, false, 0)?, tokens))
}

#[tactic(auto, unfolding(crate::specs::Parsers::object))]
fn object<'a>(alloc: Global, setting: Setting, sort: Sort, tokens: &'a [Marked]) -> Read<'a, Object>
    requires few { length tokens.now ≤ 65536 }
    ensures { Gives result (spec.object (sight setting.entry) sort tokens.now) }
{
    match next(tokens) {
        Some((token, rest)) => match name_of(setting.text, token.what) {
            Some(name) => object_behind(alloc, setting, sort, token.line, name, rest),
            None => Err(Refusal::At(Fault::Syntax, tokens)),
        },
        None => Err(Refusal::At(Fault::Syntax, tokens)),
    }
}

// A comma, and a mutex or a condition.
fn next_object<'a>(
    alloc: Global,
    setting: Setting,
    sort: Sort,
    tokens: &'a [Marked],
) -> Read<'a, Object>
    requires few { length tokens.now ≤ 65536 }
    ensures { Gives result (must (is (sight setting.entry) Comma) (spec.object (sight setting.entry) sort) tokens.now) }
{
    let (_, rest) = sign(setting, Sign::Comma, tokens)?;
    object(alloc, setting, sort, rest)
}

// Those behind the ones read so far.
fn more_objects<'a>(
    alloc: Global,
    setting: Setting,
    sort: Sort,
    all: Objects,
    tokens: &'a [Marked],
) -> Read<'a, Objects>
    requires few { length tokens.now ≤ 65536 }
    ensures { Gives result (spec.more (sight setting.entry) (spec.object (sight setting.entry) sort) spec.grown all tokens.now) }
{
    let mut all = all;
    let mut rest = tokens;
    'turns: while is_comma(setting, rest) {
        let (one, after) = next_object(alloc, setting, sort, rest)?;
        all.push(one)?;
        rest = after;
    }
    Ok((all, rest))
}

/// Reads what stands behind `pthread_mutex_t` or `pthread_cond_t` outside functions, with the `;` that ends it.
#[tactic(auto, unfolding(crate::specs::Parsers::objects))]
pub fn objects<'a>(
    alloc: Global,
    setting: Setting,
    sort: Sort,
    tokens: &'a [Marked],
) -> Read<'a, Objects>
    requires few { length tokens.now ≤ 65536 }
    ensures { Gives result (spec.objects (sight setting.entry) sort tokens.now) }
{
    let (first, rest) = object(alloc, setting, sort, tokens)?;
    let mut all = Items::new(alloc);
    all.push(first)?;
    let (all, rest) = more_objects(alloc, setting, sort, all, rest)?;
    let (_, rest) = sign(setting, Sign::Semicolon, rest)?;
    Ok((all, rest))
}
