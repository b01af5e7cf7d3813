//! The parser of the bodies of functions. Each function reads what the function of its name in `specs/` does.

ghost use Rattle.std.specs.Prelude.{◌≡◌, ◌+◌, ◌≤◌, ◌∷◌, IfOk};
ghost use Rattle.c_grammar.specs.Statements as grammar;
ghost use Rattle.parse_laws.specs.Gives.{Gives};
ghost use Rattle.parse_laws.specs.Parser.{commit, expect, loop, refuse};
ghost use Rattle.c_expressions.specs.Gives.{sight, tall_of};
ghost use Rattle.c_expressions.specs.Parsers as expressions;
ghost use Rattle.c_simple.specs.Gives.{statements_of};
ghost use Rattle.c_statements.specs.Gives.{GivesBody, body_of};
ghost use Rattle.c_statements.specs.Words as words;
ghost use Rattle.c_statements.specs.Parsers as spec;

use crate::slot::named_slots;
use crate::statement::statement;
use crate::word::{Thread, begins, is_static, is_thread_type, thread_opening};
use c_expressions::expression::Passed;
use c_expressions::tall::Tall;
use c_expressions::token::{Marked, Setting, name};
use c_tree::{Kind, Slots, Stmts};
use parse_laws::fault::{Fault, Refusal};
use parse_laws::token::next;
use sqlite_items::Items;
use std::alloc::{AllocError, Global};

/// The statements of a function, and the threads that it declares.
#[derive(Debug, Drop)]
pub struct Body {
    /// The statements.
    pub stmts: Stmts,
    /// The threads.
    pub slots: Slots,
}

/// A body, its levels and the tokens after it.
pub type ParsedBody<'a> = Result<(Tall<Body>, &'a [Marked]), Refusal<'a, Marked>>;

fn empty_body(alloc: Global) -> Tall<Body>
    ensures { tall_of body_of result ≡ spec.empty_body }
{
    Tall {
        tree: Body {
            stmts: Items::new(alloc),
            slots: Items::new(alloc),
        },
        levels: 0,
    }
}

#[tactic(auto, using(crate::proofs::Lists::statements_grow))]
fn body_then(body: Tall<Body>, more: Tall<Stmts>) -> Result<Tall<Body>, AllocError>
    ensures { IfOk result (λ x. tall_of body_of x ≡ grammar.body_then (tall_of body_of body) (tall_of statements_of more)) }
{
    let levels = body.levels.max(more.levels);
    let Body { stmts, slots } = body.tree;
    let mut stmts = stmts;
    stmts.append(more.tree)?;
    Ok(Tall {
        tree: Body { stmts, slots },
        levels,
    })
}

fn body_with(body: Tall<Body>, more: Slots) -> Result<Tall<Body>, AllocError>
    ensures { IfOk result (λ x. tall_of body_of x ≡ grammar.body_with (tall_of body_of body) more) }
{
    let levels = body.levels;
    let Body { stmts, slots } = body.tree;
    let mut slots = slots;
    slots.append(more)?;
    Ok(Tall {
        tree: Body { stmts, slots },
        levels,
    })
}

// One more statement.
fn stated<'a>(
    alloc: Global,
    setting: Setting,
    kind: Kind,
    room: u8,
    body: Tall<Body>,
    tokens: &'a [Marked],
) -> ParsedBody<'a>
    requires small { room ≤ 64 }
    requires body { body.levels ≤ room }
    ensures gives { GivesBody result (spec.stated (sight setting.entry) kind room (tall_of body_of body) tokens.now) }
    ensures low { IfOk result (λ x. x.0.levels ≤ room) }
{
    let (more, rest) = statement(alloc, setting, kind, room, tokens)?;
    Ok((body_then(body, more)?, rest))
}

// Slots, behind the name of the first.
fn with_slots<'a>(
    alloc: Global,
    setting: Setting,
    body: Tall<Body>,
    line: u32,
    name: &[u8],
    tokens: &'a [Marked],
) -> ParsedBody<'a>
    ensures gives { GivesBody result (spec.with_slots (sight setting.entry) (tall_of body_of body) line name.now tokens.now) }
    ensures low { IfOk result (λ x. x.0.levels ≡ body.levels) }
{
    let (more, rest) = named_slots(alloc, setting, line, name, tokens)?;
    Ok((body_with(body, more)?, rest))
}

// `pthread_t`.
fn thread_type<'a>(setting: Setting, tokens: &'a [Marked]) -> Passed<'a>
    ensures { Gives result (expect (λ u. words.is_thread_type (expressions.seen (sight setting.entry) u)) tokens.now) }
{
    match next(tokens) {
        Some((token, rest)) => {
            if is_thread_type(token.what) {
                Ok((token, rest))
            } else {
                Err(Refusal::At(Fault::Syntax, tokens))
            }
        }
        None => Err(Refusal::At(Fault::Syntax, tokens)),
    }
}

// Behind `pthread_t` behind `static`.
fn behind_type<'a>(
    alloc: Global,
    setting: Setting,
    body: Tall<Body>,
    tokens: &'a [Marked],
) -> ParsedBody<'a>
    ensures gives { GivesBody result (commit (spec.with_slots_by (sight setting.entry) (tall_of body_of body)) refuse tokens.now) }
    ensures low { IfOk result (λ x. x.0.levels ≡ body.levels) }
{
    match next(tokens) {
        Some((token, rest)) => match name(setting.text, token.what) {
            Some(name) => with_slots(alloc, setting, body, token.line, name, rest),
            None => Err(Refusal::At(Fault::Syntax, tokens)),
        },
        None => Err(Refusal::At(Fault::Syntax, tokens)),
    }
}

// Behind `static`.
#[tactic(auto, unfolding(crate::specs::Parsers::static_threads))]
fn static_threads<'a>(
    alloc: Global,
    setting: Setting,
    body: Tall<Body>,
    tokens: &'a [Marked],
) -> ParsedBody<'a>
    ensures gives { GivesBody result (spec.static_threads (sight setting.entry) (tall_of body_of body) tokens.now) }
    ensures low { IfOk result (λ x. x.0.levels ≡ body.levels) }
{
    let (_, rest) = thread_type(setting, tokens)?;
    behind_type(alloc, setting, body, rest)
}

// Behind `pthread_t`, the first of the tokens `whole`, of which `tokens` are those behind it.
#[tactic(auto, unfolding(crate::specs::Parsers::threads))]
fn threads<'a>(
    alloc: Global,
    setting: Setting,
    kind: Kind,
    room: u8,
    body: Tall<Body>,
    token: Marked,
    whole: &'a [Marked],
    tokens: &'a [Marked],
) -> ParsedBody<'a>
    requires small { room ≤ 64 }
    requires body { body.levels ≤ room }
    requires whole { whole.now ≡ token ∷ tokens.now }
    ensures gives { GivesBody result (spec.threads (sight setting.entry) kind room (tall_of body_of body) token tokens.now) }
    ensures low { IfOk result (λ x. x.0.levels ≤ room) }
{
    match next(tokens) {
        Some((first, rest)) => match name(setting.text, first.what) {
            Some(name) => with_slots(alloc, setting, body, first.line, name, rest),
            None => stated(alloc, setting, kind, room, body, whole),
        },
        None => stated(alloc, setting, kind, room, body, whole),
    }
}

// A statement, or a declaration of threads.
fn main_turn<'a>(
    alloc: Global,
    setting: Setting,
    kind: Kind,
    room: u8,
    body: Tall<Body>,
    tokens: &'a [Marked],
) -> ParsedBody<'a>
    requires small { room ≤ 64 }
    requires body { body.levels ≤ room }
    ensures gives { GivesBody result (spec.main_turn (sight setting.entry) kind room (tall_of body_of body) tokens.now) }
    ensures low { IfOk result (λ x. x.0.levels ≤ room) }
{
    let Some((token, rest)) = next(tokens) else {
        return Err(Refusal::At(Fault::Syntax, tokens));
    };
    match thread_opening(token.what) {
        Thread::Static if setting.threads => static_threads(alloc, setting, body, rest),
        Thread::Static => Err(Refusal::At(Fault::Syntax, tokens)),
        Thread::Type => threads(alloc, setting, kind, room, body, token, tokens, rest),
        Thread::Other => stated(alloc, setting, kind, room, body, tokens),
    }
}

// What goes on with a body.
fn turn<'a>(
    alloc: Global,
    setting: Setting,
    kind: Kind,
    room: u8,
    body: Tall<Body>,
    tokens: &'a [Marked],
) -> ParsedBody<'a>
    requires small { room ≤ 64 }
    requires body { body.levels ≤ room }
    ensures gives { GivesBody result (commit (spec.body_by (sight setting.entry) kind room (tall_of body_of body)) refuse tokens.now) }
    ensures low { IfOk result (λ x. x.0.levels ≤ room) }
{
    match kind {
        Kind::Main => main_turn(alloc, setting, kind, room, body, tokens),
        _ => stated(alloc, setting, kind, room, body, tokens),
    }
}

// A statement, or in main a declaration of threads, comes, or what is too deep for one.
fn goes_on(setting: Setting, kind: Kind, tokens: &[Marked]) -> bool
    ensures { result ≡ spec.body_comes (sight setting.entry) kind tokens.now }
{
    match next(tokens) {
        Some((token, _)) => {
            begins(setting, token) || kind == Kind::Main && setting.threads && is_static(token.what)
        }
        None => false,
    }
}

/// Reads the statements of a function of this kind, which may take `room` levels, and in `main` the declarations of
/// threads among them. It ends before a token that begins neither.
pub fn function_body<'a>(
    alloc: Global,
    setting: Setting,
    kind: Kind,
    room: u8,
    tokens: &'a [Marked],
) -> ParsedBody<'a>
    requires { room ≤ 64 }
    ensures gives { GivesBody result (spec.body (sight setting.entry) kind room tokens.now) }
    ensures low { IfOk result (λ x. x.0.levels ≤ room) }
{
    let mut body = empty_body(alloc);
    let mut rest = tokens;
    'turns: while goes_on(setting, kind, rest) {
        let (more, after) = turn(alloc, setting, kind, room, body, rest)?;
        body = more;
        rest = after;
    }
    Ok((body, rest))
}
