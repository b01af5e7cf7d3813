//! What a token is, once what is known of names is looked up.

ghost use Rattle.std.specs.Prelude.{◌≡◌, ◌<◌, ◌≤◌, ℕ, List, length, drop, IfOk};
ghost use Rattle.c_lexer.specs.Laws.{slice, DefinesIn};
ghost use Rattle.c_expressions.specs.Marked.{what_of};
ghost use Rattle.c_grammar.specs.Items.{named, definition_of};
ghost use Rattle.c_tokens.specs.Known.{Knows, told};
ghost use Rattle.c_tokens.specs.Sees.{Sees, SeesDefinition, SeesName};

use crate::words::Known;
use c_expressions::token::{What, piece};
use c_lexer::{Span, Token};
use std::alloc::AllocError;

/// A name: a word, a number by its definition, or a plain name.
fn name(text: &[u8], known: &Known, place: Span) -> What
    ensures { SeesName text.now known.now place result }
{
    match known.get(piece(text, place)) {
        Some(what) => *what,
        None => What::Name(place),
    }
}

/// What a definition is, by what its name was known as before.
fn defined(before: Option<What>) -> What
    ensures { result ≡ told before }
{
    match before {
        Some(What::Number(_)) => What::Repeated,
        Some(What::Fixed(word)) => What::Definition(Some(word)),
        _ => What::Definition(None),
    }
}

/// A definition of a name, which is known from now on. The one error is want of memory.
fn definition<'t>(known: &mut Known<'t>, name: &'t [u8], value: u32) -> Result<What, AllocError>
    ensures { IfOk result (λ what. SeesDefinition known.old known.new name.now value what) }
{
    let before = known.insert(name, What::Number(value))?;
    Ok(defined(before))
}

/// What the token at a place is. The one error is want of memory.
pub fn what<'t>(
    text: &'t [u8],
    known: &mut Known<'t>,
    token: Token,
    span: Span,
) -> Result<What, AllocError>
    requires some { span.start < span.end }
    requires within { span.end ≤ length text.now }
    ensures { IfOk result (λ what. Sees text.now known.old known.new span token what) }
{
    match token {
        Token::Name => Ok(name(text, known, span)),
        Token::Number(value) => Ok(What::Number(value)),
        Token::Text => Ok(What::Text(Span {
            start: span.start + 1,
            end: span.end - 1,
        })),
        Token::Sign(sign) => Ok(What::Sign(sign)),
        Token::Define(name, value) => definition(known, piece(text, name), value),
    }
}
