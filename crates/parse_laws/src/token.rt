//! Tokens, and the next one of a list.

ghost use Rattle.std.specs.Prelude.{◌≡◌};
ghost use Rattle.parse_laws.specs.Gives.{listed};

/// A token of a list of sums.
#[derive(Clone, Copy, Debug, PartialEq, Eq)]
pub enum Token {
    Number(u32),
    Plus,
    Times,
    Minus,
    LParen,
    RParen,
    Comma,
}

/// The next token and those after it, or `None` where the text ends.
pub fn next<T: Copy>(tokens: &[T]) -> Option<(T, &[T])>
    ensures { tokens.now ≡ listed result }
{
    match tokens {
        [] => None,
        [token, rest @ ..] => Some((*token, rest)),
    }
}
