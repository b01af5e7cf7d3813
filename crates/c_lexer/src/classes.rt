//! The kinds of bytes that tokens are made of.

ghost use Rattle.std.specs.Prelude.{◌≡◌};
ghost use Rattle.c_lexer.specs.Classes as spec;

/// A letter or `_`.
pub fn is_letter(b: u8) -> bool
    ensures { result ≡ spec.is_letter b }
{
    (b'A' <= b && b <= b'Z') || b == b'_' || (b'a' <= b && b <= b'z')
}

/// A decimal digit.
pub fn is_digit(b: u8) -> bool
    ensures { result ≡ spec.is_digit b }
{
    b'0' <= b && b <= b'9'
}

/// A byte of a name after its first one.
#[tactic(auto, unfolding(crate::specs::Classes::is_word))]
pub fn is_word(b: u8) -> bool
    ensures { result ≡ spec.is_word b }
{
    is_letter(b) || is_digit(b)
}

/// A space or a tab.
pub fn is_space(b: u8) -> bool
    ensures { result ≡ spec.is_space b }
{
    b == b' ' || b == b'\t'
}

/// A space, a tab or a carriage return.
pub fn is_line_blank(b: u8) -> bool
    ensures { result ≡ spec.is_line_blank b }
{
    is_space(b) || b == b'\r'
}

/// A blank.
pub fn is_blank(b: u8) -> bool
    ensures { result ≡ spec.is_blank b }
{
    is_line_blank(b) || b == b'\n'
}
