//! Places in a text.

ghost use Rattle.std.specs.Prelude.{◌≡◌, ◌<◌, ◌≤◌, ◌^◌, length, take, drop};
ghost use Rattle.std.specs.List.{count_by};
ghost use Rattle.c_lexer.specs.Classes as classes;
ghost use Rattle.c_lexer.specs.Tokens as spec;

/// The text from a place on.
pub fn from(text: &[u8], at: usize) -> &[u8]
    requires { at ≤ length text.now }
    ensures { result.now ≡ drop at text.now }
{
    &text[at..]
}

/// Whether only spaces and tabs stand before a place on its line.
#[tactic(auto, using(crate::proofs::PlaceSteps::steps))]
pub fn is_first(text: &[u8], at: usize) -> bool
    requires { at ≤ length text.now }
    ensures { result ≡ spec.is_first (take at text.now) }
{
    let mut place = at;
    while place > 0 {
        let b = text[place - 1];
        if b == b'\n' {
            return true;
        }
        if b != b' ' && b != b'\t' {
            return false;
        }
        place -= 1;
    }
    true
}

fn newlines(text: &[u8]) -> usize
    ensures value { result ≡ count_by classes.is_newline text.now }
    ensures within { result ≤ length text.now }
{
    text.iter().filter(|b| **b == b'\n').count()
}

/// The line of a place.
#[tactic(auto, unfolding(crate::specs::Tokens::line))]
pub fn line_at(text: &[u8], at: usize) -> u32
    requires within { at ≤ length text.now }
    requires fits { length text.now < 2 ^ 31 }
    ensures { result ≡ spec.line (take at text.now) }
{
    1 + newlines(&text[..at]) as u32
}
