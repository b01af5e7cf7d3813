// What a print appends to the output.
ghost use Rattle.std.specs.Prelude.{◌≡◌, ℕ, ℤ, List, ◌∷◌, ◌++◌, ◌==◌, if◌then◌else◌, IfOk, OnOk};
ghost use Rattle.std.specs.Fmt.{signed_decimal};
ghost use Rattle.c_meaning.specs.Printing as spec;
ghost use Rattle.c_meaning.specs.Printing.{escaped, argument_then, given_by};

use std::alloc::{AllocError, Global};

/// A number in decimal, with the sign `-` where it is negative.
fn put_value(out: &mut Vec<u8>, alloc: Global, value: i32) -> Result<(), AllocError>
    ensures { OnOk result (out.new.items ≡ out.old.items ++ signed_decimal value) }
{
    let digits = format!(in alloc; "{value}")?;
    out.extend_from_slice(digits.as_bytes())
}

/// The next argument, where there is one; the remaining ones are handed back.
fn put_argument<'a>(
    out: &mut Vec<u8>,
    alloc: Global,
    values: &'a [i32],
) -> Result<&'a [i32], AllocError>
    ensures { IfOk result (λ more. (behind : List ℤ → List ℕ) → out.new.items ++ behind more.now ≡ out.old.items ++ argument_then values.now behind) }
{
    match values.split_first() {
        None => Ok(values),
        Some((value, more)) => {
            put_value(out, alloc, *value)?;
            Ok(more)
        }
    }
}

/// What a format begins with.
#[derive(Clone, Copy, Debug, PartialEq, Eq)]
pub enum Piece {
    /// `%d`
    Argument,
    /// A sign and a byte that stand for one byte.
    Pair,
    /// A byte that stands for itself.
    Byte,
}

/// What two bytes begin with.
fn first_piece(b: u8, c: u8) -> Piece
    ensures { (format : List ℕ) (values : List ℤ) → spec.formatted (b ∷ c ∷ format) values ≡ given_by result b c format values }
{
    match (b, c) {
        (b'%', b'd') => Piece::Argument,
        (b'%', _) => Piece::Pair,
        (b'\\', _) => Piece::Pair,
        _ => Piece::Byte,
    }
}

/// The byte that a sign and another byte stand for together.
fn pair(sign: u8, b: u8) -> u8
    ensures { result ≡ (if sign == 92 then escaped b else b) }
{
    match (sign, b) {
        (b'\\', b'n') => b'\n',
        (b'\\', b't') => b'\t',
        _ => b,
    }
}

/// The bytes of a format with its arguments, at the end of `out`.
pub fn put_format(
    out: &mut Vec<u8>,
    alloc: Global,
    format: &[u8],
    values: &[i32],
) -> Result<(), AllocError>
    ensures { OnOk result (out.new.items ≡ out.old.items ++ spec.formatted format.now values.now) }
{
    let Some((b, rest)) = format.split_first() else {
        return Ok(());
    };
    let Some((c, behind)) = rest.split_first() else {
        out.push(*b)?;
        return Ok(());
    };
    match first_piece(*b, *c) {
        Piece::Argument => {
            let more = put_argument(out, alloc, values)?;
            put_format(out, alloc, behind, more)
        }
        Piece::Pair => {
            out.push(pair(*b, *c))?;
            put_format(out, alloc, behind, values)
        }
        Piece::Byte => {
            out.push(*b)?;
            put_format(out, alloc, rest, values)
        }
    }
}
