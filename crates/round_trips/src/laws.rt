// What holds of programs that are printed and read again.

ghost use Rattle.round_trips.specs.RoundTrip.{RoundTrip};

/// A law of the programs that some text spells: whatever `parse` answers of the canonical text of one
/// is that program, lines apart, or says that the text passes a limit.
///
/// `print` writes the canonical text, and what `parse` answers has its cause in the text. So what `print`
/// writes of a program that `parse` read from any text, if it has fewer than 2^31 bytes, is read by `parse`
/// as the same program, lines apart, or refused as `TooDeep` or as `TooManyTokens`: never as `Lex` or as
/// `Syntax`. The canonical text may take more levels and more tokens than the text that was read: it has
/// `x = x + 1` for `x++`. `Memory` may come at any time.
pub fn round_trip()
    ensures { RoundTrip }
{}
