//! What the parser reads of the tokens of a text, by what it reads of its words.

ghost use Rattle.c_alike.specs.Alike.{ReadAsWords};

/// The parser of programs answers on the marked tokens of a text as on its words: the same program, or
/// the same fault at the same token.
pub fn tokens_are_read_as_words()
    ensures { ReadAsWords }
{}
