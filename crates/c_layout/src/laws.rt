// Laws of layouts. A caller calls one where it needs the fact.

ghost use Rattle.c_layout.specs.Laws.{Reading, Names, Numbers, Quotes, Signs, Includes};

/// A law of all layouts: the text of one that is parted is read as exactly its tokens, each on its
/// line.
pub fn reading()
    ensures { Reading }
{}

/// A law of names and keywords: one of at most 63 characters is the token at its place where no
/// letter, digit or `_` follows it.
pub fn names()
    ensures { Names }
{}

/// A law of numbers: the decimal digits of one up to 2147483647 are the token at their place where
/// no letter, digit or `_` follows them.
pub fn numbers()
    ensures { Numbers }
{}

/// A law of texts: one of at most 120 bytes that holds only what a text may hold is, in quotes, the
/// token at its place.
pub fn quotes()
    ensures { Quotes }
{}

/// A law of signs: one is the token at its place where no byte follows that makes a longer sign or
/// begins a comment.
pub fn signs()
    ensures { Signs }
{}

/// A law of includes: one at the beginning of its line separates tokens.
pub fn includes()
    ensures { Includes }
{}
