//! Layouts of C texts: tokens with their bytes, and what stands between them.
//!
//! A program that writes C says what it writes as a layout, a list of items; the text is the items'
//! bytes, one after another. `specs/Layout` has the words, and the laws here say when a reader finds
//! exactly the tokens of the layout in that text again: where each token is the longest one at its
//! place (ISO/IEC 9899:1999, section 6.4, paragraph 4).
#![tactic(auto)]

mod laws;

pub use laws::{includes, names, numbers, quotes, reading, signs};
