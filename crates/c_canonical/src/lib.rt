//! The canonical layout of a program.
//!
//! `specs/` says which text stands for a program, as a layout (`c_layout`): a list of tokens and what
//! stands between them, with a definition for each kind of expression, statement and declaration.
//! Lines have no part in it: programs that differ in their lines alone have one layout.
//! [`reads_back`] is the law that a reader finds exactly the tokens of the layout in that text.
//!
//! A program is shaped if the grammar (`c_grammar`) can spell it without definitions of names; it is so
//! exactly where some tokens spell it ([`shape_is_what_words_spell`]), however long its names are. What a
//! text spells is shaped ([`spelled_is_shaped`]), and the canonical text of what is shaped spells it
//! ([`shaped_is_spelled`]): so a program that is read and written is read again as the same program
//! ([`canonical_spells`]). A program has a text exactly where it is shaped and its names, numbers and
//! formats are tokens ([`texts_are_writable`]).
#![tactic(auto)]

mod laws;

pub use laws::{
    canonical_spells, reads_back, shape_is_what_words_spell, shaped_is_spelled, spelled_is_shaped,
    texts_are_writable,
};
