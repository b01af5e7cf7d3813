//! What holds of texts, whichever way they are read.

ghost use Rattle.c_parser.specs.Parsed.{OneProgram, EachTextHasAnswer, OneAnswer};

/// A text spells at most one program.
pub fn one_program()
    ensures { OneProgram }
{}

/// Each text has an answer that isn't want of memory, and one alone: a program, or one of the four refusals.
pub fn one_answer()
    ensures some { EachTextHasAnswer }
    ensures one { OneAnswer }
{}
