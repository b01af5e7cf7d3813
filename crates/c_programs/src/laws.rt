//! What the parser reads on the words of the lexer, in the terms of the grammar.

ghost use Rattle.c_programs.specs.Laws.{ProgramsAreExact};

/// On the words of the lexer, with the definitions before each, the parser of programs answers a program exactly
/// where they spell it within the levels, and else names the failing token, with the reason why it fails.
pub fn programs_are_exact()
    ensures { ProgramsAreExact }
{}
