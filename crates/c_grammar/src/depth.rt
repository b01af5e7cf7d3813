// Levels at any depth, a text of bytes, and the keywords.
ghost use Rattle.c_grammar.specs.Depth.{ParenthesesTakeLevels, LineIsSpelled, AllKeywords};

/// A pair of parentheses takes a level, so 62 pairs in an assignment of main are the most that 64
/// levels hold.
pub fn parentheses_take_levels()
    ensures { ParenthesesTakeLevels }
{}

/// A file of the bytes `int x;` and a newline spells its program, which ends on line 2.
pub fn line_is_spelled()
    ensures { LineIsSpelled }
{}

/// C has 37 keywords (ISO/IEC 9899:1999, section 6.4.1).
pub fn all_keywords()
    ensures { AllKeywords }
{}
