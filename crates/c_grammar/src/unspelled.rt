// Samples that are not spelled as what they would have to be. The texts are in
// `specs/NotSpelled.antt`.
ghost use Rattle.c_grammar.specs.NotSpelled.{OtherStatements, CallsInside, Unfinished, OtherReturns, OtherCalls, OtherTrylocks, GroupsLeft, DefinedTwice, CastOfArgument, KeptNames};

/// Statements of C that are none here, as `break;`, and parts that are none by themselves, as an
/// `else` without its `if`.
pub fn no_other_statements()
    ensures { OtherStatements }
{}

/// A call stands alone or directly behind `=`, and never inside an expression or behind `return`.
pub fn no_calls_inside()
    ensures { CallsInside }
{}

/// An expression is no statement, and neither is a text without its `;`.
pub fn nothing_unfinished()
    ensures { Unfinished }
{}

/// What stands behind `return` goes by the kind of the function.
pub fn no_other_returns()
    ensures { OtherReturns }
{}

/// The words that the grammar spells out are called as it says, and not otherwise.
pub fn no_other_calls()
    ensures { OtherCalls }
{}

/// A trylock stands in the test of an `if` alone, and is compared with 0 alone.
pub fn no_other_trylocks()
    ensures { OtherTrylocks }
{}

/// `a - b - c` isn't `a - (b - c)`.
pub fn operators_group_left()
    ensures { GroupsLeft }
{}

/// A name is defined once.
pub fn no_second_definition()
    ensures { DefinedTwice }
{}

/// In `(void *)(long)x` the cast is that of the argument, and `x` a name like another.
pub fn cast_is_of_argument()
    ensures { CastOfArgument }
{}

/// `gd_cap` is no scalar and no array, and `main` gives an `int` and takes nothing.
pub fn no_kept_names()
    ensures { KeptNames }
{}
