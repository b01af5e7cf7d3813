// Laws on the fronts of lists of tokens, and samples of the failing token.
ghost use Rattle.c_grammar.specs.Fronts.{OneByOne, FrontsBegin, EmptyIsOpen, BreakFails, OpenDeclarationFails};

/// Tokens are told apart one after another: only the definitions before a token bear on it.
pub fn tokens_one_by_one()
    ensures { OneByOne }
{}

/// The front of what begins a program begins one too, within as many levels.
pub fn fronts_begin()
    ensures { FrontsBegin }
{}

/// No tokens begin a program.
pub fn empty_is_open()
    ensures { EmptyIsOpen }
{}

/// `break` at the front of a file is the failing token, and no program of any depth has it there.
pub fn break_fails()
    ensures { BreakFails }
{}

/// A file of `int x` alone fails at its end.
pub fn open_declaration_fails()
    ensures { OpenDeclarationFails }
{}
