// Laws of the grammar that hold of every text.
ghost use Rattle.c_grammar.specs.Heads.{StatementsBegin, ExpressionsBegin, ExpressionsEnd};

/// Every statement begins with a name, with `;`, `++` or `--`, or with `int`, `if`, `while`, `for`
/// or `return`.
pub fn statements_begin()
    ensures { StatementsBegin }
{}

/// In an expression no operand is followed by `(`, so no call stands in one: an expression ends
/// where the stages of operands and operators end.
pub fn expressions_end()
    ensures { ExpressionsEnd }
{}

/// Every expression begins with a name or a number, with `!` or `-`, or with `(`.
pub fn expressions_begin()
    ensures { ExpressionsBegin }
{}
