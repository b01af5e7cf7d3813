//! What statements are made of.

ghost use Rattle.std.specs.Prelude.{◌≡◌, ℕ, ◌∷◌, ◌<◌, [], IfOk, Some, None};
ghost use Rattle.c_tree.specs.Expressions.{expr_of};
ghost use Rattle.c_tree.specs.Lined as lined;
ghost use Rattle.c_grammar.specs.Levels as grammar;
ghost use Rattle.c_grammar.specs.Statements as spelled;
ghost use Rattle.c_expressions.specs.Gives.{tall_of};
ghost use Rattle.c_simple.specs.Gives.{statements_of};
ghost use Rattle.c_statements.specs.Gives.{choice_of};

use c_expressions::tall::Tall;
use c_simple::trees::alone;
use c_tree::{Act, Expr, Place, Stmt, Stmts};
use sqlite_items::Items;
use std::alloc::{AllocError, Global};

/// No statement, on no level.
pub fn nothing(alloc: Global) -> Tall<Stmts>
    ensures { tall_of statements_of result ≡ grammar.nothing }
{
    Tall {
        tree: Items::new(alloc),
        levels: 0,
    }
}

/// A declaration of a local with its first value.
pub fn initialised(
    alloc: Global,
    line: u32,
    name: &[u8],
    value: Tall<Expr>,
) -> Result<Tall<Stmts>, AllocError>
    requires { value.levels < 200 }
    ensures { IfOk result (λ x. tall_of statements_of x ≡ grammar.alone (lined.Declare line name.now (Some (expr_of value.tree))) value.levels) }
{
    let act = Act::Declare {
        name: Items::from_slice(alloc, name)?,
        value: Some(value.tree),
    };
    alone(alloc, line, act, value.levels)
}

/// What an `if` tests.
#[derive(Debug, Drop)]
pub enum Test {
    /// An expression.
    Value(Expr),
    /// A trylock, where the first arm is that of a mutex that was taken.
    Taken(Place),
    /// A trylock, where the first arm is that of a mutex that was busy.
    Busy(Place),
}

// The act of an `if`, with the arms in the order of the text.
fn decided(test: Test, one: Stmts, two: Stmts) -> Act
    ensures { (line : ℕ) → lined.stmt_of (record { line = line; act = result }) ≡ spelled.choice line (choice_of test) (statements_of one) (statements_of two) }
{
    match test {
        Test::Value(test) => Act::If {
            test,
            then_arm: one,
            else_arm: two,
        },
        Test::Taken(place) => Act::TryLock {
            place,
            taken: one,
            busy: two,
        },
        Test::Busy(place) => Act::TryLock {
            place,
            taken: two,
            busy: one,
        },
    }
}

/// `if`
pub fn chosen(
    alloc: Global,
    line: u32,
    test: Tall<Test>,
    one: Tall<Stmts>,
    two: Tall<Stmts>,
) -> Result<Tall<Stmts>, AllocError>
    requires test { test.levels < 200 }
    requires one { one.levels < 200 }
    requires two { two.levels < 200 }
    ensures { IfOk result (λ x. tall_of statements_of x ≡ spelled.chosen line (tall_of choice_of test) (tall_of statements_of one) (tall_of statements_of two)) }
{
    let below = test.levels.max(one.levels.max(two.levels));
    let act = decided(test.tree, one.tree, two.tree);
    alone(alloc, line, act, below)
}

/// `while`
pub fn repeated(
    alloc: Global,
    line: u32,
    test: Tall<Expr>,
    body: Tall<Stmts>,
) -> Result<Tall<Stmts>, AllocError>
    requires test { test.levels < 200 }
    requires body { body.levels < 200 }
    ensures { IfOk result (λ x. tall_of statements_of x ≡ spelled.repeated line (tall_of expr_of test) (tall_of statements_of body)) }
{
    let below = test.levels.max(body.levels);
    let act = Act::While {
        test: test.tree,
        body: body.tree,
    };
    alone(alloc, line, act, below)
}

/// The parts of a `for`.
#[derive(Debug, Drop)]
pub struct Parts {
    /// What is done first.
    pub first: Tall<Stmts>,
    /// What is tested.
    pub test: Tall<Expr>,
    /// What is done after each turn.
    pub last: Tall<Stmts>,
}

/// `for`
pub fn counted(
    alloc: Global,
    line: u32,
    parts: Parts,
    body: Tall<Stmts>,
) -> Result<Tall<Stmts>, AllocError>
    requires test { parts.test.levels < 200 }
    requires body { body.levels < 200 }
    ensures { IfOk result (λ x. tall_of statements_of x ≡ spelled.counted line (tall_of statements_of parts.first) (tall_of expr_of parts.test) (tall_of statements_of parts.last) (tall_of statements_of body)) }
{
    let below = parts.test.levels.max(body.levels);
    let levels = parts.first.levels.max(parts.last.levels).max(below + 1);
    let act = Act::For {
        first: parts.first.tree,
        test: parts.test.tree,
        step: parts.last.tree,
        body: body.tree,
    };
    let mut tree = Items::new(alloc);
    tree.push(Stmt { line, act })?;
    Ok(Tall { tree, levels })
}
