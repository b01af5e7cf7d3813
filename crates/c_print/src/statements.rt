// Statements of one line and of more, on lines of their own.

ghost use Rattle.std.specs.Prelude.{◌≡◌, [], ◌∷◌, ◌++◌, IfOk, OnOk, codes};
ghost use Rattle.c_lexer.specs.declared.token.Sign.TheVariants as signs;
ghost use Rattle.c_layout.specs.Layout as tokens;
ghost use Rattle.c_layout.specs.Layout.{text};
ghost use Rattle.c_tree.specs.Expressions.{expr_of, place_of};
ghost use Rattle.c_tree.specs.Lined.{stmt_of, stmts_of, bare_stmt, bare_stmts};
ghost use Rattle.c_canonical.specs.Expressions as expressions;
ghost use Rattle.c_canonical.specs.Statements as spec;

use crate::acts::simple;
use crate::expressions::{expression, place};
use crate::writing::put;
use c_tree::{Act, Expr, Kind, Place, Stmt};
use std::alloc::{AllocError, Global};

/// The first part or the step of a `for`.
fn part(out: &mut Vec<u8>, alloc: Global, kind: Kind, parts: &[Stmt]) -> Result<(), AllocError>
    ensures { OnOk result (out.new.items ≡ out.old.items ++ text (spec.part kind (bare_stmts (stmts_of parts.now)))) }
{
    match parts {
        [] => Ok(()),
        [s, ..] => simple(out, alloc, kind, s),
    }
}

/// A keyword and a test in parentheses, before a block.
fn head(out: &mut Vec<u8>, alloc: Global, keyword: &[u8], test: &Expr) -> Result<(), AllocError>
    ensures { OnOk result (out.new.items ≡ out.old.items ++ text (spec.headed keyword.now (expressions.expression (expr_of test.now)))) }
{
    put(out, keyword)?;
    put(out, b" (")?;
    expression(out, alloc, test)?;
    put(out, b") ")?;
    Ok(())
}

/// The head of an `if` over a trylock, before its block.
fn try_head(out: &mut Vec<u8>, alloc: Global, mutex: &Place) -> Result<(), AllocError>
    ensures { OnOk result (out.new.items ≡ out.old.items ++ text (spec.headed (codes "if") (spec.tried (place_of mutex.now)))) }
{
    put(out, b"if (pthread_mutex_trylock(&")?;
    place(out, alloc, mutex)?;
    put(out, b") == 0) ")?;
    Ok(())
}

/// The head of a `for`, before its block.
fn for_head(
    out: &mut Vec<u8>,
    alloc: Global,
    kind: Kind,
    first: &[Stmt],
    test: &Expr,
    step: &[Stmt],
) -> Result<(), AllocError>
    ensures { OnOk result (out.new.items ≡ out.old.items ++ text (spec.headed (codes "for")
        (spec.part kind (bare_stmts (stmts_of first.now)) ++ tokens.sign signs.Semicolon ∷ tokens.space ∷
        (expressions.expression (expr_of test.now) ++ tokens.sign signs.Semicolon ∷ tokens.space ∷ spec.part kind (bare_stmts (stmts_of step.now)))))) }
{
    put(out, b"for (")?;
    part(out, alloc, kind, first)?;
    put(out, b"; ")?;
    expression(out, alloc, test)?;
    put(out, b"; ")?;
    part(out, alloc, kind, step)?;
    put(out, b") ")?;
    Ok(())
}

/// The margin of the lines of an arm or a body.
fn deeper(alloc: Global, margin: &[u8]) -> Result<Vec<u8>, AllocError>
    ensures { IfOk result (λ blanks. blanks.items ≡ spec.deeper margin.now) }
{
    let mut blanks = Vec::new(alloc);
    put(&mut blanks, b"    ")?;
    put(&mut blanks, margin)?;
    Ok(blanks)
}

/// Whether this is exactly one `if`, which may be over a trylock.
fn is_chain(ss: &[Stmt]) -> bool
    ensures { result ≡ spec.is_chain (bare_stmts (stmts_of ss.now)) }
{
    match ss {
        [only] => matches!(only.act, Act::If { .. } | Act::TryLock { .. }),
        _ => false,
    }
}

/// A statement of one line.
fn one_line(out: &mut Vec<u8>, alloc: Global, kind: Kind, s: &Stmt) -> Result<(), AllocError>
    ensures { OnOk result (out.new.items ≡ out.old.items ++ text (spec.simple kind (bare_stmt (stmt_of s.now)) ++ tokens.sign signs.Semicolon ∷ [])) }
{
    simple(out, alloc, kind, s)?;
    put(out, b";")?;
    Ok(())
}

/// Statements in braces, on lines of their own.
#[cycle(statement)]
fn block(
    out: &mut Vec<u8>,
    alloc: Global,
    kind: Kind,
    margin: &[u8],
    ss: &[Stmt],
) -> Result<(), AllocError>
    ensures { OnOk result (out.new.items ≡ out.old.items ++ text (spec.block margin.now (spec.statements kind (spec.deeper margin.now) (bare_stmts (stmts_of ss.now))))) }
{
    let inner = deeper(alloc, margin)?;
    put(out, b"{\n")?;
    lines(out, alloc, kind, &inner, ss)?;
    put(out, margin)?;
    put(out, b"}")?;
    Ok(())
}

/// The arm of an `else`, if there is one.
#[cycle(statement)]
fn otherwise(
    out: &mut Vec<u8>,
    alloc: Global,
    kind: Kind,
    margin: &[u8],
    ss: &[Stmt],
) -> Result<(), AllocError>
    ensures { OnOk result (out.new.items ≡ out.old.items ++ text (spec.otherwise kind margin.now (bare_stmts (stmts_of ss.now)))) }
{
    if ss.is_empty() {
        return Ok(());
    }
    put(out, b" else ")?;
    if is_chain(ss) {
        statement(out, alloc, kind, margin, &ss[0])?;
        return Ok(());
    }
    block(out, alloc, kind, margin, ss)?;
    Ok(())
}

/// A statement, from its first token to its last.
#[cycle(statement)]
fn statement(
    out: &mut Vec<u8>,
    alloc: Global,
    kind: Kind,
    margin: &[u8],
    s: &Stmt,
) -> Result<(), AllocError>
    ensures { OnOk result (out.new.items ≡ out.old.items ++ text (spec.statement kind margin.now (bare_stmt (stmt_of s.now)))) }
{
    match &s.act {
        Act::If {
            test,
            then_arm,
            else_arm,
        } => {
            head(out, alloc, b"if", test)?;
            block(out, alloc, kind, margin, then_arm.as_slice())?;
            otherwise(out, alloc, kind, margin, else_arm.as_slice())?;
            Ok(())
        }
        Act::TryLock { place, taken, busy } => {
            try_head(out, alloc, place)?;
            block(out, alloc, kind, margin, taken.as_slice())?;
            otherwise(out, alloc, kind, margin, busy.as_slice())?;
            Ok(())
        }
        Act::While { test, body } => {
            head(out, alloc, b"while", test)?;
            block(out, alloc, kind, margin, body.as_slice())?;
            Ok(())
        }
        Act::For {
            first,
            test,
            step,
            body,
        } => {
            for_head(out, alloc, kind, first.as_slice(), test, step.as_slice())?;
            block(out, alloc, kind, margin, body.as_slice())?;
            Ok(())
        }
        Act::Declare { .. }
        | Act::Assign { .. }
        | Act::Call { .. }
        | Act::Return { .. }
        | Act::Read { .. }
        | Act::Print { .. }
        | Act::Create { .. }
        | Act::Join { .. }
        | Act::InitMutex { .. }
        | Act::InitCond { .. }
        | Act::Lock { .. }
        | Act::Unlock { .. }
        | Act::Wait { .. }
        | Act::Signal { .. }
        | Act::Broadcast { .. }
        | Act::Take { .. }
        | Act::Give { .. } => one_line(out, alloc, kind, s),
    }
}

/// The canonical text of statements at the end of `out`, each on lines of its own that begin with
/// the margin.
#[cycle(statement)]
pub fn lines(
    out: &mut Vec<u8>,
    alloc: Global,
    kind: Kind,
    margin: &[u8],
    ss: &[Stmt],
) -> Result<(), AllocError>
    ensures { OnOk result (out.new.items ≡ out.old.items ++ text (spec.statements kind margin.now (bare_stmts (stmts_of ss.now)))) }
{
    for s in ss {
        put(out, margin)?;
        statement(out, alloc, kind, margin, s)?;
        put(out, b"\n")?;
    }
    Ok(())
}
