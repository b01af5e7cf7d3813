// How long the text of the first form is that spells a program.
ghost use Rattle.std.specs.Prelude.{◌≡◌, ◌≤◌, ◌+◌, ◌*◌, length, map, min, nat_le, sum};
ghost use Rattle.c_tree.specs.Lined.{bare_function, function_of};
ghost use Rattle.first_form.specs.Shown.{shown, shown_stmt, shown_body};
ghost use Rattle.first_form.specs.Size.{stmt_tokens, body_tokens, head_tokens, function_tokens, first_tokens};

use c_tree::{Act, Function, Kind, Program, Stmt};

/// How many tokens a text may have.
const MOST: usize = 65536;

/// A sum of tokens; where it is past the limit, by one.
fn capped(tokens: usize, more: usize) -> usize
    requires so_far { tokens ≤ 65537 }
    requires next { more ≤ 65537 }
    ensures { result ≡ min (tokens + more) 65537 }
{
    (tokens + more).min(MOST + 1)
}

/// The tokens of a statement.
fn stmt_tokens(s: &Stmt) -> usize
    ensures is { result ≡ stmt_tokens (shown_stmt s.now) }
    ensures few { result ≤ 15 }
{
    match &s.act {
        Act::Assign { .. } | Act::Lock { .. } | Act::Unlock { .. } => 6,
        Act::Create { .. } => 15,
        Act::Join { .. } => 10,
        Act::Return { .. } => 3,
        _ => 0,
    }
}

/// The tokens of a body, up to one past the limit.
fn body_tokens(body: &[Stmt]) -> usize
    ensures { result ≡ min (body_tokens (shown_body body.now)) 65537 }
{
    let mut tokens = 0;
    'statements: for s in body {
        tokens = capped(tokens, stmt_tokens(s));
    }
    tokens
}

/// The tokens of a function, up to one past the limit.
fn function_tokens(f: &Function) -> usize
    ensures { result ≡ min (function_tokens (bare_function (function_of f.now))) 65537 }
{
    let head = if f.kind == Kind::Main { 7 } else { 10 };
    capped(body_tokens(f.body.as_slice()), head)
}

/// The tokens of functions, up to one past the limit.
fn functions_tokens(functions: &[Function]) -> usize
    ensures { result ≡ min (sum (map function_tokens (map bare_function (map function_of functions.now)))) 65537 }
{
    let mut tokens = 0;
    'functions: for f in functions {
        tokens = capped(tokens, function_tokens(f));
    }
    tokens
}

/// The tokens of so many declarations, up to one past the limit.
fn declared_tokens(count: usize, each: usize) -> usize
    requires { each ≤ 6 }
    ensures { result ≡ min (each * count) 65537 }
{
    let few = count.min(MOST + 1);
    (each * few).min(MOST + 1)
}

/// Whether the text of the first form that spells a program has at most 65,536 tokens.
pub fn has_short_text(p: &Program) -> bool
    ensures { result ≡ nat_le (first_tokens (shown p.now)) 65536 }
{
    let ints = declared_tokens(p.ints.len(), 3);
    let mutexes = declared_tokens(p.mutexes.len(), 5);
    let threads = declared_tokens(p.threads.len(), 6);
    let functions = functions_tokens(p.functions.as_slice());
    capped(capped(ints, mutexes), capped(threads, functions)) <= MOST
}
