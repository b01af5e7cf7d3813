// What a statement is about.
ghost use Rattle.std.specs.Prelude.{◌≡◌, option_map};
ghost use Rattle.c_tree.specs.Expressions.{place_of};
ghost use Rattle.c_meaning.specs.Shown.{shown_stmt};
ghost use Rattle.state_parts.specs.Statements.{lock_of, take_of, takes_in};
ghost use Rattle.state_parts.specs.Waiting.{is_wait};

use c_tree::{Act, Place, Stmt};

/// The place that a statement locks.
pub fn lock_of<'a>(s: &'a Stmt) -> Option<&'a Place>
    ensures { option_map (λ place. place_of place.now) result ≡ lock_of (shown_stmt s.now) }
{
    match &s.act {
        Act::Lock { place } => Some(place),
        _ => None,
    }
}

/// The monitor of which a statement takes a token.
pub fn take_of(s: &Stmt) -> Option<u32>
    ensures { result ≡ take_of (shown_stmt s.now) }
{
    match &s.act {
        Act::Take { monitor } => Some(*monitor),
        _ => None,
    }
}

/// The monitors of which a wait takes tokens.
pub fn takes_in(s: &Stmt) -> &[u32]
    ensures { result.now ≡ takes_in (shown_stmt s.now) }
{
    match &s.act {
        Act::Wait { takes, .. } => takes.as_slice(),
        _ => &[],
    }
}

/// Whether a statement is a wait.
pub fn is_wait(s: &Stmt) -> bool
    ensures { result ≡ is_wait (shown_stmt s.now) }
{
    match &s.act {
        Act::Wait { .. } => true,
        _ => false,
    }
}
