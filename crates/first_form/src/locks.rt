// Which mutexes are held, and where locks are nested.
ghost use Rattle.std.specs.Prelude.{◌≡◌, ◌&&◌, ◌||◌, ℕ, List, [], ◌∷◌, IfOk, OnOk, bytes_eq, not};
ghost use Rattle.std.specs.List.{list_any};
ghost use Rattle.c_tree.specs.Bare as bare;
ghost use Rattle.c_tree.specs.Lined.{stmt_of, stmts_of, line_of};
ghost use Rattle.c_rules.specs.Names.{mentions};
ghost use Rattle.first_form.specs.FirstForm.{mutexes_of, releases_held, holds_some, is_lock, is_balanced, nested_line};
ghost use Rattle.first_form.specs.Shown.{shown, shown_stmt, shown_body};
ghost use Rattle.first_form.specs.Sets.{texts};
ghost use Rattle.first_form.specs.Locks.{AreHeld};

use crate::scope::Scope;
use c_tree::{Act, Stmt};
use std::alloc::{AllocError, Global};

fn differ(one: &[u8], other: &[u8]) -> bool
    ensures { result ≡ not (bytes_eq one.now other.now) }
{
    one != other
}

/// The names of the mutexes that are held.
#[derive(Drop)]
struct Held<'a> {
    names: Vec<&'a [u8]>,
}

impl<'a> Held<'a> {
    fn new(alloc: Global) -> Held<'a>
        ensures { result.names.items ≡ [] }
    {
        Held {
            names: Vec::new(alloc),
        }
    }

    fn has(&self, name: &[u8]) -> bool
        ensures { result ≡ mentions (texts self.now.names.items) name.now }
    {
        self.names.iter().any(|held| name == *held)
    }

    /// Whether a mutex of the program is held.
    fn has_some(&self, scope: &Scope) -> bool
        ensures { (above : List bare.Stmt) → AreHeld (texts self.now.names.items) above → result ≡ holds_some (shown scope.now.program.now) above }
    {
        self.names.iter().any(|held| scope.is_mutex_name(held))
    }

    fn take(&mut self, name: &'a [u8]) -> Result<(), AllocError>
        ensures { OnOk result ((q : List ℕ) → mentions (texts self.new.names.items) q ≡ (bytes_eq name.now q || mentions (texts self.old.names.items) q)) }
    {
        if !self.has(name) {
            self.names.push(name)?;
        }
        Ok(())
    }

    fn release(&mut self, name: &[u8])
        ensures { (q : List ℕ) → mentions (texts self.new.names.items) q ≡ (not (bytes_eq name.now q) && mentions (texts self.old.names.items) q) }
    {
        self.names.retain(|held| differ(held, name));
    }

    /// Goes past a statement. The one error is want of memory.
    fn pass(&mut self, s: &'a Stmt) -> Result<(), AllocError>
        ensures { OnOk result ((above : List bare.Stmt) → AreHeld (texts self.old.names.items) above → AreHeld (texts self.new.names.items) (shown_stmt s.now ∷ above)) }
    {
        match &s.act {
            Act::Lock { place } => self.take(place.name.as_slice()),
            Act::Unlock { place } => {
                self.release(place.name.as_slice());
                Ok(())
            }
            _ => Ok(()),
        }
    }

    /// Whether a statement unlocks nothing that isn't held.
    fn allows(&self, s: &Stmt) -> bool
        ensures { (above : List bare.Stmt) → AreHeld (texts self.now.names.items) above → result ≡ releases_held above (shown_stmt s.now) }
    {
        match &s.act {
            Act::Unlock { place } => self.has(place.name.as_slice()),
            _ => true,
        }
    }

    /// Whether a statement locks while a mutex of the program is held.
    fn nests(&self, scope: &Scope, s: &Stmt) -> bool
        ensures { (above : List bare.Stmt) → AreHeld (texts self.now.names.items) above → result ≡ (is_lock (shown_stmt s.now) && holds_some (shown scope.now.program.now) above) }
    {
        is_lock(s) && self.has_some(scope)
    }
}

/// Whether each unlock of a body releases a mutex that is held, and none is held at its end. The
/// one error is want of memory.
pub fn is_balanced(alloc: Global, scope: &Scope, body: &[Stmt]) -> Result<bool, AllocError>
    ensures { IfOk result (λ b. b ≡ is_balanced (shown scope.now.program.now) [] (shown_body body.now)) }
{
    let mut held = Held::new(alloc);
    for s in body {
        if !held.allows(s) {
            return Ok(false);
        }
        held.pass(s)?;
    }
    Ok(!held.has_some(scope))
}

fn is_lock(s: &Stmt) -> bool
    ensures { result ≡ is_lock (shown_stmt s.now) }
{
    matches!(&s.act, Act::Lock { .. })
}

fn line(s: &Stmt) -> u32
    ensures { result ≡ line_of (stmt_of s.now) }
{
    s.line
}

/// The line of the first lock of a body that stands where another lock above isn't unlocked since,
/// and `None` exactly where there is none. The one error is want of memory.
pub fn nested_line(alloc: Global, scope: &Scope, body: &[Stmt]) -> Result<Option<u32>, AllocError>
    ensures { IfOk result (λ line. line ≡ nested_line (shown scope.now.program.now) [] (stmts_of body.now)) }
{
    let mut held = Held::new(alloc);
    for s in body {
        if held.nests(scope, s) {
            return Ok(Some(line(s)));
        }
        held.pass(s)?;
    }
    Ok(None)
}
