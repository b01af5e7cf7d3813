// The largest stuck set of a state.
ghost use Rattle.std.specs.Prelude.{◌≡◌, ◌≢◌, ◌<◌, ℕ, Bool, true, IsTrue};
ghost use Rattle.c_meaning.specs.Shown.{shown};
ghost use Rattle.c_meaning.specs.Closed.{has};
ghost use Rattle.c_meaning.specs.Stuck.{is_holder, IsStuck};
ghost use Rattle.c_steps.specs.Model.{state_of};
ghost use Rattle.c_steps.specs.Kept.{IsStateOf};
ghost use Rattle.state_parts.specs.Accepted.{Accepted};
ghost use Rattle.c_steps.specs.Blocks.{at, blocked_in, holds_in, IsEntry};

use crate::state::State;
use c_meaning::{Blocking, largest, stuck_sets_are_closed};
use c_tree::Program;

/// For each thread that is blocked, the holders of what it is blocked for, as the bits of a number.
#[derive(Drop)]
struct Blocks {
    /// The holders, by the threads that are blocked.
    holders: [Option<u32>; 32],
}

impl Blocking for Blocks {
    ghost blocked = { λ blocks. blocked_in blocks.holders };

    ghost holder = { λ blocks. holds_in blocks.holders };

    fn blocked_for(&self, t: u32) -> Option<u32> {
        match self.holders[t as usize] {
            Some(_) => Some(t),
            None => None,
        }
    }

    fn is_holder(&self, u: u32, r: u32) -> bool {
        match self.holders.get(r as usize).copied() {
            Some(Some(set)) => (set >> u) & 1 == 1,
            Some(None) => false,
            None => false,
        }
    }
}

/// A set with a thread.
fn with(set: u32, u: u32) -> u32
    requires { u < 32 }
    ensures same { has result u ≡ true }
    ensures other { (v : ℕ) → v < 32 → v ≢ u → has result v ≡ has set v }
{
    set | (1 << u)
}

impl State {
    /// The threads that hold a token of a resource.
    fn holders_of(&self, p: &Program, r: u32) -> u32
        requires { IsStateOf p.now self.now }
        ensures { (u : ℕ) → u < 32 → has result u ≡ is_holder (shown p.now) (state_of p.now self.now) u r }
    {
        let mut set = 0;
        for u in 0..32 {
            if self.is_holder(p, u, r) {
                set = with(set, u);
            }
        }
        set
    }

    /// The threads that hold what a thread is blocked for, where it is blocked.
    fn entry(&self, p: &Program, t: u32) -> Option<u32>
        requires accepted { Accepted p.now }
        requires state { IsStateOf p.now self.now }
        ensures { IsEntry (shown p.now) (state_of p.now self.now) t result }
    {
        let r = self.blocked_on(p, t)?;
        Some(self.holders_of(p, r))
    }

    /// Who is blocked, and who holds what each is blocked for.
    fn blocking(&self, p: &Program) -> Blocks
        requires accepted { Accepted p.now }
        requires state { IsStateOf p.now self.now }
        ensures { (t : ℕ) → t < 32 → IsEntry (shown p.now) (state_of p.now self.now) t (at result.holders t) }
    {
        let mut holders = [None; 32];
        for t in 0..32 {
            holders[t as usize] = self.entry(p, t);
        }
        Blocks { holders }
    }

    /// The threads of the largest stuck set, as the bits of a number: thread `t` is the bit of value 2 to the power of
    /// `t`. It is 0 exactly where no set is stuck, and each thread of any stuck set is in it.
    ///
    /// A set of threads is stuck where it has a thread, each of its threads is blocked for a resource, and all tokens of
    /// that resource are held inside the set. It takes no memory.
    pub fn largest_stuck(&self, p: &Program) -> u32
        requires accepted { Accepted p.now }
        requires state { IsStateOf p.now self.now }
        ensures none { result ≡ 0 → (threads : ℕ → Bool) → IsStuck (shown p.now) (state_of p.now self.now) threads → ⊥ }
        ensures stuck { result ≢ 0 → IsStuck (shown p.now) (state_of p.now self.now) (has result) }
        ensures each { (threads : ℕ → Bool) → IsStuck (shown p.now) (state_of p.now self.now) threads → (t : ℕ) → IsTrue (threads t) → IsTrue (has result t) }
    {
        stuck_sets_are_closed();
        largest(&self.blocking(p))
    }
}
