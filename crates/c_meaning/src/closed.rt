// The largest set of blocked threads that wait for no other thread.
ghost use Rattle.std.specs.Prelude.{◌≡◌, ◌≢◌, ℕ, ◌<◌, ◌≤◌, Bool, true, false, IsTrue, IfSome};
ghost use Rattle.std.specs.declared.option.Option as option;
ghost use Rattle.c_meaning.specs.Closed.{has, AreFew, Stays, IsClosed, LiesIn, HoldsEach};

/// What threads are blocked for, and who holds a resource. Threads are below 32.
pub trait Blocking {
    /// The resource that a thread is blocked for.
    ghost blocked: { Self → ℕ → option.Option ℕ };

    /// Whether a thread holds a token of a resource.
    ghost holder: { Self → ℕ → ℕ → Bool };

    /// The resource that a thread is blocked for.
    fn blocked_for(&self, t: u32) -> Option<u32>
        requires { t < 32 }
        ensures is { result ≡ blocked self.now t }
        ensures few { IfSome result (λ r. AreFew (holder self.now) r) };

    /// Whether a thread holds a token of a resource.
    fn is_holder(&self, u: u32, r: u32) -> bool
        requires { u < 32 }
        ensures { result ≡ holder self.now u r };
}

/// Whether a thread is in a set.
fn has(set: u32, t: u32) -> bool
    requires { t < 32 }
    ensures { result ≡ has set t }
{
    (set >> t) & 1 == 1
}

/// A set without a thread.
fn without(set: u32, t: u32) -> u32
    requires { t < 32 }
    ensures same { has result t ≡ false }
    ensures other { (u : ℕ) → u < 32 → u ≢ t → has result u ≡ has set u }
    ensures less { result ≤ set }
{
    set & !(1 << t)
}

/// Whether all holders of a resource are in a set.
fn keeps_inside<B: Blocking>(threads: &B, set: u32, r: u32) -> bool
    requires { AreFew (B.holder threads.now) r }
    ensures yes { result ≡ true → (u : ℕ) → IsTrue (B.holder threads.now u r) → IsTrue (has set u) }
    ensures no { result ≡ false → (u : ℕ) × (B.holder threads.now u r ≡ true) × (has set u ≡ false) }
{
    for u in 0..32 {
        if threads.is_holder(u, r) && !has(set, u) {
            return false;
        }
    }
    true
}

/// Whether a thread is blocked for a resource whose holders are all in a set.
fn stays<B: Blocking>(threads: &B, set: u32, t: u32) -> bool
    requires { t < 32 }
    ensures yes { result ≡ true → Stays (B.blocked threads.now) (B.holder threads.now) (has set) t }
    ensures no { result ≡ false → (inside : ℕ → Bool) → LiesIn inside set → Stays (B.blocked threads.now) (B.holder threads.now) inside t → ⊥ }
{
    match threads.blocked_for(t) {
        Some(r) => keeps_inside(threads, set, r),
        None => false,
    }
}

/// What is left of a set: without a thread, where it doesn't stay in the set.
fn keep<B: Blocking>(threads: &B, set: u32, left: u32, t: u32) -> u32
    requires { t < 32 }
    ensures less { result ≤ left }
    ensures same { result ≡ set → IsTrue (has set t) → Stays (B.blocked threads.now) (B.holder threads.now) (has set) t }
    ensures each { HoldsEach (B.blocked threads.now) (B.holder threads.now) set → HoldsEach (B.blocked threads.now) (B.holder threads.now) left
        → HoldsEach (B.blocked threads.now) (B.holder threads.now) result }
{
    if !has(set, t) {
        return left;
    }
    if stays(threads, set, t) {
        return left;
    }
    without(left, t)
}

/// A set without the threads that don't stay in it.
fn sweep<B: Blocking>(threads: &B, set: u32) -> u32
    ensures less { result ≤ set }
    ensures same { result ≡ set → (t : ℕ) → t < 32 → IsTrue (has set t) → Stays (B.blocked threads.now) (B.holder threads.now) (has set) t }
    ensures each { HoldsEach (B.blocked threads.now) (B.holder threads.now) set → HoldsEach (B.blocked threads.now) (B.holder threads.now) result }
{
    let mut left = set;
    for t in 0..32 {
        left = keep(threads, set, left, t);
    }
    left
}

/// The largest closed set.
pub fn largest<B: Blocking>(threads: &B) -> u32
    ensures closed { IsClosed (B.blocked threads.now) (B.holder threads.now) (has result) }
    ensures each { HoldsEach (B.blocked threads.now) (B.holder threads.now) result }
{
    let mut set = u32::MAX;
    let mut next = sweep(threads, set);
    while next != set {
        set = next;
        next = sweep(threads, set);
    }
    set
}
