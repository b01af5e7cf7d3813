//! Laws of lines: where they hold, no set of threads is stuck.
//!
//! A line bounds what threads hold as a place invariant does (Moody and Antsaklis, Supervisory
//! Control of Discrete Event Systems Using Petri Nets). Where each minimal siphon that could be
//! emptied is bounded, none is emptied.

ghost use Rattle.std.specs.Prelude.{◌≡◌, ℕ, Bool, List, ◌<◌, ◌≤◌, ◌^◌, IsTrue, slice_get, Some};
ghost use Rattle.certificate.specs.declared.Line.{Line as AnyLine};
ghost use Rattle.certificate.specs.declared.LineKind.{LineKind as AnyKind};
ghost use Rattle.net_laws.specs.Net.{Net, IsNet, IsShaped};
ghost use Rattle.net_laws.specs.Siphons.{InSiphon, LiesIn};
ghost use Rattle.net_laws.specs.Candidates.{IsCandidate, members, IsMinimal};
ghost use Rattle.net_laws.specs.Lines.{LineHolds, Holds, IsCovered, HasLines, IsValid};
ghost use Rattle.net_laws.specs.Markings.{total_held, IsMarking, IsStuck, IsWanted};

/// Where a line for a set holds, simple or general, no marking empties the set's least siphon.
pub fn lines_keep_siphons_from_emptying()
    ensures { (n : Net) (m : List ℕ) (R : ℕ → Bool) (kind : AnyKind) →
        IsNet n → IsMarking n m → LineHolds n R kind →
        ((t p : ℕ) → slice_get m t ≡ Some p → InSiphon n R p → ⊥) →
        ((r : ℕ) → IsTrue (R r) → total_held n m r ≡ n.tokens r) → ⊥ }
{}

/// Where a set of threads is stuck, no line that holds, simple or general, is for a set whose
/// least siphon lies in that of the resources that the threads are blocked for.
pub fn stuck_sets_leave_no_line()
    ensures { (n : Net) (m : List ℕ) (T R Q : ℕ → Bool) (kind : AnyKind) →
        IsNet n → IsMarking n m → IsStuck n m T → IsWanted n m T R →
        LineHolds n Q kind → LiesIn n Q R → ⊥ }
{}

/// Each candidate has a minimal set whose least siphon lies in its own.
pub fn candidates_have_minimal_sets()
    ensures { (n : Net) (C : ℕ) → IsShaped n → C < 2 ^ 64 → IsCandidate n (members C) →
        (Q : ℕ) × IsMinimal n Q × LiesIn n (members Q) (members C) }
{}

/// Where each minimal set has a line, each candidate has one for a set whose least siphon lies in
/// its own.
pub fn minimal_sets_give_lines()
    ensures covered { (n : Net) → IsShaped n → IsCovered n → HasLines n }
    ensures valid { (n : Net) (lines : List AnyLine) → IsShaped n →
        ((k : ℕ) (l : AnyLine) → slice_get lines k ≡ Some l → Holds n l) →
        ((C : ℕ) → IsMinimal n C →
        (k : ℕ) × (l : AnyLine) × (slice_get lines k ≡ Some l) × (l.resources ≡ C)) →
        IsValid n lines }
{}

/// No marking has a stuck set where each candidate has a line for a set whose least siphon lies
/// in its own; so it is where the net is covered, and where a certificate for it is valid.
pub fn nets_with_lines_have_no_stuck_set()
    ensures lines { (n : Net) (m : List ℕ) (T : ℕ → Bool) →
        IsNet n → n.resources ≤ 64 → HasLines n → IsMarking n m → IsStuck n m T → ⊥ }
    ensures covered { (n : Net) (m : List ℕ) (T : ℕ → Bool) →
        IsNet n → IsShaped n → IsCovered n → IsMarking n m → IsStuck n m T → ⊥ }
    ensures valid { (n : Net) (m : List ℕ) (T : ℕ → Bool) (lines : List AnyLine) →
        IsNet n → n.resources ≤ 64 → IsValid n lines → IsMarking n m → IsStuck n m T → ⊥ }
{}
