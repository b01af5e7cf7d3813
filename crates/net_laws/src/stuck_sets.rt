//! Laws of stuck sets.

ghost use Rattle.std.specs.Prelude.{◌≡◌, ℕ, Bool, List, IsTrue, slice_get, Some};
ghost use Rattle.net_laws.specs.Net.{Net, IsNet};
ghost use Rattle.net_laws.specs.Siphons.{InSiphon, LiesIn};
ghost use Rattle.net_laws.specs.Candidates.{IsCandidate};
ghost use Rattle.net_laws.specs.Markings.{total_held, IsMarking, IsStuck, IsWanted};

/// A stuck set of a marking empties the least siphon of the resources that it is blocked for: no
/// thread stands at its points, and no token of its resources is free. Some candidate among these
/// resources has its least siphon inside.
///
/// That a circular wait empties a siphon is known of nets of resources (Ezpeleta, Colom and
/// Martínez; Barkaoui and Abdallah, A Deadlock Prevention Method for a Class of FMS). The
/// candidate is a component of hold-and-wait among these resources that no arc leaves.
pub fn stuck_sets_empty_siphons()
    ensures resources { (n : Net) (m : List ℕ) (T : ℕ → Bool) → IsMarking n m →
        (R : ℕ → Bool) × IsWanted n m T R }
    ensures no_thread { (n : Net) (m : List ℕ) (T R : ℕ → Bool) →
        IsNet n → IsMarking n m → IsStuck n m T → IsWanted n m T R →
        (t p : ℕ) → slice_get m t ≡ Some p → InSiphon n R p → ⊥ }
    ensures no_token { (n : Net) (m : List ℕ) (T R : ℕ → Bool) →
        IsNet n → IsMarking n m → IsStuck n m T → IsWanted n m T R →
        (r : ℕ) → IsTrue (R r) → total_held n m r ≡ n.tokens r }
    ensures candidate { (n : Net) (m : List ℕ) (T R : ℕ → Bool) →
        IsNet n → IsMarking n m → IsStuck n m T → IsWanted n m T R →
        (C : ℕ → Bool) × IsCandidate n C × LiesIn n C R }
{}
