//! Laws of weights and moved weights.

ghost use Rattle.std.specs.Prelude.{◌≡◌, ℕ, Bool, ◌<◌, ◌≤◌, IsTrue, IsFalse};
ghost use Rattle.edges.specs.declared.Edge.{Edge as AnyEdge};
ghost use Rattle.edges.specs.Ops.{blocks};
ghost use Rattle.net_laws.specs.Net.{Net, IsNet, IsShaped, HasEdge};
ghost use Rattle.net_laws.specs.Siphons.{InSiphon};
ghost use Rattle.net_laws.specs.Candidates.{IsCandidate};
ghost use Rattle.net_laws.specs.Lines.{held_of, tokens_of};
ghost use Rattle.weight_laws.specs.Flow.{branches, tries, IsFlow};
ghost use Rattle.weight_laws.specs.Weights.{IsMarked, weight, IsMoved, IsEntry, MayRise, MayFall};

/// The moved weight rises only along edges that acquire or reacquire and along the outcomes of a
/// lock that is tried. It falls only along releases that are no wait's and along the outcomes of
/// a test or of a lock that is tried. Along every other edge it stays.
pub fn moved_weights_change_where_they_may()
    ensures rises { (n : Net) (R S : ℕ → Bool) (m : ℕ → ℕ) → IsMoved n R S m →
        (e : AnyEdge) → HasEdge n e → m e.from < m e.to → MayRise n e }
    ensures falls { (n : Net) (R S : ℕ → Bool) (m : ℕ → ℕ) →
        IsFlow n → IsMarked n R S → IsMoved n R S m →
        (e : AnyEdge) → HasEdge n e → m e.to < m e.from → MayFall n e }
    ensures stays { (n : Net) (R S : ℕ → Bool) (m : ℕ → ℕ) →
        IsFlow n → IsMarked n R S → IsMoved n R S m →
        (e : AnyEdge) → HasEdge n e → (MayRise n e → ⊥) → (MayFall n e → ⊥) → m e.from ≡ m e.to }
{}

/// The points of the least siphon of each set of resources can be told from others. Two moved
/// weights of a set are equal at each point.
pub fn weights_are_determined()
    ensures marks { (n : Net) (R : ℕ → Bool) → IsShaped n →
        ((r : ℕ) → IsTrue (R r) → r < n.resources) → (S : ℕ → Bool) × IsMarked n R S }
    ensures moved { (n : Net) (R S : ℕ → Bool) (m l : ℕ → ℕ) →
        IsMoved n R S m → IsMoved n R S l → (p : ℕ) → m p ≡ l p }
{}

/// No weight is below 0, since each point of a set's least siphon holds a token of the set.
pub fn points_of_least_siphons_hold_tokens()
    ensures { (n : Net) (R S : ℕ → Bool) → IsNet n → IsMarked n R S →
        (p : ℕ) → InSiphon n R p → 0 < held_of n R p }
{}

/// The entry weight of a point where a thread may be blocked is the moved weight behind its edge:
/// as many tokens are taken there as the edge raises the moved weight. Where nobody may be
/// blocked and no lock is tried, it is the moved weight itself, and nothing is taken. Behind the
/// only edge of a point, unless that is a release that is no wait's, it is the moved weight
/// there, and nothing is given.
pub fn entry_weights_are_of_locks()
    ensures blocking { (n : Net) (R S : ℕ → Bool) (m entry : ℕ → ℕ) →
        IsNet n → IsMarked n R S → IsMoved n R S m → IsEntry n m entry →
        (e : AnyEdge) (r : ℕ) → HasEdge n e → IsTrue (blocks e.op r) → entry e.from ≡ m e.to }
    ensures free { (n : Net) (R S : ℕ → Bool) (m entry : ℕ → ℕ) →
        IsMoved n R S m → IsEntry n m entry → (p : ℕ) → IsFalse (tries n p) →
        ((e : AnyEdge) (r : ℕ) → HasEdge n e → e.from ≡ p → IsFalse (blocks e.op r)) →
        entry p ≡ m p }
    ensures straight { (n : Net) (R S : ℕ → Bool) (m entry : ℕ → ℕ) →
        IsFlow n → IsMarked n R S → IsMoved n R S m → IsEntry n m entry →
        (e : AnyEdge) → HasEdge n e → IsFalse (branches n e.from) → (MayFall n e → ⊥) →
        entry e.from ≡ m e.to }
{}

/// No weight and no moved weight reaches the tokens of its set, so one token less is capacity
/// enough. A candidate has two tokens at least, so that capacity isn't 0. Where nothing is held,
/// the moved weight is 0.
pub fn capacities_suffice()
    ensures weights { (n : Net) (R S : ℕ → Bool) → IsFlow n → IsMarked n R S →
        ((r : ℕ) × IsTrue (R r)) → (p : ℕ) → p < n.points → weight n R S p < tokens_of n R }
    ensures moved { (n : Net) (R S : ℕ → Bool) (m : ℕ → ℕ) →
        IsFlow n → IsMarked n R S → IsMoved n R S m →
        ((r : ℕ) × IsTrue (R r)) → (p : ℕ) → p < n.points → m p < tokens_of n R }
    ensures two { (n : Net) (R : ℕ → Bool) → IsFlow n → IsCandidate n R → 2 ≤ tokens_of n R }
    ensures empty { (n : Net) (R S : ℕ → Bool) (m : ℕ → ℕ) → IsNet n → IsMoved n R S m →
        (p : ℕ) → ((r : ℕ) → n.held p r ≡ 0) → m p ≡ 0 }
{}
