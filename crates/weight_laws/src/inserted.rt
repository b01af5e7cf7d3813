//! Laws of a net with a monitor more.

ghost use Rattle.std.specs.Prelude.{◌≡◌, ℕ, Bool, ◌+◌, ◌-◌, ◌<◌, ◌≤◌, ◌↔◌, IsTrue};
ghost use Rattle.edges.specs.declared.Edge.{Edge as AnyEdge};
ghost use Rattle.edges.specs.Ops.{takes, gives};
ghost use Rattle.certificate.specs.declared.LineKind.{LineKind as AnyKind};
ghost use Rattle.certificate.specs.declared.LineKind.TheVariants.{Monitor};
ghost use Rattle.net_laws.specs.Net.{Net, IsNet, IsFitting, HasEdge, one};
ghost use Rattle.net_laws.specs.Siphons.{InSiphon};
ghost use Rattle.net_laws.specs.Candidates.{IsCandidate};
ghost use Rattle.net_laws.specs.Lines.{tokens_of, LineHolds};
ghost use Rattle.weight_laws.specs.Flow.{IsFlow};
ghost use Rattle.weight_laws.specs.Weights.{IsMarked, IsMoved, IsEntry};
ghost use Rattle.weight_laws.specs.Inserted.{Origins, IsInserted, counted, IsCounted, IsHeld, Begins, IsOld, IsOldKind};

/// What is held in the result. The counts by origins, takes and gives are accounts of its edges,
/// so they are the held counts where these begin with nothing.
pub fn monitors_are_held_as_weights_are_moved()
    ensures accounts { (n : Net) (m entry : ℕ → ℕ) (capacity : ℕ) (o : Origins) (new : Net) →
        IsNet n → IsEntry n m entry → IsInserted n m entry capacity o new →
        (e : AnyEdge) (r : ℕ) → HasEdge new e →
        counted n m o e.to r + one (gives e.op r) ≡ counted n m o e.from r + one (takes e.op r) }
    ensures counts { (n : Net) (R S : ℕ → Bool) (m entry : ℕ → ℕ) (capacity : ℕ) (o : Origins)
        (new : Net) (first : ℕ → Bool) →
        IsNet n → IsMoved n R S m → IsEntry n m entry → IsInserted n m entry capacity o new →
        Begins n o first → IsHeld new first → IsCounted n m o new }
{}

/// A point of the result is in the least siphon of a set of old resources exactly where its
/// origin is, and a line of old resources holds in the result exactly where it held before.
pub fn monitors_keep_siphons_and_lines()
    ensures siphons { (n : Net) (m entry : ℕ → ℕ) (capacity : ℕ) (o : Origins) (new : Net) →
        IsInserted n m entry capacity o new → (Q : ℕ → Bool) → IsOld n Q →
        (p : ℕ) → p < new.points → InSiphon new Q p ↔ InSiphon n Q (o.origin p) }
    ensures lines { (n : Net) (m entry : ℕ → ℕ) (capacity : ℕ) (o : Origins) (new : Net) →
        IsInserted n m entry capacity o new → IsCounted n m o new →
        (Q : ℕ → Bool) (kind : AnyKind) → IsOld n Q → IsOldKind n kind →
        LineHolds new Q kind ↔ LineHolds n Q kind }
{}

/// The new monitor is a line for its set, and no point holds more of it than its capacity, which
/// is one less than the tokens of the set; so no point holds more of a resource than its tokens.
pub fn monitors_bound_their_sets()
    ensures line { (n : Net) (R S : ℕ → Bool) (m entry : ℕ → ℕ) (o : Origins) (new : Net) →
        IsFlow n → IsMarked n R S → IsMoved n R S m → IsCandidate n R →
        IsInserted n m entry (tokens_of n R - 1) o new → IsCounted n m o new →
        LineHolds new R (Monitor n.resources) }
    ensures capacity { (n : Net) (R S : ℕ → Bool) (m entry : ℕ → ℕ) (o : Origins) (new : Net) →
        IsFlow n → IsMarked n R S → IsMoved n R S m → IsEntry n m entry → IsCandidate n R →
        IsInserted n m entry (tokens_of n R - 1) o new →
        (p : ℕ) → p < new.points → counted n m o p n.resources ≤ tokens_of n R - 1 }
    ensures fitting { (n : Net) (R S : ℕ → Bool) (m entry : ℕ → ℕ) (o : Origins) (new : Net) →
        IsFlow n → IsMarked n R S → IsMoved n R S m → IsEntry n m entry → IsCandidate n R →
        IsInserted n m entry (tokens_of n R - 1) o new → IsCounted n m o new → IsFitting new }
{}
