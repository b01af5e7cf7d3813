//! Laws of least siphons.

ghost use Rattle.std.specs.Prelude.{◌≡◌, ℕ, Bool, ◌<◌, ◌^◌, ◌↔◌, IsTrue};
ghost use Rattle.edges.specs.declared.Edge.{Edge as AnyEdge};
ghost use Rattle.net_laws.specs.Net.{Net, HasEdge, IsNet, IsShaped};
ghost use Rattle.net_laws.specs.Siphons.{IsSiphon, InSiphon, TakesNone, TakesOne, GivesOne, HasPlace, LiesIn, only};
ghost use Rattle.net_laws.specs.Candidates.{members};

/// The least siphon of a set of resources is a siphon, and lies in each siphon with these
/// resources.
///
/// A siphon is a set of places such that each transition that puts a token into the set takes one
/// from it, so that the set stays empty once it is (Reisig, Petri Nets: An Introduction;
/// Ezpeleta, Colom and Martínez, A Petri Net Based Deadlock Prevention Policy for Flexible
/// Manufacturing Systems).
pub fn least_siphons_are_least()
    ensures siphon { (n : Net) (R : ℕ → Bool) →
        IsSiphon n (InSiphon n R) (λ r. IsTrue (R r)) }
    ensures least { (n : Net) (R P : ℕ → Bool) →
        IsSiphon n (λ p. IsTrue (P p)) (λ r. IsTrue (R r)) →
        (p : ℕ) → InSiphon n R p → IsTrue (P p) }
{}

/// Each point of a set's least siphon is in the least siphon of one of its members; and the set
/// of resource `r` alone is that of the mask `1 << r`.
pub fn single_siphons_bound_least_siphons()
    ensures union { (n : Net) (R : ℕ → Bool) (p : ℕ) → InSiphon n R p →
        (r : ℕ) × IsTrue (R r) × InSiphon n (only r) p }
    ensures masks { (r : ℕ) → members (2 ^ r) ≡ only r }
{}

/// Who is in a least siphon along an edge: the point before an edge that gives a member; the
/// point before an edge that takes no member and leads into it; and the point behind the one edge
/// of a point in it that gives no member.
pub fn membership_goes_along_edges()
    ensures given { (n : Net) (R : ℕ → Bool) (e : AnyEdge) → HasEdge n e → GivesOne R e →
        InSiphon n R e.from }
    ensures back { (n : Net) (R : ℕ → Bool) (e : AnyEdge) → HasEdge n e → TakesNone R e →
        InSiphon n R e.to → InSiphon n R e.from }
    ensures onward { (n : Net) (R : ℕ → Bool) (e : AnyEdge) →
        ((f : AnyEdge) → HasEdge n f → f.from ≡ e.from → f ≡ e) → (GivesOne R e → ⊥) →
        InSiphon n R e.from → InSiphon n R e.to }
{}

/// What is held at the points of a least siphon: at each of them a member; and a point each of
/// whose edges takes a member isn't one of them.
pub fn points_of_least_siphons_hold_members()
    ensures holds { (n : Net) (R : ℕ → Bool) (p : ℕ) → IsNet n → InSiphon n R p →
        (r : ℕ) × IsTrue (R r) × (0 < n.held p r) }
    ensures takers { (n : Net) (R : ℕ → Bool) (p : ℕ) →
        ((e : AnyEdge) → HasEdge n e → e.from ≡ p → TakesOne R e) → InSiphon n R p → ⊥ }
{}

/// One least siphon lies in another exactly where its set of places is a part of the other's.
pub fn least_siphons_are_sets_of_places()
    ensures { (n : Net) (Q R : ℕ → Bool) → IsShaped n →
        LiesIn n Q R ↔ ((place : ℕ) → HasPlace n Q place → HasPlace n R place) }
{}
