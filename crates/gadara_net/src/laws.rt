//! Laws of the net that a `Net` shows: functions that do nothing, whose contracts are the laws.

ghost use Rattle.std.specs.Prelude.{◌≡◌, ℕ, Bool, List, ◌^◌, ◌<◌, ◌↔◌, IsTrue, slice_get, Some};
ghost use Rattle.certificate.specs.declared.Line.{Line as AnyLine};
ghost use Rattle.certificate.specs.declared.LineKind.{LineKind as AnyKind};
ghost use Rattle.edges.specs.declared.Edge.{Edge as AnyEdge};
ghost use Rattle.net_laws.specs.Net.{HasEdge};
ghost use Rattle.net_laws.specs.Siphons.{InSiphon, HasPlace, LiesIn, IsSiphon, TakesNone, TakesOne, GivesOne, only};
ghost use Rattle.net_laws.specs.Candidates.{IsCandidate, IsMinimal, members};
ghost use Rattle.net_laws.specs.Lines.{LineHolds, Holds, IsCovered, HasLines, IsValid};
ghost use Rattle.net_laws.specs.Markings.{total_held, IsMarking, IsStuck, IsWanted};
ghost use Rattle.gadara_net.specs.Flows.{flow_net};

use crate::net::Net;

/// The least siphon of a set of resources is a siphon, and its points lie in every siphon that has
/// these resources (for siphons see Reisig, Understanding Petri Nets).
pub fn least_siphons_are_least(net: &Net)
    ensures siphon { let n = flow_net net.now in
        (R : ℕ → Bool) → IsSiphon n (InSiphon n R) (λ r. IsTrue (R r)) }
    ensures least { let n = flow_net net.now in
        (R P : ℕ → Bool) → IsSiphon n (λ p. IsTrue (P p)) (λ r. IsTrue (R r)) →
        (p : ℕ) → InSiphon n R p → IsTrue (P p) }
{
    net_laws::siphons::least_siphons_are_least();
}

/// A point of the least siphon of a set of resources is in that of a single one of them, and so is
/// a place: the union of those of the single resources is a bound for `least_siphon_within`.
pub fn single_siphons_bound_least_siphons(net: &Net)
    ensures union { let n = flow_net net.now in
        (R : ℕ → Bool) (p : ℕ) → InSiphon n R p → (r : ℕ) × IsTrue (R r) × InSiphon n (only r) p }
    ensures places { let n = flow_net net.now in
        (R : ℕ → Bool) (place : ℕ) → HasPlace n R place →
        (r : ℕ) × IsTrue (R r) × HasPlace n (only r) place }
    ensures masks { (r : ℕ) → members (2 ^ r) ≡ only r }
{
    net_laws::siphons::single_siphons_bound_least_siphons();
}

/// The least siphon of a set lies in that of another one exactly where its places do.
pub fn least_siphons_are_sets_of_places(net: &Net)
    ensures { let n = flow_net net.now in
        (Q R : ℕ → Bool) → LiesIn n Q R ↔ ((place : ℕ) → HasPlace n Q place → HasPlace n R place) }
{
    net.keeps_flow();
    net_laws::siphons::least_siphons_are_sets_of_places();
}

/// A point of a least siphon holds a member. Where each edge from a point takes a member, the point
/// isn't in.
pub fn points_of_least_siphons_hold_members(net: &Net)
    ensures holds { let n = flow_net net.now in
        (R : ℕ → Bool) (p : ℕ) → InSiphon n R p → (r : ℕ) × IsTrue (R r) × (0 < n.held p r) }
    ensures takers { let n = flow_net net.now in
        (R : ℕ → Bool) (p : ℕ) → ((e : AnyEdge) → HasEdge n e → e.from ≡ p → TakesOne R e) →
        InSiphon n R p → ⊥ }
{
    net.keeps_flow();
    net_laws::siphons::points_of_least_siphons_hold_members();
}

/// How membership in a least siphon goes along an edge: a point from which a member is given back
/// is in, and so is one from which an edge that takes no member leads to one that is in. Where an
/// edge is the only one of its point and gives back no member, the point that it leads to is in
/// with the one that it leaves.
pub fn membership_goes_along_edges(net: &Net)
    ensures given { let n = flow_net net.now in
        (R : ℕ → Bool) (e : AnyEdge) → HasEdge n e → GivesOne R e → InSiphon n R e.from }
    ensures back { let n = flow_net net.now in
        (R : ℕ → Bool) (e : AnyEdge) → HasEdge n e → TakesNone R e → InSiphon n R e.to →
        InSiphon n R e.from }
    ensures onward { let n = flow_net net.now in
        (R : ℕ → Bool) (e : AnyEdge) → ((f : AnyEdge) → HasEdge n f → f.from ≡ e.from → f ≡ e) →
        (GivesOne R e → ⊥) → InSiphon n R e.from → InSiphon n R e.to }
{
    net_laws::siphons::membership_goes_along_edges();
}

/// A stuck set of a marking empties the least siphon of the resources that it is blocked for: no
/// thread stands at its points, and no token of its resources is free. Some candidate among these
/// resources has its least siphon inside (for circular waits and emptied siphons see Barkaoui and
/// Abdallah, A Deadlock Prevention Method for a Class of FMS).
pub fn stuck_sets_empty_siphons(net: &Net)
    ensures resources { let n = flow_net net.now in
        (m : List ℕ) (T : ℕ → Bool) → IsMarking n m → (R : ℕ → Bool) × IsWanted n m T R }
    ensures no_thread { let n = flow_net net.now in
        (m : List ℕ) (T R : ℕ → Bool) → IsMarking n m → IsStuck n m T → IsWanted n m T R →
        (t p : ℕ) → slice_get m t ≡ Some p → InSiphon n R p → ⊥ }
    ensures no_token { let n = flow_net net.now in
        (m : List ℕ) (T R : ℕ → Bool) → IsMarking n m → IsStuck n m T → IsWanted n m T R →
        (r : ℕ) → IsTrue (R r) → total_held n m r ≡ n.tokens r }
    ensures candidate { let n = flow_net net.now in
        (m : List ℕ) (T R : ℕ → Bool) → IsMarking n m → IsStuck n m T → IsWanted n m T R →
        (C : ℕ → Bool) × IsCandidate n C × LiesIn n C R }
{
    net.keeps_flow();
    net_laws::stuck_sets::stuck_sets_empty_siphons();
}

/// Where a set of threads is stuck, no line that holds, simple or general, is for a set whose
/// least siphon lies in that of the resources that the threads are blocked for.
pub fn stuck_sets_leave_no_line(net: &Net)
    ensures { let n = flow_net net.now in
        (m : List ℕ) (T R Q : ℕ → Bool) (kind : AnyKind) → IsMarking n m → IsStuck n m T →
        IsWanted n m T R → LineHolds n Q kind → LiesIn n Q R → ⊥ }
{
    net.keeps_flow();
    net_laws::lines::stuck_sets_leave_no_line();
}

/// Where each minimal set has a line, each candidate has one for a set whose least siphon lies in
/// its own: so it is where the net is covered, and such lines of minimal sets are a valid
/// certificate.
pub fn minimal_sets_give_lines(net: &Net)
    ensures covered { let n = flow_net net.now in IsCovered n → HasLines n }
    ensures valid { let n = flow_net net.now in
        (lines : List AnyLine) →
        ((k : ℕ) (l : AnyLine) → slice_get lines k ≡ Some l → Holds n l) →
        ((C : ℕ) → IsMinimal n C →
        (k : ℕ) × (l : AnyLine) × (slice_get lines k ≡ Some l) × (l.resources ≡ C)) →
        IsValid n lines }
{
    net.keeps_flow();
    net_laws::lines::minimal_sets_give_lines();
}

/// No marking has a stuck set where each candidate has a line for a set whose least siphon lies in
/// its own; so it is where the net is covered, and where a certificate for it is valid.
pub fn nets_with_lines_have_no_stuck_set(net: &Net)
    ensures lines { let n = flow_net net.now in
        (m : List ℕ) (T : ℕ → Bool) → HasLines n → IsMarking n m → IsStuck n m T → ⊥ }
    ensures covered { let n = flow_net net.now in
        (m : List ℕ) (T : ℕ → Bool) → IsCovered n → IsMarking n m → IsStuck n m T → ⊥ }
    ensures valid { let n = flow_net net.now in
        (m : List ℕ) (T : ℕ → Bool) (lines : List AnyLine) → IsValid n lines → IsMarking n m →
        IsStuck n m T → ⊥ }
{
    net.keeps_flow();
    net_laws::lines::nets_with_lines_have_no_stuck_set();
}
