//! Laws of candidates: functions that do nothing, whose contracts are the laws.

ghost use Rattle.std.specs.Prelude.{◌≡◌, ℕ, Bool, List, ◌+◌, ◌<◌, ◌^◌, ◌⊎◌, ◌↔◌, IsTrue, slice_get, Some, count_ones};
ghost use Rattle.net_laws.specs.Siphons.{HasPlace, LiesIn};
ghost use Rattle.net_laws.specs.Candidates.{IsCandidate, InComponent, members};
ghost use Rattle.gadara_net.specs.Flows.{flow_net};
ghost use Rattle.candidates.specs.Order.{IsBefore};
ghost use Rattle.candidates.specs.Listed.{AreFound};

use gadara_net::Net;

/// A candidate lies in one strong component: in that of each of its members.
pub fn candidates_lie_in_components(net: &Net)
    ensures { let n = flow_net net.now in
        (C : ℕ → Bool) (r s : ℕ) → IsCandidate n C → IsTrue (C r) → IsTrue (C s) →
        InComponent n r s }
{
    let _ = net;
}

/// A search that begins with the empty set, and goes on behind each set that it has found until it
/// finds none, finds each candidate once, in order.
pub fn candidates_come_once(net: &Net)
    ensures each { let n = flow_net net.now in
        (found : List ℕ) (C : ℕ) → AreFound n 0 found → C < 2 ^ 64 → IsCandidate n (members C) →
        (k : ℕ) × (slice_get found k ≡ Some C) }
    ensures only { let n = flow_net net.now in
        (found : List ℕ) (k C : ℕ) → AreFound n 0 found → slice_get found k ≡ Some C →
        IsCandidate n (members C) }
    ensures ordered { let n = flow_net net.now in
        (found : List ℕ) (j k B C : ℕ) → AreFound n 0 found → j < k → slice_get found j ≡ Some B →
        slice_get found k ≡ Some C → IsBefore B C }
{
    let _ = net;
}

/// A set of resources is told by its least siphon: the resources of that are the set. So a set
/// whose least siphon lies in that of another one is that one, or has fewer members.
pub fn least_siphons_tell_their_sets(net: &Net)
    ensures resources { let n = flow_net net.now in
        (R : ℕ → Bool) (r : ℕ) → HasPlace n R (n.points + r) ↔ IsTrue (R r) }
    ensures fewer { let n = flow_net net.now in
        (Q C : ℕ) → Q < 2 ^ 64 → C < 2 ^ 64 → LiesIn n (members Q) (members C) →
        (Q ≡ C) ⊎ (count_ones Q < count_ones C) }
{
    let _ = net;
}
