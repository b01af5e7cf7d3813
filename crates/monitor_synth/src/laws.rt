//! Laws of the weights that the calls give: functions that do nothing, whose contracts are the laws.

ghost use Rattle.std.specs.Prelude.{◌≡◌, ℕ, Bool, ◌<◌, ◌≤◌, IsTrue, IsFalse};
ghost use Rattle.edges.specs.declared.Edge.{Edge as AnyEdge};
ghost use Rattle.edges.specs.Ops.{blocks};
ghost use Rattle.net_laws.specs.Net.{HasEdge};
ghost use Rattle.net_laws.specs.Candidates.{IsCandidate};
ghost use Rattle.net_laws.specs.Lines.{tokens_of};
ghost use Rattle.gadara_net.specs.Flows.{flow_net};
ghost use Rattle.weight_laws.specs.Flow.{IsFlow, branches, tries};
ghost use Rattle.weight_laws.specs.Weights.{IsMarked, IsMovedFrom, IsMoved, IsEntry, MayRise, MayFall};
ghost use Rattle.monitor_synth.specs.Weighed.{AreWeights};

use gadara_net::Net;

/// Weights of a set that are moved are its moved weights.
pub fn moved_weights_are_of_their_set(net: &Net)
    ensures { let n = flow_net net.now in
        (R : ℕ → Bool) (w m : ℕ → ℕ) → AreWeights n R w → IsMovedFrom n w m →
        (S : ℕ → Bool) × IsMarked n R S × IsMoved n R S m }
{}

/// The moved weight rises only along edges that acquire or reacquire and along the outcomes of a
/// lock that is tried. It falls only along releases that are no wait's and along the outcomes of
/// a test or of a lock that is tried. Along every other edge it stays.
pub fn moved_weights_change_where_they_may(net: &Net)
    ensures rises { let n = flow_net net.now in
        (R : ℕ → Bool) (w m : ℕ → ℕ) → AreWeights n R w → IsMovedFrom n w m →
        (e : AnyEdge) → HasEdge n e → m e.from < m e.to → MayRise n e }
    ensures falls { let n = flow_net net.now in
        (R : ℕ → Bool) (w m : ℕ → ℕ) → IsFlow n → AreWeights n R w → IsMovedFrom n w m →
        (e : AnyEdge) → HasEdge n e → m e.to < m e.from → MayFall n e }
    ensures stays { let n = flow_net net.now in
        (R : ℕ → Bool) (w m : ℕ → ℕ) → IsFlow n → AreWeights n R w → IsMovedFrom n w m →
        (e : AnyEdge) → HasEdge n e → (MayRise n e → ⊥) → (MayFall n e → ⊥) →
        m e.from ≡ m e.to }
{
    weight_laws::moved::moved_weights_change_where_they_may();
}

/// No weight, no moved weight and no entry weight reaches the tokens of its set, so one token less
/// is capacity enough. A candidate has two tokens at least, so that capacity isn't 0. Where
/// nothing is held, the moved weight is 0.
pub fn capacities_suffice(net: &Net)
    ensures weights { let n = flow_net net.now in
        (R : ℕ → Bool) (w : ℕ → ℕ) → IsFlow n → AreWeights n R w → ((r : ℕ) × IsTrue (R r)) →
        (p : ℕ) → p < n.points → w p < tokens_of n R }
    ensures moved { let n = flow_net net.now in
        (R : ℕ → Bool) (w m : ℕ → ℕ) → IsFlow n → AreWeights n R w → IsMovedFrom n w m →
        ((r : ℕ) × IsTrue (R r)) → (p : ℕ) → p < n.points → m p < tokens_of n R }
    ensures entries { let n = flow_net net.now in
        (R : ℕ → Bool) (w m entry : ℕ → ℕ) → IsFlow n → AreWeights n R w →
        IsMovedFrom n w m → IsEntry n m entry → ((r : ℕ) × IsTrue (R r)) →
        (p : ℕ) → p < n.points → entry p < tokens_of n R }
    ensures two { let n = flow_net net.now in
        (R : ℕ → Bool) → IsFlow n → IsCandidate n R → 2 ≤ tokens_of n R }
    ensures empty { let n = flow_net net.now in
        (R : ℕ → Bool) (w m : ℕ → ℕ) → AreWeights n R w → IsMovedFrom n w m →
        (p : ℕ) → ((r : ℕ) → n.held p r ≡ 0) → m p ≡ 0 }
{
    net.keeps_flow();
    weight_laws::moved::capacities_suffice();
}

/// The entry weight of a point where a thread may be blocked is the moved weight behind its edge.
/// Where nobody may be blocked and no lock is tried, it is the moved weight itself. Behind the only
/// edge of a point, unless that is a release that is no wait's, it is the moved weight there.
pub fn entry_weights_are_of_locks(net: &Net)
    ensures blocking { let n = flow_net net.now in
        (R : ℕ → Bool) (w m entry : ℕ → ℕ) → AreWeights n R w → IsMovedFrom n w m →
        IsEntry n m entry → (e : AnyEdge) (r : ℕ) → HasEdge n e → IsTrue (blocks e.op r) →
        entry e.from ≡ m e.to }
    ensures free { let n = flow_net net.now in
        (R : ℕ → Bool) (w m entry : ℕ → ℕ) → AreWeights n R w → IsMovedFrom n w m →
        IsEntry n m entry → (p : ℕ) → IsFalse (tries n p) →
        ((e : AnyEdge) (r : ℕ) → HasEdge n e → e.from ≡ p → IsFalse (blocks e.op r)) →
        entry p ≡ m p }
    ensures straight { let n = flow_net net.now in
        (R : ℕ → Bool) (w m entry : ℕ → ℕ) → IsFlow n → AreWeights n R w → IsMovedFrom n w m →
        IsEntry n m entry → (e : AnyEdge) → HasEdge n e → IsFalse (branches n e.from) →
        (MayFall n e → ⊥) → entry e.from ≡ m e.to }
{
    net.keeps_flow();
    weight_laws::moved::entry_weights_are_of_locks();
}
