// Which candidates are minimal: those whose least siphons contain none of a kept set.
ghost use Rattle.std.specs.Prelude.{◌≡◌, ℕ, ◌<◌, ◌≤◌, [], ◌∷◌, ◌++◌, length, IsTrue, ◌↔◌, MatchBool, vec_capacity, suc};
ghost use Rattle.net_laws.specs.Siphons.{LiesIn};
ghost use Rattle.net_laws.specs.Candidates.{IsCandidate, IsMinimal, members};
ghost use Rattle.gadara_net.specs.Flows.{flow_net};
ghost use Rattle.siphon_enum.specs.Rows.{IsSiphonOf, AreSiphonsOf, HaveSize, HoldsSingles, ContainsOne, place_count};
ghost use Rattle.siphon_enum.specs.Kept.{AreKept, AreMinimalBefore, AreMinimalUpTo, IsOneTooMany};
ghost use Rattle.siphon_enum.specs.Listed.{AreAllMinimal, AreFirstMinimal, HasMoreMinimal};

use candidates::Candidates;
use gadara_net::{Net, Work};
use place_sets::PlaceSet;

/// Whether each member of the one set is a member of the other.
fn is_part(one: u64, other: u64) -> bool
    ensures { IsTrue result ↔ ((r : ℕ) → IsTrue (members one r) → IsTrue (members other r)) }
{
    one & other == one
}

/// Whether the least siphon of the one set lies in that of the other. The rows hold them.
fn lies_in<S: PlaceSet>(net: &Net, one: u64, siphon: &S, other: u64, others: &S) -> bool
    requires size { S.bound siphon.now ≡ S.bound others.now }
    requires one { IsSiphonOf (flow_net net.now) one (S.places siphon.now) }
    requires other { IsSiphonOf (flow_net net.now) other (S.places others.now) }
    ensures { IsTrue result ↔ LiesIn (flow_net net.now) (members one) (members other) }
{
    net.keeps_flow();
    is_part(one, other) && siphon.subset(others)
}

/// Whether the least siphon of a kept set lies in that of this one. The rows hold those of the kept
/// sets, and behind them that of this one.
fn contains_kept<S: PlaceSet>(net: &Net, resources: u64, sets: &[u64], siphons: &[S]) -> bool
    requires rows { length sets.now < length siphons.now }
    requires sizes { HaveSize S.bound (place_count (flow_net net.now)) siphons.now }
    requires siphons { AreSiphonsOf S.places (flow_net net.now)
        (sets.now ++ resources ∷ []) siphons.now }
    ensures { IsTrue result ↔ ContainsOne (flow_net net.now) sets.now resources }
{
    let siphon = &siphons[sets.len()];
    for (k, kept) in sets.iter().enumerate() {
        if lies_in(net, *kept, &siphons[k], resources, siphon) {
            return true;
        }
    }
    false
}

/// Whether a candidate is minimal, where the minimal sets before it are kept. Leaves its least
/// siphon behind those of the kept sets.
fn is_minimal<S: PlaceSet>(
    net: &Net,
    resources: u64,
    union: &S,
    sets: &[u64],
    siphons: &mut [S],
    work: &mut Work,
) -> bool
    requires candidate { IsCandidate (flow_net net.now) (members resources) }
    requires before { AreMinimalBefore (flow_net net.now) resources sets.now }
    requires union { S.bound union.now ≡ place_count (flow_net net.now) }
    requires singles { HoldsSingles (flow_net net.now)
        (length net.now.tokens) (S.places union.now) }
    requires rows { length sets.now < length siphons.old }
    requires sizes { HaveSize S.bound (place_count (flow_net net.now)) siphons.old }
    requires siphons { AreSiphonsOf S.places (flow_net net.now) sets.now siphons.old }
    requires points { length net.now.points ≤ work.old }
    ensures sizes { HaveSize S.bound (place_count (flow_net net.now)) siphons.new }
    ensures siphons { AreSiphonsOf S.places (flow_net net.now)
        (sets.now ++ resources ∷ []) siphons.new }
    ensures points { work.new ≡ work.old }
    ensures minimal { IsTrue result ↔ IsMinimal (flow_net net.now) resources }
{
    net.keeps_flow();
    let count = sets.len();
    net.least_siphon_within(resources, union, &mut siphons[count], work);
    !contains_kept(net, resources, sets, siphons)
}

/// Puts a set at the end, where there is space for it.
fn push(sets: &mut Vec<u64>, resources: u64)
    requires { length sets.old.items < vec_capacity sets.old }
    ensures sets { sets.new.items ≡ sets.old.items ++ resources ∷ [] }
    ensures capacity { vec_capacity sets.old ≤ vec_capacity sets.new }
{
    if sets.push(resources).is_err() {
        unreachable!();
    }
}

/// Keeps the next candidate, if it is minimal. Whether it is within the limit.
fn keep<S: PlaceSet>(
    net: &Net,
    resources: u64,
    limit: u32,
    union: &S,
    sets: &mut Vec<u64>,
    siphons: &mut [S],
    work: &mut Work,
) -> bool
    requires candidate { IsCandidate (flow_net net.now) (members resources) }
    requires before { AreMinimalBefore (flow_net net.now) resources sets.old.items }
    requires union { S.bound union.now ≡ place_count (flow_net net.now) }
    requires singles { HoldsSingles (flow_net net.now)
        (length net.now.tokens) (S.places union.now) }
    requires capacity { limit ≤ vec_capacity sets.old }
    requires kept { AreKept S.bound S.places (flow_net net.now) limit sets.old.items siphons.old }
    requires points { length net.now.points ≤ work.old }
    ensures capacity { limit ≤ vec_capacity sets.new }
    ensures kept { AreKept S.bound S.places (flow_net net.now) limit sets.new.items siphons.new }
    ensures points { work.new ≡ work.old }
    ensures within { MatchBool result (AreMinimalUpTo (flow_net net.now) resources sets.new.items)
        (IsOneTooMany (flow_net net.now) limit resources sets.new.items) }
{
    if !is_minimal(net, resources, union, sets.as_slice(), siphons, work) {
        return true;
    }
    if sets.len() == limit as usize {
        return false;
    }
    push(sets, resources);
    true
}

/// Lists the minimal sets in order, up to the limit. Whether these are all.
pub fn list<S: PlaceSet>(
    net: &Net,
    candidates: &Candidates,
    limit: u32,
    union: &S,
    sets: &mut Vec<u64>,
    siphons: &mut [S],
    work: &mut Work,
) -> bool
    requires same { candidates.now ≡ net.now }
    requires none { sets.old.items ≡ [] }
    requires union { S.bound union.now ≡ place_count (flow_net net.now) }
    requires singles { HoldsSingles (flow_net net.now)
        (length net.now.tokens) (S.places union.now) }
    requires capacity { limit ≤ vec_capacity sets.old }
    requires rows { length siphons.old ≡ suc limit }
    requires sizes { HaveSize S.bound (place_count (flow_net net.now)) siphons.old }
    requires points { length net.now.points ≤ work.old }
    ensures few { length sets.new.items ≤ limit }
    ensures capacity { limit ≤ vec_capacity sets.new }
    ensures sizes { HaveSize S.bound (place_count (flow_net net.now)) siphons.new }
    ensures points { work.new ≡ work.old }
    ensures listed { MatchBool result (AreAllMinimal (flow_net net.now) sets.new.items)
        (AreFirstMinimal (flow_net net.now) limit sets.new.items ×
        HasMoreMinimal (flow_net net.now) limit) }
{
    let mut at = 0;
    while let Some(next) = candidates.next_after(at) {
        if !keep(net, next, limit, union, sets, siphons, work) {
            return false;
        }
        at = next;
    }
    true
}
