// Which candidates are covered by lines.
ghost use Rattle.std.specs.Prelude.{◌≡◌, ℕ, ◌+◌, ◌<◌, ◌^◌, ◌↔◌, IsTrue, length, slice_get, Some, MatchOption, IfOk};
ghost use Rattle.place_sets.specs.Sets.{IsPartOf};
ghost use Rattle.net_laws.specs.Candidates.{IsCandidate, members};
ghost use Rattle.gadara_net.specs.Flows.{flow_net};
ghost use Rattle.certificate_check.specs.Judged.{AllHold, IsFirstUncovered, AllCovered};
ghost use Rattle.certificate_check.specs.Covering.{AreSiphons, SomeLies};

use candidates::Candidates;
use certificate::Line;
use gadara_net::{Net, Work};
use place_sets::PlaceSet;
use std::alloc::{AllocError, Global};

/// The least siphon of the set of each line, in the order of the lines. The one error is want of
/// memory.
pub fn siphons_of<S: PlaceSet>(
    alloc: Global,
    net: &Net,
    lines: &[Line],
    work: &mut Work,
) -> Result<Vec<S>, AllocError>
    requires hold { AllHold (flow_net net.now) lines.now }
    requires room { work.old ≡ length net.now.points }
    ensures room { work.new ≡ work.old }
    ensures siphons { IfOk result
        (λ siphons. AreSiphons S.bound S.places (flow_net net.now) lines.now siphons.items) }
{
    let mut siphons = Vec::with_capacity(alloc, lines.len())?;
    for line in lines {
        let mut siphon: S = S::empty(alloc, net.places())?;
        net.least_siphon(line.resources, &mut siphon, work);
        siphons.push(siphon)?;
    }
    Ok(siphons)
}

/// Whether the resources of a line and the places of its siphon lie in these.
fn lies_within<S: PlaceSet>(line: &Line, siphon: &S, resources: u64, places: &S) -> bool
    requires { S.bound siphon.now ≡ S.bound places.now }
    ensures { IsTrue result ↔ (IsPartOf (members line.now.resources) (members resources) ×
        IsPartOf (S.places siphon.now) (S.places places.now)) }
{
    line.resources & resources == line.resources && siphon.subset(places)
}

/// Whether the resources of some line and the places of its siphon lie in these.
fn some_lies_within<S: PlaceSet>(lines: &[Line], siphons: &[S], resources: u64, places: &S) -> bool
    requires each { length siphons.now ≡ length lines.now }
    requires sizes { (k : ℕ) (s : S) → slice_get siphons.now k ≡ Some s →
        S.bound s ≡ S.bound places.now }
    ensures { IsTrue result ↔ SomeLies S.places lines.now siphons.now resources
        (S.places places.now) }
{
    for (k, siphon) in siphons.iter().enumerate() {
        if lies_within(&lines[k], siphon, resources, places) {
            return true;
        }
    }
    false
}

/// The first candidate that no line covers, by size and then by the masks as numbers. The candidates
/// are those of the net, the siphons those of the lines, and the places and the work are scratch.
pub fn first_uncovered<S: PlaceSet>(
    net: &Net,
    candidates: &Candidates<'_>,
    lines: &[Line],
    siphons: &[S],
    places: &mut S,
    work: &mut Work,
) -> Option<u64>
    requires of_net { candidates.now ≡ net.now }
    requires siphons { AreSiphons S.bound S.places (flow_net net.now) lines.now siphons.now }
    requires size { S.bound places.old ≡ length net.now.points + length net.now.tokens }
    requires room { work.old ≡ length net.now.points }
    ensures { MatchOption result (AllCovered (flow_net net.now) lines.now)
        (λ resources. IsFirstUncovered (flow_net net.now) lines.now resources) }
{
    gadara_net::laws::least_siphons_are_sets_of_places(net);
    let mut at = 0;
    while let Some(next) = candidates.next_after(at) {
        net.least_siphon(next, places, work);
        if !some_lies_within(lines, siphons, next, places) {
            return Some(next);
        }
        at = next;
    }
    None
}
