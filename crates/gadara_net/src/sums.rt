// Sums of tokens.
ghost use Rattle.std.specs.Prelude.{◌≡◌, ℕ, ◌≤◌, ◌<◌, ◌^◌, length, slice_index, if◌then◌else◌};
ghost use Rattle.net_laws.specs.Candidates.{members};
ghost use Rattle.net_laws.specs.Lines.{total};
ghost use Rattle.gadara_net.specs.Flows.{IsFlow, flow_net};
ghost use Rattle.gadara_net.specs.Sums.{AreSums};

use crate::flow::Flow;
use crate::sets::is_member;
use edges::Point;
use place_sets::PlaceSet;

/// The count where the resource, which is below 64, is in the set, or 0.
fn count_if(resources: u64, resource: u32, count: u32) -> u64
    requires { resource < 64 }
    ensures { result ≡ (if members resources resource then count else 0) }
{
    if is_member(resources, resource) {
        count as u64
    } else {
        0
    }
}

/// The sum of the counts of the members of the set.
pub fn sum_of(counts: &[u32], resources: u64) -> u64
    requires { length counts.now ≤ 64 }
    ensures sum { result ≡ total (length counts.now) (members resources) (slice_index counts.now) }
    ensures small { result < 2 ^ 39 }
{
    let mut sum = 0;
    for (r, count) in counts.iter().enumerate() {
        sum += count_if(resources, r as u32, *count);
    }
    sum
}

/// The tokens of the set that are held at a point, or 0 where it is inside the set's least siphon.
fn sum_at(point: &Point, inside: bool, resources: u64) -> u64
    requires { length point.now.held ≤ 64 }
    ensures { result ≡ (if inside then 0 else total (length point.now.held) (members resources)
        (slice_index point.now.held)) }
{
    if inside {
        return 0;
    }
    sum_of(point.held.as_slice(), resources)
}

/// For each point the tokens of the set that are held there, or 0 where it is inside the set's
/// least siphon.
pub fn fill_sums<S: PlaceSet>(flow: &Flow, resources: u64, siphon: &S, sums: &mut [u64])
    requires flow { IsFlow flow.now }
    requires bound { length flow.now.points ≤ S.bound siphon.now }
    requires room { length sums.old ≡ length flow.now.points }
    ensures { AreSums (flow_net flow.now) (members resources) (S.places siphon.now) sums.new }
{
    for (p, point) in flow.points.as_slice().iter().enumerate() {
        sums[p] = sum_at(point, siphon.has(p as u32), resources);
    }
}
