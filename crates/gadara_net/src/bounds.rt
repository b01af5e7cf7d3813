// Whether what points hold is within the bound of a line.
ghost use Rattle.std.specs.Prelude.{◌≡◌, ℕ, ◌+◌, ◌-◌, ◌*◌, ◌<◌, ◌≤◌, ◌^◌, ◌↔◌, Bool, IsTrue, length, slice_index, min, if◌then◌else◌};
ghost use Rattle.net_laws.specs.Candidates.{members};
ghost use Rattle.net_laws.specs.Lines.{times_of, tokens_of, parts_of, count_of, IsPartOf, Precedes, ArePartsOf, IsOfNet};
ghost use Rattle.gadara_net.specs.Flows.{IsFlow, flow_net};
ghost use Rattle.gadara_net.specs.Bounds.{point_count, point_sum, point_bound, IsWithin, AreNamed, AreOrdered};

use crate::flow::Flow;
use certificate::{LineKind, Part, PartOf};
use edges::Point;

/// The count at a place, or 0 where there is none.
fn count_or_zero(counts: &[u32], place: u32) -> u32
    ensures { result ≡ slice_index counts.now place }
{
    counts.get(place as usize).copied().unwrap_or(0)
}

/// What a part counts at a point: the tokens held of its resource, or 1 at a point of its thread.
fn count_at(of: PartOf, point: &Point) -> u32
    ensures { result ≡ point_count point.now of }
{
    match of {
        PartOf::Resource(r) => count_or_zero(point.held.as_slice(), r),
        PartOf::Thread(i) => u32::from(point.thread == i),
    }
}

/// The sum of the parts at a point, or the greatest number where it is above that.
fn sum_at(parts: &[Part], point: &Point) -> u128
    ensures { result ≡ min (point_sum point.now parts.now) (2 ^ 128 - 1) }
{
    let mut sum = 0u128;
    for part in parts {
        sum = sum.saturating_add(part.factor as u128 * count_at(part.of, point) as u128);
    }
    sum
}

/// Whether the tokens held are within the bound at a point, where the set has so many tokens.
fn is_within_at(kind: &LineKind, tokens: u64, point: &Point, held: u64) -> bool
    ensures { IsTrue result ↔ (times_of kind.now * held ≤ point_bound tokens kind.now point.now) }
{
    let most = tokens.saturating_sub(1);
    match kind {
        LineKind::Thread(i) => held == 0 || (point.thread == *i && held <= most),
        LineKind::Guard(g) => held as u128
            <= most as u128 * count_or_zero(point.held.as_slice(), *g) as u128,
        LineKind::Monitor(c) => held <= count_or_zero(point.held.as_slice(), *c) as u64,
        LineKind::General { times, parts } => *times as u128 * held as u128
            <= sum_at(parts.as_slice(), point),
    }
}

/// Whether the tokens held are within the bound at each point.
pub fn is_within(flow: &Flow, kind: &LineKind, tokens: u64, sums: &[u64]) -> bool
    requires { length sums.now ≡ length flow.now.points }
    ensures { IsTrue result ↔ IsWithin tokens kind.now flow.now.points sums.now }
{
    for (p, point) in flow.points.as_slice().iter().enumerate() {
        if !is_within_at(kind, tokens, point, sums[p]) {
            return false;
        }
    }
    true
}

/// What a part counts in all: the tokens of its resource, or one thread.
fn count_in(flow: &Flow, of: PartOf) -> u32
    ensures { result ≡ count_of (flow_net flow.now) of }
{
    match of {
        PartOf::Resource(r) => count_or_zero(flow.tokens.as_slice(), r),
        PartOf::Thread(_) => 1,
    }
}

/// The sum of the parts in all, or the greatest number where it is above that.
fn sum_in(flow: &Flow, parts: &[Part]) -> u128
    ensures { result ≡ min (parts_of (flow_net flow.now) parts.now) (2 ^ 128 - 1) }
{
    let mut sum = 0u128;
    for part in parts {
        sum = sum.saturating_add(part.factor as u128 * count_in(flow, part.of) as u128);
    }
    sum
}

/// Whether the number of a part is in the net.
fn is_named(flow: &Flow, of: PartOf) -> bool
    ensures { IsTrue result ↔ IsPartOf (flow_net flow.now) of }
{
    match of {
        PartOf::Resource(r) => (r as usize) < flow.tokens.len(),
        PartOf::Thread(i) => i < flow.threads,
    }
}

/// Whether the numbers of all parts are in the net.
fn are_named(flow: &Flow, parts: &[Part]) -> bool
    ensures { IsTrue result ↔ AreNamed (flow_net flow.now) parts.now }
{
    for part in parts {
        if !is_named(flow, part.of) {
            return false;
        }
    }
    true
}

/// Whether a part may stand before another: resources before threads, and each in the order of
/// their numbers.
fn precedes(one: PartOf, other: PartOf) -> bool
    ensures { IsTrue result ↔ Precedes one other }
{
    match (one, other) {
        (PartOf::Resource(r), PartOf::Resource(s)) => r < s,
        (PartOf::Resource(_), PartOf::Thread(_)) => true,
        (PartOf::Thread(_), PartOf::Resource(_)) => false,
        (PartOf::Thread(i), PartOf::Thread(j)) => i < j,
    }
}

/// Whether each part precedes the next.
fn are_ordered(parts: &[Part]) -> bool
    ensures { IsTrue result ↔ AreOrdered parts.now }
{
    for i in 1..parts.len() {
        if !precedes(parts[i - 1].of, parts[i].of) {
            return false;
        }
    }
    true
}

/// Whether the numbers of a bound are in the net, and it is one that all tokens of a set of so many
/// pass.
pub fn is_of_net(flow: &Flow, kind: &LineKind, tokens: u64) -> bool
    ensures { (R : ℕ → Bool) → tokens ≡ tokens_of (flow_net flow.now) R →
        IsTrue result ↔ IsOfNet (flow_net flow.now) R kind.now }
{
    match kind {
        LineKind::Thread(i) => *i < flow.threads,
        LineKind::Guard(g) => flow.tokens.as_slice().get(*g as usize) == Some(&1),
        LineKind::Monitor(c) => flow.mutexes <= *c
            && (*c as usize) < flow.tokens.len()
            && (count_or_zero(flow.tokens.as_slice(), *c) as u64) < tokens,
        LineKind::General { times, parts } => are_parts(flow, *times, parts.as_slice(), tokens),
    }
}

/// Whether the parts are of the net and in order, and their sum in all is below so many times the
/// tokens.
fn are_parts(flow: &Flow, times: u64, parts: &[Part], tokens: u64) -> bool
    ensures { IsTrue result ↔ (ArePartsOf (flow_net flow.now) parts.now ×
        (parts_of (flow_net flow.now) parts.now < times * tokens)) }
{
    are_named(flow, parts)
        && are_ordered(parts)
        && sum_in(flow, parts) < times as u128 * tokens as u128
}
