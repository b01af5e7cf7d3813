// Lines that hold.
ghost use Rattle.std.specs.Prelude.{◌≡◌, ℕ, ◌+◌, ◌<◌, ◌↔◌, IsTrue, length, MatchOption, IfOk};
ghost use Rattle.net_laws.specs.Candidates.{members};
ghost use Rattle.net_laws.specs.Lines.{LineHolds, IsBad};
ghost use Rattle.gadara_net.specs.Flows.{IsFlow, NamesResources, flow_net};
ghost use Rattle.gadara_net.specs.Indexed.{IsIndexOf};
ghost use Rattle.gadara_net.specs.Bounds.{IsFirstKind, part_list, general_kind as general_kind_of};
ghost use Rattle.gadara_net.specs.Sets.{HasMembers};
ghost use Rattle.gadara_net.specs.Measured.{AreMeasured, kind_of};

use crate::bounds::{is_of_net, is_within};
use crate::chains::Chains;
use crate::flow::Flow;
use crate::siphons::fill_siphon;
use crate::sums::{fill_sums, sum_of};
use certificate::{LineKind, Part, PartOf};
use place_sets::PlaceSet;
use sqlite_items::Items;
use std::alloc::{AllocError, Global};

/// A form of simple lines.
#[derive(Clone, Copy)]
pub enum Form {
    /// One thread alone holds.
    Thread,
    /// They are held under a resource of one token.
    Guard,
    /// They are held under tokens of a monitor.
    Monitor,
}

/// The kind of line of a form and a number.
fn kind(form: Form, number: u32) -> LineKind
    ensures { result ≡ kind_of form number }
{
    match form {
        Form::Thread => LineKind::Thread(number),
        Form::Guard => LineKind::Guard(number),
        Form::Monitor => LineKind::Monitor(number),
    }
}

/// Leaves in `out` the least siphon of a set, and in the row of sums what each point outside it
/// holds of the set. Answers the tokens of the set.
pub fn measure<S: PlaceSet>(
    flow: &Flow,
    into: &Chains,
    resources: u64,
    out: &mut S,
    row: &mut [u32],
    sums: &mut [u64],
) -> u64
    requires flow { IsFlow flow.now }
    requires index { IsIndexOf into.now flow.now }
    requires some { HasMembers resources }
    requires named { NamesResources flow.now resources }
    requires size { S.bound out.old ≡ length flow.now.points + length flow.now.tokens }
    requires room { length row.old ≡ length flow.now.points }
    requires sums { length sums.old ≡ length flow.now.points }
    ensures size { S.bound out.new ≡ S.bound out.old }
    ensures measured { AreMeasured flow.now resources result sums.new }
{
    fill_siphon(flow, into, resources, out, row);
    fill_sums(flow, resources, out, sums);
    sum_of(flow.tokens.as_slice(), resources)
}

/// Whether a line of this kind holds for the set.
pub fn kind_holds(flow: &Flow, kind: &LineKind, resources: u64, tokens: u64, sums: &[u64]) -> bool
    requires flow { IsFlow flow.now }
    requires measured { AreMeasured flow.now resources tokens sums.now }
    ensures { IsTrue result ↔ LineHolds (flow_net flow.now) (members resources) kind.now }
{
    is_of_net(flow, kind, tokens) && is_within(flow, kind, tokens, sums)
}

/// The first number below a count for which the line of this form holds for the set.
fn first_of(
    flow: &Flow,
    form: Form,
    count: u32,
    resources: u64,
    tokens: u64,
    sums: &[u64],
) -> Option<u32>
    requires flow { IsFlow flow.now }
    requires measured { AreMeasured flow.now resources tokens sums.now }
    ensures { MatchOption result
        ((j : ℕ) → j < count → LineHolds (flow_net flow.now) (members resources)
        (kind_of form j) → ⊥)
        (λ i. LineHolds (flow_net flow.now) (members resources) (kind_of form i) × ((j : ℕ) →
        j < i → LineHolds (flow_net flow.now) (members resources) (kind_of form j) → ⊥)) }
{
    for number in 0..count {
        if kind_holds(flow, &kind(form, number), resources, tokens, sums) {
            return Some(number);
        }
    }
    None
}

/// The kind of the first simple line that holds for the set: threads, then guards, then monitors,
/// each in ascending order.
pub fn first_kind(flow: &Flow, resources: u64, tokens: u64, sums: &[u64]) -> Option<LineKind>
    requires flow { IsFlow flow.now }
    requires measured { AreMeasured flow.now resources tokens sums.now }
    ensures { MatchOption result (IsBad (flow_net flow.now) resources)
        (λ first. IsFirstKind (flow_net flow.now) resources first) }
{
    let count = flow.tokens.len() as u32;
    if let Some(i) = first_of(flow, Form::Thread, flow.threads, resources, tokens, sums) {
        return Some(LineKind::Thread(i));
    }
    if let Some(g) = first_of(flow, Form::Guard, count, resources, tokens, sums) {
        return Some(LineKind::Guard(g));
    }
    let c = first_of(flow, Form::Monitor, count, resources, tokens, sums)?;
    Some(LineKind::Monitor(c))
}

/// One part as often as the factor says, or none where that is 0, before the tokens held once.
fn one_part(alloc: Global, of: PartOf, factor: u64) -> Result<LineKind, AllocError>
    ensures { IfOk result (λ kind. kind ≡ LineKind.General 1 (part_list of factor)) }
{
    let mut parts = Items::new(alloc);
    if factor > 0 {
        parts.push(Part { of, factor })?;
    }
    Ok(LineKind::General { times: 1, parts })
}

/// The general kind of line that says what this kind says for a set of so many tokens.
pub fn general_kind(alloc: Global, tokens: u64, kind: &LineKind) -> Result<LineKind, AllocError>
    ensures { IfOk result (λ general. general ≡ general_kind_of tokens kind.now) }
{
    match kind {
        LineKind::Thread(i) => one_part(alloc, PartOf::Thread(*i), tokens.saturating_sub(1)),
        LineKind::Guard(g) => one_part(alloc, PartOf::Resource(*g), tokens.saturating_sub(1)),
        LineKind::Monitor(c) => one_part(alloc, PartOf::Resource(*c), 1),
        LineKind::General { .. } => kind.copy(alloc),
    }
}
