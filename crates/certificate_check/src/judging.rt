// The check.
ghost use Rattle.std.specs.Prelude.{◌≡◌, ℕ, Bool, List, ◌+◌, ◌<◌, ◌^◌, ◌↔◌, length, MatchOption, MatchResult, Ok, Err};
ghost use Rattle.net_laws.specs.Lines.{IsValid};
ghost use Rattle.net_laws.specs.Markings.{IsMarking, IsStuck};
ghost use Rattle.gadara_net.specs.Flows.{flow_net};
ghost use Rattle.candidates.specs.Components.{HasSmallComponents, IsFirstLarge};
ghost use Rattle.certificate_check.specs.Judged.{AllHold, IsFirstFailing, IsFirstUncovered};
ghost use Rattle.certificate_check.specs.Answers.{IsVerdict, IsFault, ComesWhere};

use crate::covers::{first_uncovered, siphons_of};
use crate::verdict::{CheckFault, Verdict};
use candidates::Candidates;
use certificate::{Certificate, Line};
use gadara_net::{Net, Work};
use place_sets::{BitRow, PlaceSet};
use std::alloc::Global;

/// The first line that doesn't hold, counted from 1.
fn first_failing<S: PlaceSet>(
    net: &Net,
    lines: &[Line],
    scratch: &mut S,
    work: &mut Work,
) -> Option<u32>
    requires few { length lines.now < 2 ^ 31 }
    requires size { S.bound scratch.old ≡ length net.now.points + length net.now.tokens }
    requires room { work.old ≡ length net.now.points }
    ensures size { S.bound scratch.new ≡ S.bound scratch.old }
    ensures room { work.new ≡ work.old }
    ensures first { MatchOption result (AllHold (flow_net net.now) lines.now)
        (λ index. IsFirstFailing (flow_net net.now) lines.now index) }
{
    for (k, line) in lines.iter().enumerate() {
        if !net.line_holds(line, scratch, work) {
            return Some(k as u32 + 1);
        }
    }
    None
}

/// What is found of lines.
fn judged(alloc: Global, net: &Net, lines: &[Line]) -> Result<Verdict, CheckFault>
    requires { length lines.now < 2 ^ 31 }
    ensures { MatchResult result (λ verdict. IsVerdict (flow_net net.now) lines.now verdict)
        (λ fault. IsFault (flow_net net.now) lines.now fault) }
{
    let mut work = Work::new(alloc, net.points())?;
    let mut scratch = BitRow::empty(alloc, net.places())?;
    if let Some(index) = first_failing(net, lines, &mut scratch, &mut work) {
        return Ok(Verdict::LineFails { index });
    }
    let candidates = Candidates::new(net);
    if let Some(resources) = candidates.too_large() {
        return Err(CheckFault::ComponentTooLarge { resources });
    }
    let siphons: Vec<BitRow> = siphons_of(alloc, net, lines, &mut work)?;
    match first_uncovered(net, &candidates, lines, &siphons, &mut scratch, &mut work) {
        Some(resources) => Ok(Verdict::NotCovered { resources }),
        None => Ok(Verdict::Valid),
    }
}

/// Checks a certificate of fewer than 2^31 lines against a net. Where it is `Valid`, no marking of
/// the net has a stuck set.
///
/// The lines are tested first, then the strong components of hold-and-wait, and then the candidates
/// by size and by their masks as numbers. Each answer comes exactly where its clause says, but for
/// want of memory.
pub fn check(alloc: Global, net: &Net, certificate: &Certificate) -> Result<Verdict, CheckFault>
    requires { length certificate.now.lines < 2 ^ 31 }
    ensures line_fails { (index : ℕ) → ComesWhere result (Ok (Verdict.LineFails index))
        (IsFirstFailing (flow_net net.now) certificate.now.lines index) }
    ensures too_large { let n = flow_net net.now in (component : ℕ) →
        ComesWhere result (Err (CheckFault.ComponentTooLarge component))
        (AllHold n certificate.now.lines × IsFirstLarge n component) }
    ensures not_covered { let n = flow_net net.now in (candidate : ℕ) →
        ComesWhere result (Ok (Verdict.NotCovered candidate))
        (AllHold n certificate.now.lines × HasSmallComponents n ×
        IsFirstUncovered n certificate.now.lines candidate) }
    ensures valid { let n = flow_net net.now in ComesWhere result (Ok Verdict.Valid)
        (IsValid n certificate.now.lines × HasSmallComponents n) }
    ensures never_stuck { (marking : List ℕ) (threads : ℕ → Bool) → result ≡ Ok Verdict.Valid →
        IsMarking (flow_net net.now) marking → IsStuck (flow_net net.now) marking threads → ⊥ }
{
    gadara_net::laws::nets_with_lines_have_no_stuck_set(net);
    judged(alloc, net, certificate.lines.as_slice())
}
