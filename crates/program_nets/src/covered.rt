// Whether a program is covered.
ghost use Rattle.std.specs.Prelude.{◌≡◌, ◌≤◌, ◌<◌, ◌^◌, IfErr, IfOk, MatchOption, None, Ok};
ghost use Rattle.c_canonical.specs.ShapedPrograms.{ShapedProgram};
ghost use Rattle.c_meaning.specs.Shown.{shown};
ghost use Rattle.c_meaning.specs.Stuck.{NeverStuck};
ghost use Rattle.c_tree.specs.Lined.{program_of};
ghost use Rattle.context_walk.specs.Prepared.{IsFormed};
ghost use Rattle.coverage.specs.Bad.{IsFirstBad};
ghost use Rattle.flow_graph.specs.Flow.{IsFlow};
ghost use Rattle.flow_laws.specs.Nets.{net_in};
ghost use Rattle.net_laws.specs.Lines.{IsCovered};
ghost use Rattle.program_nets.specs.declared.error.CoverageError.TheVariants as CoverageError;
ghost use Rattle.program_nets.specs.Covered.{IsCoverageError};

use crate::error::CoverageError;
use crate::nets::net_of;
use c_tree::Program;
use coverage::first_bad_set;
use flow_laws::{flows_meet_the_nets_condition, programs_with_lines_never_get_stuck};
use gadara_net::{Net, Work};
use outline_pieces::FlowParts;
use place_sets::{BitRow, PlaceSet};
use siphon_enum::{EnumError, SiphonRoom};
use std::alloc::Global;

/// The error of a component that is too large.
fn too_large(resources: u64) -> CoverageError
    ensures error { result ≡ CoverageError.ComponentTooLarge resources }
    ensures mask { resources < 2 ^ 64 }
{
    CoverageError::ComponentTooLarge { resources }
}

/// The first minimal set of a well-formed program with this flow, by size and then by the masks as numbers, for which
/// no simple line holds. It is `None` where the program is covered, and then the program never gets stuck.
///
/// The errors are a strong component of hold-and-wait with more than 14 resources; else more minimal sets than the
/// limit, which is 512 at most; and want of memory.
pub fn first_bad_set_of(
    alloc: Global,
    p: &Program,
    flow: FlowParts,
    limit: u32,
) -> Result<Option<u64>, CoverageError>
    requires formed { IsFormed p.now }
    requires shaped { ShapedProgram (shown p.now) }
    requires flow { IsFlow (program_of p.now) flow }
    requires limit { limit ≤ 512 }
    ensures first { IfOk result (λ first. MatchOption first (IsCovered (net_in (program_of p.now) flow)) (λ set. IsFirstBad (net_in (program_of p.now) flow) set)) }
    ensures never_stuck { result ≡ Ok None → NeverStuck (shown p.now) }
    ensures error { IfErr result (λ e. IsCoverageError (net_in (program_of p.now) flow) limit e) }
{
    flows_meet_the_nets_condition();
    programs_with_lines_never_get_stuck();
    let net = net_of(alloc, p, flow)?;
    let mut room = SiphonRoom::new(alloc, net.places(), limit)?;
    let mut scratch = BitRow::empty(alloc, net.places())?;
    let mut work = Work::new(alloc, net.points())?;
    match first_bad_set(&net, &mut room, &mut scratch, &mut work) {
        Ok(first) => Ok(first),
        Err(EnumError::ComponentTooLarge { resources }) => Err(too_large(resources)),
        Err(EnumError::TooManySiphons { limit }) => Err(CoverageError::TooManySiphons { limit }),
    }
}
