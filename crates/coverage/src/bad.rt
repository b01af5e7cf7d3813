// The first minimal set without a line.
ghost use Rattle.std.specs.Prelude.{◌≡◌, ℕ, ◌+◌, ◌<◌, ◌^◌, ◌↔◌, length, IfOk, MatchBool, MatchOption, Err};
ghost use Rattle.net_laws.specs.Lines.{IsBad, IsCovered};
ghost use Rattle.gadara_net.specs.Flows.{flow_net, NamesResources};
ghost use Rattle.candidates.specs.Components.{HasSmallComponents, IsFirstLarge};
ghost use Rattle.siphon_enum.specs.Listed.{AreAllMinimal, HasMoreMinimal};
ghost use Rattle.siphon_enum.specs.Rows.{place_count};
ghost use Rattle.siphon_enum.specs.declared.minimal.EnumError.TheVariants as EnumError;
ghost use Rattle.coverage.specs.Bad.{HasSimpleLine, IsFirstBad};

use gadara_net::{Net, Work};
use place_sets::PlaceSet;
use siphon_enum::{EnumError, SiphonRoom, minimal_siphons};

/// Whether some simple line for a set holds.
fn has_line<S: PlaceSet>(net: &Net, set: u64, scratch: &mut S, work: &mut Work) -> bool
    requires named { NamesResources net.now set }
    requires size { S.bound scratch.old ≡ length net.now.points + length net.now.tokens }
    requires work { work.old ≡ length net.now.points }
    ensures size { S.bound scratch.new ≡ S.bound scratch.old }
    ensures work { work.new ≡ work.old }
    ensures line { MatchBool result (HasSimpleLine (flow_net net.now) set) (IsBad (flow_net net.now) set) }
{
    net.first_line(set, scratch, work).is_some()
}

/// The first of the minimal sets in a room for which no simple line holds.
fn first_without_line<S: PlaceSet>(
    net: &Net,
    room: &SiphonRoom,
    scratch: &mut S,
    work: &mut Work,
) -> Option<u64>
    requires minimal { AreAllMinimal (flow_net net.now) room.now.sets }
    requires size { S.bound scratch.old ≡ length net.now.points + length net.now.tokens }
    requires work { work.old ≡ length net.now.points }
    ensures size { S.bound scratch.new ≡ S.bound scratch.old }
    ensures work { work.new ≡ work.old }
    ensures first { MatchOption result (IsCovered (flow_net net.now)) (λ set. IsFirstBad (flow_net net.now) set) }
{
    for k in 0..room.count() {
        let set = room.set(k);
        if !has_line(net, set, scratch, work) {
            return Some(set);
        }
    }
    None
}

/// The first minimal set of a net, by size and then by the masks as numbers, for which no simple
/// line holds. It is `None` exactly where the net is covered.
///
/// The room and the scratch set have the size `places()`, and `work` is for the net's points; what
/// they held before is dropped, and no memory is taken. The errors are a strong component of
/// hold-and-wait with more than 14 resources, and else more minimal sets than the room's limit.
pub fn first_bad_set<S: PlaceSet>(
    net: &Net,
    room: &mut SiphonRoom,
    scratch: &mut S,
    work: &mut Work,
) -> Result<Option<u64>, EnumError>
    requires places { room.old.places ≡ place_count (flow_net net.now) }
    requires size { S.bound scratch.old ≡ length net.now.points + length net.now.tokens }
    requires work { work.old ≡ length net.now.points }
    ensures places { room.new.places ≡ room.old.places }
    ensures limit { room.new.limit ≡ room.old.limit }
    ensures size { S.bound scratch.new ≡ S.bound scratch.old }
    ensures work { work.new ≡ work.old }
    ensures first { IfOk result (λ first. MatchOption first (IsCovered (flow_net net.now)) (λ set. IsFirstBad (flow_net net.now) set)) }
    ensures listed { IfOk result (λ first. AreAllMinimal (flow_net net.now) room.new.sets) }
    ensures too_large { (resources : ℕ) → resources < 2 ^ 64 →
        (result ≡ Err (EnumError.ComponentTooLarge resources)) ↔ IsFirstLarge (flow_net net.now) resources }
    ensures too_many { (limit : ℕ) → (result ≡ Err (EnumError.TooManySiphons limit)) ↔
        ((limit ≡ room.old.limit) × HasSmallComponents (flow_net net.now) × HasMoreMinimal (flow_net net.now) limit) }
{
    minimal_siphons(net, room)?;
    Ok(first_without_line(net, room, scratch, work))
}
