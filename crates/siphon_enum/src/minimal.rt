// The minimal sets of a net.
ghost use Rattle.std.specs.Prelude.{◌≡◌, ℕ, ◌<◌, ◌^◌, ◌↔◌, [], OnOk};
ghost use Rattle.gadara_net.specs.Flows.{flow_net};
ghost use Rattle.candidates.specs.Components.{IsFirstLarge, HasSmallComponents};
ghost use Rattle.siphon_enum.specs.Rows.{place_count};
ghost use Rattle.siphon_enum.specs.Listed.{AreAllMinimal, AreFirstMinimal, HasMoreMinimal};

use crate::listing::list;
use crate::room::SiphonRoom;
use crate::unions::unite_singles;
use candidates::Candidates;
use gadara_net::Net;
use thiserror::Error;

/// Why not all minimal sets of a net are listed.
#[derive(Clone, Copy, Debug, PartialEq, Eq, Error)]
pub enum EnumError {
    /// A strong component of the hold-and-wait graph has more than 14 resources.
    #[error("a component has more than 14 resources")]
    ComponentTooLarge {
        /// The resources of the one with the least member.
        resources: u64,
    },
    /// There are more minimal sets than the room's limit.
    #[error("there are more than {limit} minimal sets")]
    TooManySiphons {
        /// The limit.
        limit: u32,
    },
}

/// Leaves in the room the minimal sets of the net, all of them and nothing else, each once, by size
/// and then as numbers. What the room held before is dropped. No memory is taken.
///
/// The room is for as many places as the net has. The candidates are gone through in that order: one
/// is minimal where its least siphon contains that of no minimal set before it.
/// (Minimal siphons bound where circles of blocked threads can close: Ezpeleta, Colom and Martínez,
/// A Petri Net Based Deadlock Prevention Policy for Flexible Manufacturing Systems.)
///
/// # Errors
///
/// - `ComponentTooLarge` exactly where a strong component of the hold-and-wait graph has more than
///   14 resources, with the one that has the least member. The room holds no set then.
/// - `TooManySiphons` exactly where no component is too large and there are more minimal sets than
///   the room's limit. The room holds the first of them then, as many as the limit says.
pub fn minimal_siphons(net: &Net, room: &mut SiphonRoom) -> Result<(), EnumError>
    requires { room.old.places ≡ place_count (flow_net net.now) }
    ensures places { room.new.places ≡ room.old.places }
    ensures limit { room.new.limit ≡ room.old.limit }

    ensures all { OnOk result (AreAllMinimal (flow_net net.now) room.new.sets) }

    // The first error, and what the room holds then.
    ensures too_large { (resources : ℕ) → resources < 2 ^ 64 →
        (result ≡ Err (EnumError.ComponentTooLarge resources)) ↔
        IsFirstLarge (flow_net net.now) resources }
    ensures none { (resources : ℕ) → result ≡ Err (EnumError.ComponentTooLarge resources) →
        room.new.sets ≡ [] }

    // The other error, and what the room holds then.
    ensures too_many { (limit : ℕ) → (result ≡ Err (EnumError.TooManySiphons limit)) ↔
        ((limit ≡ room.old.limit) × HasSmallComponents (flow_net net.now) ×
        HasMoreMinimal (flow_net net.now) limit) }
    ensures first { (limit : ℕ) → result ≡ Err (EnumError.TooManySiphons limit) →
        AreFirstMinimal (flow_net net.now) limit room.new.sets }
{
    room.sets.clear();
    let candidates = Candidates::new(net);
    if let Some(resources) = candidates.too_large() {
        return Err(EnumError::ComponentTooLarge { resources });
    }
    let limit = room.limit;
    let siphons = room.siphons.as_mut_slice();
    unite_singles(net, &mut room.union, &mut siphons[0], &mut room.work);
    let union = &room.union;
    if !list(
        net,
        &candidates,
        limit,
        union,
        &mut room.sets,
        siphons,
        &mut room.work,
    ) {
        return Err(EnumError::TooManySiphons { limit });
    }
    Ok(())
}
