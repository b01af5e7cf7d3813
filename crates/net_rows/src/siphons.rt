// Minimal sets.
ghost use Rattle.std.specs.Prelude.{◌≡◌, IfOk, IfSome};
ghost use Rattle.gadara_net.specs.Flows.{flow_net};
ghost use Rattle.siphon_enum.specs.Rows.{place_count};

use crate::answers::{members, trimmed};
use gadara_net::Net;
use siphon_enum::{EnumError, SiphonRoom, minimal_siphons};
use std::alloc::{AllocError, Global};
use std::io;
use std::time::Instant;

/// A room for the minimal sets of a net, if there may be one of this limit.
fn room_of(alloc: Global, net: &Net, limit: u32) -> Result<Option<SiphonRoom>, AllocError>
    ensures { IfOk result
        (λ found. IfSome found (λ room. room.places ≡ place_count (flow_net net.now))) }
{
    let places = net.places();
    if places > 4160 || limit > 512 {
        return Ok(None);
    }
    Ok(Some(SiphonRoom::new(alloc, places, limit)?))
}

/// The sets that a room holds, as `0 1; 0 2`, or `none`.
fn sets(alloc: Global, room: &SiphonRoom) -> Result<String, AllocError> {
    if room.count() == 0 {
        return String::from_str(alloc, "none");
    }
    let mut text = String::new(alloc);
    for k in 0..room.count() {
        if k > 0 {
            text.push_str("; ")?;
        }
        let set = members(alloc, "", room.set(k))?;
        text.push_str(trimmed(alloc, set.as_str())?.as_str())?;
    }
    Ok(text)
}

/// The minimal sets in order, as a room holds them that was used for them before. Where they aren't all listed, why, and
/// what the room holds then.
pub fn minimal(alloc: Global, net: &Net, limit: u32) -> Result<String, AllocError> {
    let Some(mut room) = room_of(alloc, net, limit)? else {
        return String::from_str(alloc, "no room");
    };
    let _ = minimal_siphons(net, &mut room);
    let outcome = minimal_siphons(net, &mut room);
    let sets = sets(alloc, &room)?;
    match outcome {
        Ok(()) => Ok(sets),
        Err(EnumError::TooManySiphons { limit }) => format!(in alloc; "more than {limit}: {sets}"),
        Err(EnumError::ComponentTooLarge { resources }) => {
            let component = members(alloc, "", resources)?;
            let component = trimmed(alloc, component.as_str())?;
            format!(in alloc; "component {component}: {sets}")
        }
    }
}

/// How long a listing of the minimal sets takes, in nanoseconds. The room is made before.
pub fn minimal_time(rt: &HostRuntime, net: &Net, times: u32, limit: u32) -> io::Result<String> {
    let alloc = rt.alloc();
    let Some(mut room) = room_of(alloc, net, limit)? else {
        return Ok(String::from_str(alloc, "no room")?);
    };
    let start = Instant::now(rt)?;
    for _ in 0..times {
        let _ = minimal_siphons(net, &mut room);
    }
    let nanos = start.elapsed(rt)?.as_nanos() / u128::from(times.max(1));
    let count = room.count();
    Ok(format!(in alloc; "minimal {limit}: {count} sets, {nanos} ns")?)
}
