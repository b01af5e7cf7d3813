// Moved weights.
ghost use Rattle.std.specs.Prelude.{◌≡◌, length, slice_index, IfOk};
ghost use Rattle.gadara_net.specs.Flows.{flow_net};
ghost use Rattle.weight_laws.specs.Weights.{IsMovedFrom};

use crate::order::places_by_number;
use crate::raise::raise_all;
use gadara_net::{Net, Weights};
use sqlite_items::Items;
use std::alloc::{AllocError, Global};

/// The moved weight of each point: the greatest weight of it and of the points to which edges lead
/// that neither acquire nor reacquire nor leave a point at which a lock is tried.
///
/// `w` has one number for each point of the net. Points are taken in descending order of their
/// weights, and each goes back over the edges to points of a lower number, so that each number is
/// raised once. The one error is want of memory.
pub fn moved(alloc: Global, n: &Net, w: &Weights) -> Result<Weights, AllocError>
    requires { length w.now ≡ length n.now.points }
    ensures each { IfOk result (λ m. length m ≡ length n.now.points) }
    ensures moved { IfOk result
        (λ m. IsMovedFrom (flow_net n.now) (slice_index w.now) (slice_index m)) }
{
    n.keeps_flow();
    let mut todo = places_by_number(alloc, w.as_slice())?;
    let mut moved = Vec::from_slice(alloc, w.as_slice())?;
    raise_all(n, &mut moved, &mut todo)?;
    Ok(Items::from_vec(moved))
}
