// Weights of points, as the program writes them.
ghost use Rattle.gadara_net.specs.Flows.{NamesResources};

use gadara_net::Net;
use monitor_synth::{admissible, capacity, entry, moved, weights};
use std::alloc::{AllocError, Global};

/// The numbers that aren't 0, each behind its point.
fn written(alloc: Global, numbers: &[u64]) -> Result<String, AllocError> {
    let mut text = String::new(alloc);
    for (point, number) in numbers.iter().enumerate() {
        if *number > 0 {
            text.push_str(format!(in alloc; "{point}:{number} ")?.as_str())?;
        }
    }
    String::from_str(
        alloc,
        if text.is_empty() {
            "none"
        } else {
            text.trim_end()
        },
    )
}

/// The first point at which a thread waits and whose moved weight for the set isn't 0.
fn first_waiting(alloc: Global, net: &Net, resources: u64) -> Result<String, AllocError>
    requires { NamesResources net.now resources }
{
    let weights = weights(alloc, net, resources)?;
    match admissible(net, &moved(alloc, net, &weights)?) {
        Some(point) => format!(in alloc; "{point}"),
        None => String::from_str(alloc, "none"),
    }
}

/// Weights of the points for a set of resources: their own, or moved.
fn some_weights(alloc: Global, net: &Net, word: &str, resources: u64) -> Result<String, AllocError>
    requires { NamesResources net.now resources }
{
    let weights = weights(alloc, net, resources)?;
    if word == "weights" {
        return written(alloc, weights.as_slice());
    }
    let moved = moved(alloc, net, &weights)?;
    if word == "moved" {
        return written(alloc, moved.as_slice());
    }
    written(alloc, entry(alloc, net, &moved)?.as_slice())
}

/// What is said of the weights for a set of resources.
pub fn said_of_weights(
    alloc: Global,
    net: &Net,
    word: &str,
    resources: u64,
) -> Result<String, AllocError>
    requires { NamesResources net.now resources }
{
    match word {
        "waiting" => first_waiting(alloc, net, resources),
        "capacity" => {
            let capacity = capacity(net, resources);
            format!(in alloc; "{capacity}")
        }
        _ => some_weights(alloc, net, word, resources),
    }
}
