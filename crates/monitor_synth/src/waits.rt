// Whether a monitor is held where a thread waits.
ghost use Rattle.std.specs.Prelude.{◌≡◌, ℕ, ◌<◌, ◌↔◌, length, slice_index, IsTrue, IsNone, IfSome};
ghost use Rattle.gadara_net.specs.Flows.{flow_net};
ghost use Rattle.weight_laws.specs.Weights.{IsAdmissible};
ghost use Rattle.monitor_synth.specs.Waiting.{IsFirstWaiting};

use gadara_net::{Net, Weights};

/// The first point at which a thread waits for a signal and whose moved weight isn't 0. It is
/// `None` exactly where there is none, so that a monitor of these moved weights is never held by a
/// thread that waits.
///
/// `m` has one number for each point of the net. The call takes no memory.
pub fn admissible(n: &Net, m: &Weights) -> Option<u32>
    requires { length m.now ≡ length n.now.points }
    ensures none { IsNone result ↔ IsAdmissible (flow_net n.now) (slice_index m.now) }
    ensures first { IfSome result
        (λ p. IsFirstWaiting (flow_net n.now) (slice_index m.now) p) }
{
    for p in 0..n.points() {
        if n.waiting(p) && m.as_slice()[p as usize] > 0 {
            return Some(p);
        }
    }
    None
}
