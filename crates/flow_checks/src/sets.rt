// Sets of resources.
ghost use Rattle.std.specs.Prelude.{◌↔◌, IsTrue};
ghost use Rattle.gadara_net.specs.Flows.{NamesResources};

use gadara_net::Net;

/// Whether a set, in which bit `r` says whether resource `r` is a member, names resources of the net alone.
pub fn names_resources(net: &Net, resources: u64) -> bool
    ensures { IsTrue result ↔ NamesResources net.now resources }
{
    let count = net.resources();
    for r in 0..64 {
        if r >= count && resources >> r & 1 == 1 {
            return false;
        }
    }
    true
}
