// That flows are as the search for siphons asks.

ghost use Rattle.flow_laws.specs.Conditions.{NetsAreNets, NetsAreShaped, MutexesAreHeldOnce, PointsHaveCounts, PlacesAreFew, EdgesAreFew, FlowsMakeNets};

/// The net of a flow keeps what is asked of a net, and is shaped. No point holds a mutex twice, and
/// each has a count for each resource. There are 4,096 points and 64 resources at most, and no more
/// than two edges for each point. So a net can be made from a flow with the program's tokens.
pub fn flows_meet_the_nets_condition()
    ensures net { NetsAreNets }
    ensures shaped { NetsAreShaped }
    ensures once { MutexesAreHeldOnce }
    ensures counts { PointsHaveCounts }
    ensures places { PlacesAreFew }
    ensures edges { EdgesAreFew }
    ensures makes { FlowsMakeNets }
{}
