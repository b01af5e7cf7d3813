//! Held counts: what each thread holds at the points of its outline, and where that is refused.
//!
//! A walk goes through the live parts of each thread in text order with a number of tokens for
//! each resource. Where it refuses nothing, its counts are the account of every edge; and where
//! there are counts that are, the walk refuses nothing.
//!
//! Each law is a function with an empty body, whose contract is the law.
#![tactic(auto)]

ghost use Rattle.held_counts.specs.Held.{WalksKeepAccounts, AccountsAreWalked};
ghost use Rattle.held_counts.specs.Accounted.{AccountsMakeHeldNets};
ghost use Rattle.held_counts.specs.Flows.{HeldNetsAreShaped, MutexesFit, HeldNetsAreFlows};
ghost use Rattle.held_counts.specs.Growth.{PartsAddFew, ExitsAddFew, PointsHoldFew};
ghost use Rattle.held_counts.specs.Nets.{HeldNetsAreNets, MutexesAreHeldOnce, CountsAreFull, PathsLetGo, JoinsHoldNothing, CountsAreOne};

/// Why what is held isn't one number of tokens for each resource at each point.
#[derive(Clone, Copy, Debug, PartialEq, Eq)]
pub enum HeldKind {
    /// A mutex is locked, or its lock is tried, while it is held.
    Relock,
    /// What is given back isn't held.
    NotHeld,
    /// What is held differs by the way that led here.
    HeldDiffers,
    /// Something is held where a thread ends.
    HeldAtEnd,
    /// Something is held at a join.
    HeldAtJoin,
    /// A wait is for a mutex that isn't held.
    WaitNotHeld,
}

/// Where the walk refuses nothing, its counts are the account of each way out of each point: a
/// way takes no mutex that is held, and gives what is held. Threads begin with nothing held, and
/// nothing is held at joins and where threads have ended.
///
/// Asked is that waits take monitors before their mutex, and that each function's list ends with
/// a return.
pub fn walks_keep_accounts()
    ensures { WalksKeepAccounts }
{}

/// Where counts are so the account of each way, threads begin with nothing held, and nothing is
/// held at joins and where threads have ended, the walk refuses nothing, and they are its counts.
pub fn accounts_are_walked()
    ensures { AccountsAreWalked }
{}

/// Two counts that are the account of each way of the same threads are equal at each point.
pub fn counts_are_one()
    ensures { CountsAreOne }
{}

/// Where what is held in the net of threads is the account of its edges, a mutex at most once,
/// and nothing where threads begin, join and have ended, the walk refuses nothing, and its counts
/// are what is held.
pub fn accounted_nets_are_held()
    ensures { AccountsMakeHeldNets }
{}

/// The net of threads with the counts of a walk that refuses nothing keeps what is asked of a
/// net; no point holds a mutex twice, and each has a number for each resource.
pub fn held_nets_are_nets()
    ensures net { HeldNetsAreNets }
    ensures once { MutexesAreHeldOnce }
    ensures full { CountsAreFull }
{}

/// Such a net is shaped, and it is a flow where no point holds more of a resource than its
/// tokens; and so it is where all resources are mutexes.
pub fn held_nets_are_flows()
    ensures shaped { HeldNetsAreShaped }
    ensures fitting { MutexesFit }
    ensures flows { HeldNetsAreFlows }
{}

/// From each point of such a net there is a path to a point where nothing is held, and nothing
/// is held at a join.
pub fn held_nets_let_go()
    ensures ends { PathsLetGo }
    ensures joins { JoinsHoldNothing }
{}

/// No more tokens of a resource are held than there are points before: behind parts and at their
/// first exit there are at most as many more as the parts have points.
pub fn counts_are_small()
    ensures parts { PartsAddFew }
    ensures exits { ExitsAddFew }
    ensures points { PointsHoldFew }
{}
