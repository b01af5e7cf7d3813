//! What is found of threads is a net that is held.
//!
//! The law is a function with an empty body, whose contract is the law.

ghost use Rattle.outline_pieces.specs.Nets.{FoundNetsAreHeld};

/// The points and edges that a builder finds show the net of its threads, with what is held there.
///
/// Asked is that the outlines name resources of the program, that waits take monitors before
/// their mutex, and that each function's list ends with a return.
pub fn found_nets_are_held()
    ensures { FoundNetsAreHeld }
{}
