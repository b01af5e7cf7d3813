// What the definitions say of a small program.

ghost use Rattle.kept_rules.specs.Samples.{PutSample};

/// A monitor is put into a program around a lock, among the takes of a wait and into the arms of
/// a trylock.
pub fn a_monitor_is_put_in_so()
    ensures { PutSample }
{}
