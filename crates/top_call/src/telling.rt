// Telling what was defined.
ghost use Rattle.std.specs.Prelude.{◌≡◌};
ghost use Rattle.top_call.specs.Ending.{Says, Tells};

use answers::{Answer, Status};
use gd_host::Host;

/// Complains of something, in one piece. Nothing changes where that fails.
pub fn complain<H: Host>(line: &[u8], host: &mut H)
    ensures says { Says line.now (H.seen host.old) (H.seen host.new) }
    ensures files { (H.seen host.new).files ≡ (H.seen host.old).files }
    ensures out { (H.seen host.new).out ≡ (H.seen host.old).out }
    ensures asked { (H.seen host.new).asked ≡ (H.seen host.old).asked }
    ensures read_faults { (H.seen host.new).read_faults ≡ (H.seen host.old).read_faults }
    ensures write_faults { (H.seen host.new).write_faults ≡ (H.seen host.old).write_faults }
{
    let _ = host.complain(line);
}

/// Writes the text of an answer in one piece, or complains with its line.
pub fn tell<H: Host>(answer: &Answer, host: &mut H) -> Status
    ensures tells { Tells answer.now (H.seen host.old) (H.seen host.new) result }
    ensures asked { (H.seen host.new).asked ≡ (H.seen host.old).asked }
    ensures read_faults { (H.seen host.new).read_faults ≡ (H.seen host.old).read_faults }
{
    if !answer.status().is_written() {
        complain(answer.told(), host);
        return answer.status();
    }
    match host.emit(answer.told()) {
        Ok(()) => answer.status(),
        Err(_) => {
            complain(b"gadara: cannot write\n", host);
            Status::HostFault
        }
    }
}
