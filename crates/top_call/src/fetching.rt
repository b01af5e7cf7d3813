// Fetching the files of a command, in their order.
ghost use Rattle.std.specs.Prelude.{◌<◌, ◌^◌, ℕ, length, IfOk, IfErr};
ghost use Rattle.command_words.specs.Tasks.{texts, limit_of};
ghost use Rattle.answers.specs.Commands.{contents_of, at};
ghost use Rattle.top_call.specs.Fetching.{Reads, AsksInOrder, OnlyReads, IsStopped};

use command_words::Command;
use gd_host::{FetchError, Host};
use std::alloc::Global;

/// The place of the file that could not be fetched, from 0, and why.
#[derive(Clone, Copy)]
pub struct Stop {
    pub place: usize,
    pub why: FetchError,
}

/// The files of these names, up to the first that can't be had. None behind that one is asked for.
pub fn fetch_all<H: Host>(
    alloc: Global,
    command: Command,
    names: &[String],
    host: &mut H,
) -> Result<Vec<Vec<u8>>, Stop>
    ensures read { IfOk result (λ files. Reads (H.seen host.old).files (limit_of command) (texts names.now) (contents_of files.items)) }
    ensures short { IfOk result (λ files. (k : ℕ) → length (at (contents_of files.items) k) < 2 ^ 31) }
    ensures stopped { IfErr result (λ stop. IsStopped (limit_of command) (texts names.now) stop.place
        stop.why (H.seen host.old) (H.seen host.new)) }
    ensures asked { AsksInOrder (limit_of command) (texts names.now) (H.seen host.old) (H.seen host.new) }
    ensures only_reads { OnlyReads (H.seen host.old) (H.seen host.new) }
{
    let mut files = Vec::new(alloc);
    for name in names {
        let place = files.len();
        let bytes = match host.fetch(alloc, name.as_str(), command.limit(place)) {
            Ok(bytes) => bytes,
            Err(why) => return Err(Stop { place, why }),
        };
        match files.push(bytes) {
            Ok(()) => (),
            Err(_) => {
                return Err(Stop {
                    place,
                    why: FetchError::Memory,
                });
            }
        }
    }
    Ok(files)
}
