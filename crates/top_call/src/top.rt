// The top call.
ghost use Rattle.std.specs.Prelude.{◌≡◌, IfOk, IfSome};
ghost use Rattle.gd_host.specs.Outside.{Files};
ghost use Rattle.command_words.specs.Tasks.{texts, limit_of};
ghost use Rattle.top_call.specs.Answers.{files_named, limits_of};
ghost use Rattle.top_call.specs.Fetching.{AsksInOrder, OnlyReads};
ghost use Rattle.top_call.specs.Ending.{Defines, DefinesTask, Ends, NoFault};
ghost use Rattle.top_call.specs.Clauses.{Headline, Explains, Exact, HasOneAnswer, Complete};

use crate::fetching::fetch_all;
use crate::telling::{complain, tell};
use answers::{
    Answer, Status, accepted_programs_are_safe, decide, one_answer, too_long, unread, usage,
};
use command_words::{Task, task_of};
use gd_host::{FetchError, Host};
use std::alloc::{AllocError, Global};

/// What is to be told of a task. The one error is want of memory.
fn answer_to<H: Host>(alloc: Global, task: &Task, host: &mut H) -> Result<Answer, AllocError>
    ensures defines { IfOk result (λ answer. DefinesTask task.now (H.seen host.old) (H.seen host.new) answer) }
    ensures asked { AsksInOrder (limit_of task.now.command) task.now.files (H.seen host.old) (H.seen host.new) }
    ensures only_reads { OnlyReads (H.seen host.old) (H.seen host.new) }
{
    let names = task.files();
    match fetch_all(alloc, task.command(), names, host) {
        Ok(files) => decide(alloc, task, &files),
        Err(stop) => match stop.why {
            FetchError::Failed => unread(alloc, names[stop.place].as_str()),
            FetchError::TooLong => too_long(
                alloc,
                names[stop.place].as_str(),
                task.command().limit(stop.place),
            ),
            FetchError::Memory => Err(AllocError),
        },
    }
}

/// What is to be told of the words. The one error is want of memory.
fn define<H: Host>(alloc: Global, words: &[String], host: &mut H) -> Result<Answer, AllocError>
    ensures defines { IfOk result (λ answer. Defines (texts words.now) (H.seen host.old) (H.seen host.new) answer) }
    ensures asked { AsksInOrder (limits_of (texts words.now)) (files_named (texts words.now)) (H.seen host.old) (H.seen host.new) }
    ensures only_reads { OnlyReads (H.seen host.old) (H.seen host.new) }
{
    match task_of(alloc, words)? {
        Some(task) => answer_to(alloc, &task, host),
        None => usage(alloc),
    }
}

fn perform<H: Host>(alloc: Global, words: &[String], host: &mut H) -> Status
    ensures ends { Ends (texts words.now) (H.seen host.old) (H.seen host.new) result }
    ensures asked { AsksInOrder (limits_of (texts words.now)) (files_named (texts words.now)) (H.seen host.old) (H.seen host.new) }
{
    match define(alloc, words, host) {
        Ok(answer) => tell(&answer, host),
        Err(_) => {
            complain(b"gadara: out of memory\n", host);
            Status::Memory
        }
    }
}

/// Does what the words of a command line ask for, without the program's name among them.
///
/// It reads the files that the words name, in their order. Then it writes the whole text of the answer
/// in one piece, or it complains with one line. The clauses say what `instrument` promises, how a call
/// ends, whatever the host does, and why.
pub fn gadara<H: Host>(alloc: Global, words: &Vec<String>, host: &mut H) -> Status
    // On Done of `instrument` the bytes of the file are added to the output, and no state that the
    // program that they spell reaches, on any input and by any schedule, has a stuck set.
    ensures headline { Headline (texts words.now.items) (H.seen host.old) (H.seen host.new) result }

    // Each way in which it can end: the status, what was written and what was complained.
    ensures ends { Ends (texts words.now.items) (H.seen host.old) (H.seen host.new) result }

    // It asks for the files that the words name, in their order, and for none behind one that it can't have.
    ensures asked { AsksInOrder (limits_of (texts words.now.items)) (files_named (texts words.now.items))
        (H.seen host.old) (H.seen host.new) }

    // Each status but want of memory comes only with its cause.
    ensures causes { Explains (texts words.now.items) (H.seen host.old) (H.seen host.new) result }

    // Where files are told it ends as the words answer of them, a fault of the host and want of memory apart.
    ensures exact { IfSome (H.seen host.old).files
        (λ files. Exact (texts words.now.items) files (H.seen host.old) (H.seen host.new) result) }

    // Each list of words has exactly one answer of the same files.
    ensures one { (files : Files) → HasOneAnswer (texts words.now.items) files }

    // What is accepted is done or answered no, where the host has no fault and memory suffices.
    ensures complete { NoFault (H.seen host.old) (H.seen host.new) → IfSome (H.seen host.old).files
        (λ files. Complete (texts words.now.items) files result) }
{
    accepted_programs_are_safe();
    one_answer();
    perform(alloc, words, host)
}
