// What each command answers of the files that it read.
ghost use Rattle.std.specs.Prelude.{◌<◌, ◌^◌, ℕ, length, IfOk};
ghost use Rattle.std.specs.Prelude.{◌≡◌};
ghost use Rattle.command_words.specs.Tasks.{texts};
ghost use Rattle.answers.specs.Causes.{Decides};
ghost use Rattle.answers.specs.Refusing.{Ends};
ghost use Rattle.answers.specs.Commands.{contents_of, at, causes_of};

use crate::answer::Answer;
use crate::instrument::instrument;
use crate::refusal::Refusal;
use crate::run::{File, run_files};
use crate::runtime::runtime;
use command_words::{Command, Task};
use std::alloc::{AllocError, Global};

fn name_at(names: &[String], place: usize) -> &str
    ensures { result.now ≡ at (texts names.now) place }
{
    match names.get(place) {
        Some(name) => name.as_str(),
        None => "",
    }
}

fn bytes_at(files: &[Vec<u8>], place: usize) -> &[u8]
    ensures { result.now ≡ at (contents_of files.now) place }
{
    match files.get(place) {
        Some(bytes) => bytes.as_slice(),
        None => &[],
    }
}

/// The file at a place.
fn file_at<'a>(names: &'a [String], files: &'a [Vec<u8>], place: usize) -> File<'a>
    ensures name { result.name.now ≡ at (texts names.now) place }
    ensures bytes { result.bytes.now ≡ at (contents_of files.now) place }
{
    File {
        name: name_at(names, place),
        bytes: bytes_at(files, place),
    }
}

/// What a command answers of the contents of its files.
fn answer_to(alloc: Global, task: &Task, files: &[Vec<u8>]) -> Result<Answer, Refusal>
    requires { (k : ℕ) → length (at (contents_of files.now) k) < 2 ^ 31 }
    ensures { Ends (causes_of task.now (contents_of files.now)) result }
{
    let names = task.files();
    match task.command() {
        Command::Instrument { .. } => instrument(alloc, name_at(names, 0), bytes_at(files, 0)),
        Command::Run => run_files(
            alloc,
            file_at(names, files, 0),
            file_at(names, files, 1),
            file_at(names, files, 2),
        ),
        Command::Runtime => runtime(alloc),
    }
}

/// What a task is answered, whose files have these contents. The one error is want of memory.
pub fn decide(alloc: Global, task: &Task, files: &[Vec<u8>]) -> Result<Answer, AllocError>
    requires { (k : ℕ) → length (at (contents_of files.now) k) < 2 ^ 31 }
    ensures { IfOk result (Decides (causes_of task.now (contents_of files.now))) }
{
    match answer_to(alloc, task, files) {
        Ok(answer) => Ok(answer),
        Err(Refusal::Told(answer)) => Ok(answer),
        Err(Refusal::Memory) => Err(AllocError),
    }
}
