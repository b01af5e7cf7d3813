// What a call is to end with: a status, and the text of its output or its line of complaint.
ghost use Rattle.std.specs.Prelude.{◌≡◌, IfOk, string_bytes};
ghost use Rattle.answers.specs.Answered.{Answered, telling, usage_answer, unread_answer, too_long_answer};

use crate::lines;
use crate::status::Status;
use std::alloc::{AllocError, Global};
use std::marker::Model;

/// What a call is to end with. What is told is the text of the output where the status is `Done` or `No`,
/// and else the line of complaint.
#[derive(Drop)]
pub struct Answer {
    status: Status,
    told: Vec<u8>,
}

impl Model for Answer {
    ghost Value = { Answered };

    ghost view = { λ a. record { status = a.status; told = a.told.items } };
}

impl Answer {
    /// An answer of this status, with which this is told.
    pub fn new(status: Status, told: Vec<u8>) -> Answer
        ensures { result ≡ telling status told.items }
    {
        Answer { status, told }
    }

    /// The status.
    pub fn status(&self) -> Status
        ensures { result ≡ self.now.status }
    {
        self.status
    }

    /// The text of the output, or the line of complaint with its line break.
    pub fn told(&self) -> &[u8]
        ensures { result.now ≡ self.now.told }
    {
        &self.told
    }
}

/// A line is to be complained.
pub fn complained(status: Status, line: String) -> Answer
    ensures { result ≡ telling status (string_bytes line) }
{
    Answer::new(status, line.into_bytes())
}

/// The words are of no known shape. The one error is want of memory, here and below.
pub fn usage(alloc: Global) -> Result<Answer, AllocError>
    ensures { IfOk result (λ answer. answer ≡ usage_answer) }
{
    Ok(complained(Status::Usage, lines::usage(alloc)?))
}

/// A file of this name can't be read.
pub fn unread(alloc: Global, name: &str) -> Result<Answer, AllocError>
    ensures { IfOk result (λ answer. answer ≡ unread_answer name.now) }
{
    Ok(complained(Status::HostFault, lines::unread(alloc, name)?))
}

/// A file of this name has more than so many bytes.
pub fn too_long(alloc: Global, name: &str, limit: usize) -> Result<Answer, AllocError>
    ensures { IfOk result (λ answer. answer ≡ too_long_answer name.now limit) }
{
    Ok(complained(Status::Limit, lines::too_long(alloc, name, limit)?))
}
