// What the tool may know of the outside.
ghost use Rattle.std.specs.Prelude.{◌≡◌, ◌≢◌, ◌≤◌, length, IfSome, IfOk, IsErrOf};
ghost use Rattle.gd_host.specs.declared.host.FetchError.TheVariants.{Memory};
ghost use Rattle.gd_host.specs.Outside.{Seen, Rose, HoldsFile, IsLong, Asks, Adds, HasCause, HasBoundedCounts};

use std::alloc::{AllocError, Global};
use thiserror::Error;

/// Why a file was not handed over.
#[derive(Clone, Copy, Debug, PartialEq, Eq, Error)]
pub enum FetchError {
    /// The call failed: there is no such file, or it could not be read to its end.
    #[error("cannot read")]
    Failed,
    /// The file has more bytes than the caller takes.
    #[error("too long")]
    TooLong,
    /// There was no memory for the file.
    #[error("out of memory")]
    Memory,
}

impl From<AllocError> for FetchError {
    ghost from_gives = { λ _ error. error ≡ Memory };

    fn from(_: AllocError) -> FetchError {
        FetchError::Memory
    }
}

/// Not all of the bytes could be written.
#[derive(Clone, Copy, Debug, PartialEq, Eq, Error)]
#[error("cannot write")]
pub struct EmitFailed;

/// Where the tool's files come from, and where its text goes.
///
/// What a host means at a moment is `seen`: its files, what was written to the output and to the
/// complaints, the names that were asked for, each told or not, and how many calls of each method
/// failed so far. A count stands still at `u64::MAX`.
pub trait Host {
    /// What the host means at a moment.
    ghost seen: { Self → Seen };

    /// The whole file of a name, which has at most `limit` bytes; the name `-` is standard input.
    ///
    /// It fails only where the count of read faults rose. Where the files are told, the answer is the
    /// file of that name, and `TooLong` comes exactly where that file has more than `limit` bytes and
    /// the call neither failed nor lacked memory.
    fn fetch(&mut self, alloc: Global, name: &str, limit: usize) -> Result<Vec<u8>, FetchError>
        ensures within { IfOk result (λ bytes. length bytes.items ≤ limit) }
        ensures whole { IfSome (seen self.old).files
            (λ files. IfOk result (λ bytes. HoldsFile files name.now bytes.items)) }
        ensures too_long { IfSome (seen self.old).files
            (λ files. IsErrOf result FetchError.TooLong → IsLong files name.now limit) }
        ensures not_too_long { IfSome (seen self.old).files
            (λ files. IsLong files name.now limit → result ≢ Err FetchError.Failed
            → result ≢ Err FetchError.Memory → IsErrOf result FetchError.TooLong) }
        ensures failed { IsErrOf result FetchError.Failed
            → Rose (seen self.old).read_faults (seen self.new).read_faults }
        ensures never_falls { (seen self.old).read_faults ≤ (seen self.new).read_faults }
        ensures bounded { HasBoundedCounts (seen self.new) }
        ensures asked { Asks (seen self.old).asked (seen self.new).asked name.now result }
        ensures files { (seen self.new).files ≡ (seen self.old).files }
        ensures out { (seen self.new).out ≡ (seen self.old).out }
        ensures err { (seen self.new).err ≡ (seen self.old).err }
        ensures write_faults { (seen self.new).write_faults ≡ (seen self.old).write_faults }
        ensures lost { (seen self.new).lost ≡ (seen self.old).lost };

    /// Adds bytes to the output.
    ///
    /// Where it fails, a front of the bytes was added, which may be empty, and the count of write
    /// faults rose.
    fn emit(&mut self, bytes: &[u8]) -> Result<(), EmitFailed>
        ensures added { Adds (seen self.old).out (seen self.new).out bytes.now result }
        ensures cause { HasCause (seen self.old).write_faults (seen self.new).write_faults result }
        ensures bounded { HasBoundedCounts (seen self.new) }
        ensures files { (seen self.new).files ≡ (seen self.old).files }
        ensures err { (seen self.new).err ≡ (seen self.old).err }
        ensures asked { (seen self.new).asked ≡ (seen self.old).asked }
        ensures read_faults { (seen self.new).read_faults ≡ (seen self.old).read_faults }
        ensures lost { (seen self.new).lost ≡ (seen self.old).lost };

    /// Adds bytes to the complaints.
    ///
    /// Where it fails, a front of the bytes was added, which may be empty, and the count of lost
    /// complaints rose.
    fn complain(&mut self, bytes: &[u8]) -> Result<(), EmitFailed>
        ensures added { Adds (seen self.old).err (seen self.new).err bytes.now result }
        ensures cause { HasCause (seen self.old).lost (seen self.new).lost result }
        ensures bounded { HasBoundedCounts (seen self.new) }
        ensures files { (seen self.new).files ≡ (seen self.old).files }
        ensures out { (seen self.new).out ≡ (seen self.old).out }
        ensures asked { (seen self.new).asked ≡ (seen self.old).asked }
        ensures read_faults { (seen self.new).read_faults ≡ (seen self.old).read_faults }
        ensures write_faults { (seen self.new).write_faults ≡ (seen self.old).write_faults };
}
