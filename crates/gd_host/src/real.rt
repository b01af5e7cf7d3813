// The host over the runtime. It tells no content, and counts what fails.
ghost use Rattle.std.specs.Prelude.{◌≡◌, ◌≤◌, ◌<◌, length, is_err, None, IfSome, IfOk, OnOk, OnErr, IsErrOf};
ghost use Rattle.std.specs.Io.KnownBytes.{Appends};
ghost use Rattle.gd_host.specs.Outside.{greatest_count, counted};
ghost use Rattle.gd_host.specs.Real.{AppendsFront};

use crate::{EmitFailed, FetchError, Host};
use std::alloc::Global;
use std::fs;
use std::io::{self, Read, Write};
use std::rt::Runtime;

/// How many bytes one turn of reading takes at most.
const PIECE: usize = 4096;

/// The host that reaches the system: its files, standard input and both outputs.
///
/// It tells none of their content, and each `Err` of a method adds one to the count of that method.
#[derive(Drop)]
pub struct RealHost<R: Runtime> {
    rt: R,
    read_faults: u64,
    write_faults: u64,
    lost: u64,
    ghost bounded: { (read_faults ≤ greatest_count) × (write_faults ≤ greatest_count) × (lost ≤ greatest_count) },
}

impl<R: Runtime> RealHost<R> {
    /// A host over this runtime, whose calls have not failed yet.
    pub fn new(rt: R) -> RealHost<R>
        ensures read_faults { result.read_faults ≡ 0 }
        ensures write_faults { result.write_faults ≡ 0 }
        ensures lost { result.lost ≡ 0 }
    {
        RealHost {
            rt,
            read_faults: 0,
            write_faults: 0,
            lost: 0,
        }
    }
}

/// All the bytes that a reader has left, which are at most so many. Each turn takes at least one byte,
/// and none is taken after the first that is too many.
fn read_all<S: Read>(alloc: Global, source: &mut S, limit: usize) -> Result<Vec<u8>, FetchError>
    ensures within { IfOk result (λ bytes. length bytes.items ≤ limit) }
    ensures whole { IfSome (S.remaining source.old) (λ left. IfOk result (λ bytes. bytes.items ≡ left)) }
    ensures too_long { IfSome (S.remaining source.old)
        (λ left. IsErrOf result FetchError.TooLong → limit < length left) }
{
    let mut bytes = Vec::new(alloc);
    let mut piece = [0u8; PIECE];
    while bytes.len() <= limit {
        let wanted = (limit - bytes.len()).min(PIECE - 1) + 1;
        let count = source
            .read(&mut piece[..wanted])
            .map_err(|_| FetchError::Failed)?;
        if count == 0 {
            return Ok(bytes);
        }
        bytes.extend_from_slice(&piece[..count])?;
    }
    Err(FetchError::TooLong)
}

/// The file of a name; `-` is standard input.
fn read_name<R: Runtime>(
    rt: &R,
    alloc: Global,
    name: &str,
    limit: usize,
) -> Result<Vec<u8>, FetchError>
    ensures { IfOk result (λ bytes. length bytes.items ≤ limit) }
{
    if name == "-" {
        return read_all(alloc, &mut rt.reader(), limit);
    }
    let mut file = fs::open(rt, name).map_err(|_| FetchError::Failed)?;
    read_all(alloc, &mut file, limit)
}

/// Writes all the bytes, or a front of them. A turn that takes none of them is a fault.
fn write_all<W: Write>(output: &mut W, bytes: &[u8]) -> Result<(), EmitFailed>
    ensures ok { OnOk result (Appends (W.contents output.old) (W.contents output.new) bytes.now) }
    ensures err { OnErr result (AppendsFront (W.contents output.old) (W.contents output.new) bytes.now) }
{
    let mut written = 0;
    while written < bytes.len() {
        match output.write(&bytes[written..]) {
            Ok(0) | Err(_) => return Err(EmitFailed),
            Ok(count) => written += count,
        }
    }
    Ok(())
}

/// Prints the bytes, which are to be text, to the standard error output.
fn print_error<R: Runtime>(rt: &R, bytes: &[u8]) -> Result<(), EmitFailed> {
    let text = str::from_utf8(bytes).map_err(|_| EmitFailed)?;
    rt.eprint(text).map_err(|_| EmitFailed)
}

impl<R: Runtime> Host for RealHost<R> {
    ghost seen = { λ h. record {
      files = None;
      out = None;
      err = None;
      asked = None;
      read_faults = h.read_faults;
      write_faults = h.write_faults;
      lost = h.lost;
    } };

    fn fetch(&mut self, alloc: Global, name: &str, limit: usize) -> Result<Vec<u8>, FetchError>
        ensures within { IfOk result (λ bytes. length bytes.items ≤ limit) }
        ensures counted { self.new.read_faults ≡ counted (is_err result) self.old.read_faults }
        ensures write_faults { self.new.write_faults ≡ self.old.write_faults }
        ensures lost { self.new.lost ≡ self.old.lost }
    {
        match read_name(&self.rt, alloc, name, limit) {
            Ok(bytes) => Ok(bytes),
            Err(error) => {
                self.read_faults = self.read_faults.saturating_add(1);
                Err(error)
            }
        }
    }

    fn emit(&mut self, bytes: &[u8]) -> Result<(), EmitFailed>
        ensures counted { self.new.write_faults ≡ counted (is_err result) self.old.write_faults }
        ensures read_faults { self.new.read_faults ≡ self.old.read_faults }
        ensures lost { self.new.lost ≡ self.old.lost }
    {
        match write_all(&mut io::writer(&self.rt), bytes) {
            Ok(()) => Ok(()),
            Err(error) => {
                self.write_faults = self.write_faults.saturating_add(1);
                Err(error)
            }
        }
    }

    fn complain(&mut self, bytes: &[u8]) -> Result<(), EmitFailed>
        ensures counted { self.new.lost ≡ counted (is_err result) self.old.lost }
        ensures read_faults { self.new.read_faults ≡ self.old.read_faults }
        ensures write_faults { self.new.write_faults ≡ self.old.write_faults }
    {
        match print_error(&self.rt, bytes) {
            Ok(()) => Ok(()),
            Err(error) => {
                self.lost = self.lost.saturating_add(1);
                Err(error)
            }
        }
    }
}

#[cfg(test)]
mod tests {
    use super::RealHost;
    use crate::{FetchError, Host};
    use std::{fs, io};

    const NAME: &str = "gd_host_real_test.txt";

    // The system gives what was written before, and a count goes up at each refusal.
    #[test]
    fn reaches_the_system(rt: HostRuntime) -> io::Result<()> {
        let alloc = rt.alloc();
        fs::write(&rt, NAME, "int main")?;
        let mut host = RealHost::new(rt);
        let whole = host.fetch(alloc, NAME, 8);
        let past_the_limit = host.fetch(alloc, NAME, 7);
        let directory = host.fetch(alloc, ".", 8);
        fs::remove_file(&rt, NAME)?;
        let absent = host.fetch(alloc, NAME, 8);
        assert_eq!(rt;
            whole.as_ref().map(Vec::as_slice),
            Ok(b"int main".as_slice())
        );
        assert_eq!(rt; past_the_limit.err(), Some(FetchError::TooLong));
        assert_eq!(rt; directory.err(), Some(FetchError::Failed));
        assert_eq!(rt; absent.err(), Some(FetchError::Failed));
        assert_eq!(rt; host.read_faults, 3);
        assert!(rt; host.emit(b"").is_ok());
        assert!(rt; host.complain(b"").is_ok());
        assert!(rt; host.complain(b"\xff").is_err());
        assert_eq!(rt; (host.write_faults, host.lost), (0, 1));
        Ok(())
    }
}
