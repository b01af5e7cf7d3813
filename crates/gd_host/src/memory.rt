// A host in memory, which tells all that it means.
ghost use Rattle.std.specs.Prelude.{[], ◌∷◌, ◌++◌, ◌≡◌, ◌≢◌, ◌≤◌, ◌&&◌, length, not, map, is_ok, IfOk, OnOk, OnErr, IsErrOf, option_map, slice_get, vec_capacity, if◌then◌else◌};
ghost use Rattle.gd_host.specs.Outside.{HasBoundedCounts, HasCause, greatest_count, one_more};
ghost use Rattle.gd_host.specs.Memory.{MemoryState, HasRoom, Answers, entries_of, first_of, names_of, seen_of, fresh, err_room, is_among, fits, filled, found, fetched, emits, complains, after_call, after_fetch, after_emit, after_complain};

use crate::{EmitFailed, FetchError, Host};
use std::alloc::{AllocError, Global};
use std::marker::Model;

const ERR_ROOM: usize = 65536;

/// A host whose files are given, whose output has limited room, and whose calls fail by their number.
///
/// Calls are counted from 1 over all three methods, and a call whose number is one of those that are
/// to fail does so and writes nothing. Each count stands still at `u64::MAX`.
#[derive(Drop)]
pub struct MemoryHost {
    alloc: Global,
    files: Vec<(String, Vec<u8>)>,
    out: Vec<u8>,
    err: Vec<u8>,
    asked: Vec<Vec<u8>>,
    room: usize,
    fails: Vec<u64>,
    calls: u64,
    read_faults: u64,
    write_faults: u64,
    lost: u64,
}

impl Model for MemoryHost {
    ghost Value = { MemoryState };

    ghost view = { λ h. record {
      files = entries_of h.files.items;
      out = h.out.items;
      err = h.err.items;
      asked = names_of h.asked.items;
      room = h.room;
      fails = h.fails.items;
      calls = h.calls;
      read_faults = h.read_faults;
      write_faults = h.write_faults;
      lost = h.lost;
    } };

    ghost invariant = { λ h. HasRoom h.room h.out × HasRoom err_room h.err
        × (h.read_faults ≤ greatest_count) × (h.write_faults ≤ greatest_count) × (h.lost ≤ greatest_count) };
}

impl MemoryHost {
    /// A host of these files, of which the first of two of one name counts, with room for so many
    /// bytes of output and 65,536 bytes of complaints. All that room is taken here, so a text that
    /// fits is never refused for want of memory.
    pub fn new(
        alloc: Global,
        files: Vec<(String, Vec<u8>)>,
        room: usize,
        fails: Vec<u64>,
    ) -> Result<MemoryHost, AllocError>
        ensures { IfOk result (λ host. host ≡ fresh (entries_of files.items) room fails.items) }
    {
        Ok(MemoryHost {
            alloc,
            files,
            out: Vec::with_capacity(alloc, room)?,
            err: Vec::with_capacity(alloc, ERR_ROOM)?,
            asked: Vec::new(alloc),
            room,
            fails,
            calls: 0,
            read_faults: 0,
            write_faults: 0,
            lost: 0,
        })
    }

    /// All that was written to the output so far.
    pub fn out(&self) -> &[u8]
        ensures { result.now ≡ self.now.out }
    {
        &self.out
    }

    /// All that was complained so far.
    pub fn err(&self) -> &[u8]
        ensures { result.now ≡ self.now.err }
    {
        &self.err
    }

    /// The name of that place, from 0, among those that were asked for; `None` exactly where there
    /// were not so many.
    pub fn asked(&self, n: usize) -> Option<&[u8]>
        ensures { option_map (λ name. name.now) result ≡ slice_get self.now.asked n }
    {
        self.asked.get(n).map(Vec::as_slice)
    }

    /// How many calls of `fetch` failed so far.
    pub fn read_faults(&self) -> u64
        ensures { result ≡ self.now.read_faults }
    {
        self.read_faults
    }

    /// How many calls of `emit` failed so far.
    pub fn write_faults(&self) -> u64
        ensures { result ≡ self.now.write_faults }
    {
        self.write_faults
    }

    /// How many calls of `complain` failed so far.
    pub fn lost(&self) -> u64
        ensures { result ≡ self.now.lost }
    {
        self.lost
    }
}

/// The bytes of the first file of a name.
fn find<'a>(files: &'a [(String, Vec<u8>)], name: &str) -> Option<&'a Vec<u8>>
    ensures { option_map (λ bytes. bytes.now.items) result ≡ first_of (entries_of files.now) name.now }
{
    for file in files {
        if name == file.0.as_str() {
            return Some(&file.1);
        }
    }
    None
}

/// A copy of the file of a name, where it has at most so many bytes.
fn read(
    alloc: Global,
    files: &[(String, Vec<u8>)],
    name: &str,
    limit: usize,
) -> Result<Vec<u8>, FetchError>
    ensures { Answers result (found (first_of (entries_of files.now) name.now) limit) }
{
    let Some(bytes) = find(files, name) else {
        return Err(FetchError::Failed);
    };
    if limit < bytes.len() {
        return Err(FetchError::TooLong);
    }
    Ok(Vec::from_slice(alloc, bytes)?)
}

/// What `read` answers, unless the call is to fail.
fn read_unless(
    is_to_fail: bool,
    alloc: Global,
    files: &[(String, Vec<u8>)],
    name: &str,
    limit: usize,
) -> Result<Vec<u8>, FetchError>
    ensures { Answers result (if is_to_fail then Err FetchError.Failed
        else found (first_of (entries_of files.now) name.now) limit) }
{
    if is_to_fail {
        return Err(FetchError::Failed);
    }
    read(alloc, files, name, limit)
}

/// Adds a name to those that were asked for.
fn note(alloc: Global, asked: &mut Vec<Vec<u8>>, name: &str) -> Result<(), AllocError>
    ensures ok { OnOk result (names_of asked.new.items ≡ names_of asked.old.items ++ name.now ∷ []) }
    ensures err { OnErr result (asked.new.items ≡ asked.old.items) }
{
    let name = Vec::from_slice(alloc, name.as_bytes())?;
    asked.push(name)?;
    Ok(())
}

/// Counts a call, and says whether it is to fail.
fn count_call(calls: &mut u64, fails: &[u64]) -> bool
    ensures calls { calls.new ≡ one_more calls.old }
    ensures fails { result ≡ is_among fails.now calls.new }
{
    *calls = calls.saturating_add(1);
    fails.contains(calls)
}

/// Adds as many of the bytes as there is room for, and says whether those were all.
fn fill(text: &mut Vec<u8>, room: usize, bytes: &[u8]) -> bool
    requires { HasRoom room text.old }
    ensures all { result ≡ fits room text.old.items bytes.now }
    ensures text { text.new.items ≡ filled room text.old.items bytes.now }
    ensures room { HasRoom room text.new }
{
    let left = room - text.len();
    let part = &bytes[..left.min(bytes.len())];
    text.extend_from_slice(part).is_ok() && bytes.len() <= left
}

/// What `fill` does, unless the call is to fail.
fn fill_unless(is_to_fail: bool, text: &mut Vec<u8>, room: usize, bytes: &[u8]) -> bool
    requires { HasRoom room text.old }
    ensures all { result ≡ (not is_to_fail && fits room text.old.items bytes.now) }
    ensures text { text.new.items ≡ (if is_to_fail then text.old.items
        else filled room text.old.items bytes.now) }
    ensures room { HasRoom room text.new }
{
    if is_to_fail {
        return false;
    }
    fill(text, room, bytes)
}

impl Host for MemoryHost {
    ghost seen = { seen_of };

    fn fetch(&mut self, alloc: Global, name: &str, limit: usize) -> Result<Vec<u8>, FetchError>
        ensures answer { Answers result (fetched self.old name.now limit) }
        ensures after { result ≢ Err FetchError.Memory → self.new ≡ after_fetch self.old name.now limit }
        ensures memory { IsErrOf result FetchError.Memory → self.new ≡ after_call self.old }
        ensures never_falls { self.old.read_faults ≤ self.new.read_faults }
        ensures bounded { HasBoundedCounts (seen_of self.new) }
    {
        let is_to_fail = count_call(&mut self.calls, &self.fails);
        match read_unless(is_to_fail, alloc, &self.files, name, limit) {
            Ok(bytes) => {
                note(self.alloc, &mut self.asked, name)?;
                Ok(bytes)
            }
            Err(FetchError::TooLong) => {
                note(self.alloc, &mut self.asked, name)?;
                Err(FetchError::TooLong)
            }
            Err(FetchError::Failed) => {
                note(self.alloc, &mut self.asked, name)?;
                self.read_faults = self.read_faults.saturating_add(1);
                Err(FetchError::Failed)
            }
            Err(FetchError::Memory) => Err(FetchError::Memory),
        }
    }

    fn emit(&mut self, bytes: &[u8]) -> Result<(), EmitFailed>
        ensures answer { is_ok result ≡ emits self.old bytes.now }
        ensures after { self.new ≡ after_emit self.old bytes.now }
        ensures cause { HasCause self.old.write_faults self.new.write_faults result }
        ensures bounded { HasBoundedCounts (seen_of self.new) }
    {
        let is_to_fail = count_call(&mut self.calls, &self.fails);
        if fill_unless(is_to_fail, &mut self.out, self.room, bytes) {
            return Ok(());
        }
        self.write_faults = self.write_faults.saturating_add(1);
        Err(EmitFailed)
    }

    fn complain(&mut self, bytes: &[u8]) -> Result<(), EmitFailed>
        ensures answer { is_ok result ≡ complains self.old bytes.now }
        ensures after { self.new ≡ after_complain self.old bytes.now }
        ensures cause { HasCause self.old.lost self.new.lost result }
        ensures bounded { HasBoundedCounts (seen_of self.new) }
    {
        let is_to_fail = count_call(&mut self.calls, &self.fails);
        if fill_unless(is_to_fail, &mut self.err, ERR_ROOM, bytes) {
            return Ok(());
        }
        self.lost = self.lost.saturating_add(1);
        Err(EmitFailed)
    }
}
