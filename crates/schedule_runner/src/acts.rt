// What an event did, as a line of a trace.
ghost use Rattle.std.specs.Prelude.{◌≡◌, ◌++◌, IfOk, OnOk, codes, decimal};
ghost use Rattle.c_check.specs.Tables as tables;
ghost use Rattle.c_check.specs.Written.{name_of};
ghost use Rattle.schedule_runner.specs.Acts as spec;

use c_check::Table;
use c_meaning::Did;
use sqlite_items::Items;
use std::alloc::{AllocError, Global};

/// A line without its line break.
pub type Line = Items<u8>;

/// Writes a word with the blank behind it, and a number.
fn put_number(out: &mut Vec<u8>, alloc: Global, word: &str, number: u32) -> Result<(), AllocError>
    ensures { OnOk result (out.new.items ≡ out.old.items ++ (word.now ++ decimal number)) }
{
    let text = format!(in alloc; "{number}")?;
    out.extend_from_slice(word.as_bytes())?;
    out.extend_from_slice(text.as_bytes())
}

/// Writes a word with the blank behind it, and the name of a mutex.
fn put_mutex(
    out: &mut Vec<u8>,
    alloc: Global,
    word: &str,
    table: &Table,
    mutex: u32,
) -> Result<(), AllocError>
    ensures { OnOk result (out.new.items ≡ out.old.items ++ (word.now ++ name_of (tables.numbers table.now) mutex)) }
{
    let name = table.write_name(alloc, mutex)?;
    out.extend_from_slice(word.as_bytes())?;
    out.extend_from_slice(name.as_slice())
}

/// Writes what was printed.
fn put_printing(out: &mut Vec<u8>, alloc: Global, printed: &[u8]) -> Result<(), AllocError>
    ensures { OnOk result (out.new.items ≡ out.old.items ++ spec.printing printed.now) }
{
    if printed.is_empty() {
        return out.extend_from_slice(b"print");
    }
    let digits = hex::encode(alloc, printed)?;
    out.extend_from_slice(b"print ")?;
    out.extend_from_slice(digits.as_bytes())
}

/// Writes what was done.
fn put_did(
    out: &mut Vec<u8>,
    alloc: Global,
    table: &Table,
    did: Did,
    printed: &[u8],
) -> Result<(), AllocError>
    ensures { OnOk result (out.new.items ≡ out.old.items ++ spec.did_text (tables.numbers table.now) did printed.now) }
{
    match did {
        Did::Create(thread) => put_number(out, alloc, "create ", thread),
        Did::Join(thread) => put_number(out, alloc, "join ", thread),
        Did::Lock(mutex) => put_mutex(out, alloc, "lock ", table, mutex),
        Did::Unlock(mutex) => put_mutex(out, alloc, "unlock ", table, mutex),
        Did::Take(monitor) => put_number(out, alloc, "take ", monitor),
        Did::Give(monitor) => put_number(out, alloc, "give ", monitor),
        Did::Wait(mutex) => put_mutex(out, alloc, "wait ", table, mutex),
        Did::Wake => out.extend_from_slice(b"wake"),
        Did::Retake(mutex) => put_mutex(out, alloc, "retake ", table, mutex),
        Did::Signal(Some(thread)) => put_number(out, alloc, "signal ", thread),
        Did::Signal(None) => out.extend_from_slice(b"signal none"),
        Did::Broadcast => out.extend_from_slice(b"broadcast"),
        Did::Read => out.extend_from_slice(b"read"),
        Did::Print => put_printing(out, alloc, printed),
        Did::End => out.extend_from_slice(b"end"),
        Did::Step => out.extend_from_slice(b"step"),
    }
}

/// The line of an act: the thread, and what it did. Threads and monitors are written by their numbers, mutexes by their
/// names, and the bytes that were printed in hexadecimal. The one error is want of memory.
pub fn act_line(
    alloc: Global,
    table: &Table,
    thread: u32,
    did: Did,
    printed: &[u8],
) -> Result<Line, AllocError>
    ensures { IfOk result (λ line. line ≡ spec.act_line (tables.numbers table.now) thread did printed.now) }
{
    let mut out = Vec::new(alloc);
    put_number(&mut out, alloc, "", thread)?;
    out.push(b' ')?;
    put_did(&mut out, alloc, table, did, printed)?;
    Ok(Items::from_vec(out))
}
