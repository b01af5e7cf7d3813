// The names of resources, as they are written.

ghost use Rattle.std.specs.Prelude.{◌≡◌, ◌<◌, ◌≤◌, ◌+◌, ◌-◌, ◌++◌, ◌&&◌, nat_le, nat_lt, codes, find, map, option_copied, option_map, unwrap_or, IfOk, OnOk, IfSome};
ghost use Rattle.std.specs.Fmt.{decimal};
ghost use Rattle.c_check.specs.Tables as spec;
ghost use Rattle.c_check.specs.Written as written;

use crate::mutex::Mutex;
use crate::numbers::Table;
use c_tree::Name;
use sqlite_items::Items;
use std::alloc::{AllocError, Global};

/// An index in brackets.
fn put_index(out: &mut Vec<u8>, alloc: Global, index: u32) -> Result<(), AllocError>
    ensures { OnOk result (out.new.items ≡ out.old.items ++ written.bracketed index) }
{
    let digits = format!(in alloc; "[{index}]")?;
    out.extend_from_slice(digits.as_bytes())
}

/// The name of a mutex, or of a member of an array of them.
fn put_mutex(out: &mut Vec<u8>, alloc: Global, m: &Mutex, index: u32) -> Result<(), AllocError>
    ensures { OnOk result (out.new.items ≡ out.old.items ++ written.mutex_name (spec.numbered_of m.now) index) }
{
    out.extend_from_slice(m.name.as_slice())?;
    if m.len.is_some() {
        put_index(out, alloc, index)?;
    }
    Ok(())
}

/// Whether a mutex, or an array of them, has a resource.
fn holds(m: &Mutex, r: u32) -> bool
    ensures { result ≡ written.holds r (spec.numbered_of m.now) }
{
    m.first <= r && r < m.first + m.len.unwrap_or(1)
}

/// The mutex, or the array of them, that has a resource.
fn find_mutex(mutexes: &[Mutex], r: u32) -> Option<&Mutex>
    ensures { option_copied result ≡ find (λ m. written.holds r (spec.numbered_of m)) mutexes.now }
{
    mutexes.iter().find(|m| holds(m, r))
}

/// The name of a resource, where there are so many mutexes. The one error is want of memory.
fn put_resource(
    out: &mut Vec<u8>,
    alloc: Global,
    mutexes: &[Mutex],
    count: u32,
    r: u32,
) -> Result<(), AllocError>
    ensures { OnOk result (out.new.items ≡ out.old.items ++ written.name_by (find (written.holds r) (map spec.numbered_of mutexes.now)) count r) }
{
    match find_mutex(mutexes, r) {
        Some(m) => {
            put_mutex(out, alloc, m, r.saturating_sub(m.first))?;
            Ok(())
        }
        None => {
            put_monitor(out, alloc, r.saturating_sub(count))?;
            Ok(())
        }
    }
}

/// The name of a monitor. The one error is want of memory.
fn put_monitor(out: &mut Vec<u8>, alloc: Global, monitor: u32) -> Result<(), AllocError>
    ensures { OnOk result (out.new.items ≡ out.old.items ++ (codes "gd" ++ written.bracketed monitor)) }
{
    out.extend_from_slice(b"gd")?;
    put_index(out, alloc, monitor)
}

impl Table {
    /// The name of a resource as it is written: `a` or `a[1]` for a mutex, and `gd[0]` for the first
    /// monitor. It may be of a monitor that isn't there yet. The one error is want of memory.
    pub fn write_name(&self, alloc: Global, r: u32) -> Result<Name, AllocError>
        ensures { IfOk result (λ name. name ≡ written.name_of (spec.numbers self.now) r) }
    {
        let mut out = Vec::new(alloc);
        put_resource(
            &mut out,
            alloc,
            self.mutexes.as_slice(),
            self.mutex_count,
            r,
        )?;
        Ok(Items::from_vec(out))
    }
}
