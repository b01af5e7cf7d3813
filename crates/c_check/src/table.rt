// The numbers of a program's threads, mutexes and monitors.

ghost use Rattle.std.specs.Prelude.{◌≡◌, ◌<◌, ◌≤◌, ◌+◌, ◌++◌, ◌∷◌, [], length, map, IfOk, OnOk, unwrap_or, option_and_then, option_map, pos, slice_get, sum_by, IfSome};
ghost use Rattle.c_tree.specs.Expressions.{expr_of};
ghost use Rattle.c_tree.specs.Lined.{function_of, program_of, stmts_of, bare_object, bare_program, bare_stmts};
ghost use Rattle.c_tree.specs.Numbering as numbering;
ghost use Rattle.c_tree.specs.Values as values;
ghost use Rattle.c_rules.specs.declared.rule.Count.{Count as AnyCount};
ghost use Rattle.c_rules.specs.Counts as counts;
ghost use Rattle.c_check.specs.Tables as spec;

use crate::counts::find_main;
use crate::mutex::Mutex;
use crate::numbers::{Start, Table};
use c_names::constant;
use c_tree::{Act, Expr, Object, Program, Stmt, copy_name};
use std::alloc::{AllocError, Global};

/// The value of an argument, where it has one that fits its type.
fn argument(e: &Expr) -> i32
    ensures { result ≡ spec.argument (expr_of e.now) }
{
    match constant(e) {
        Some(value) => {
            if -2147483648 <= value && value <= 2147483647 {
                value as i32
            } else {
                0
            }
        }
        None => 0,
    }
}

/// The place of the function of a name; 0 where there is none.
fn place_of(p: &Program, name: &[u8]) -> u32
    requires { length p.now.functions < 1000000 }
    ensures { result ≡ spec.place_of (bare_program (program_of p.now)) name.now }
{
    p.find_function(name).unwrap_or(0) as u32
}

/// Main's own list of statements; empty where there is no main.
fn main_body(p: &Program) -> &[Stmt]
    ensures { bare_stmts (stmts_of result.now) ≡ numbering.main_body (bare_program (program_of p.now)) }
{
    match find_main(p.functions.as_slice()) {
        Some(main) => main.body.as_slice(),
        None => &[],
    }
}

/// Puts what the threads begin with behind others that these statements create. The one error is
/// want of memory.
fn push_starts(starts: &mut Vec<Start>, p: &Program, body: &[Stmt]) -> Result<(), AllocError>
    requires { length p.now.functions < 1000000 }
    ensures { OnOk result (starts.new.items ≡ starts.old.items ++ map (spec.start_of (bare_program (program_of p.now))) (numbering.creations_of (bare_stmts (stmts_of body.now)))) }
{
    for s in body {
        if let Act::Create { function, arg, .. } = &s.act {
            starts.push(Start {
                function: place_of(p, function.as_slice()),
                arg: argument(arg),
            })?;
        }
    }
    Ok(())
}

/// What the threads of a program begin with, main first. The one error is want of memory.
fn starts_of(alloc: Global, p: &Program) -> Result<Vec<Start>, AllocError>
    requires { length p.now.functions < 1000000 }
    ensures { IfOk result (λ starts. starts.items ≡ spec.starts_of (bare_program (program_of p.now))) }
{
    let mut starts = Vec::new(alloc);
    starts.push(Start {
        function: place_of(p, b"main"),
        arg: 0,
    })?;
    push_starts(&mut starts, p, main_body(p))?;
    Ok(starts)
}

/// The mutexes of a program, numbered. The one error is want of memory.
fn mutexes_of(alloc: Global, mutexes: &[Object]) -> Result<Vec<Mutex>, AllocError>
    requires { sum_by spec.object_count mutexes.now < 4294967296 }
    ensures { IfOk result (λ all. map spec.numbered_of all.items ≡ spec.numbered_from 0 (map bare_object mutexes.now)) }
{
    let mut all = Vec::new(alloc);
    let mut total = 0;
    for m in mutexes {
        all.push(Mutex {
            name: copy_name(alloc, &m.name)?,
            len: m.len,
            first: total,
        })?;
        total += m.len.unwrap_or(1);
    }
    Ok(all)
}

/// The number of a member of mutexes, or of a single one.
fn member(m: &Mutex, index: Option<u32>) -> Option<u32>
    ensures { result ≡ numbering.member m.now.first m.now.len (option_map (λ k. pos k) index) }
{
    match (m.len, index) {
        (None, None) => Some(m.first),
        (Some(len), Some(k)) => { if k < len { Some(m.first + k) } else { None } }
        _ => None,
    }
}

/// The number of a mutex among these, by its name and its index.
fn resource_among(mutexes: &[Mutex], name: &[u8], index: Option<u32>) -> Option<u32>
    ensures { result ≡ spec.resource_in (map spec.numbered_of mutexes.now) name.now index }
{
    for m in mutexes {
        if m.name.as_slice() == name {
            return member(m, index);
        }
    }
    None
}

/// How many mutexes there are, with the members of arrays.
fn mutex_count(mutexes: &[Object]) -> u32
    requires { sum_by spec.object_count mutexes.now < 4294967296 }
    ensures { result ≡ sum_by spec.object_count mutexes.now }
{
    let mut total = 0;
    for m in mutexes {
        total += m.len.unwrap_or(1);
    }
    total
}

impl Table {
    /// The numbers of a program. The one error is want of memory.
    pub(crate) fn new(alloc: Global, p: &Program) -> Result<Table, AllocError>
        requires functions { length p.now.functions < 1000000 }
        requires within { (what : AnyCount) → counts.amount (program_of p.now) what ≤ counts.limit what }
        ensures { IfOk result (λ table. spec.numbers table ≡ spec.numbers_of (bare_program (program_of p.now))) }
    {
        let starts = starts_of(alloc, p)?;
        Ok(Table {
            thread_count: starts.len() as u32,
            starts,
            mutexes: mutexes_of(alloc, p.mutexes.as_slice())?,
            mutex_count: mutex_count(p.mutexes.as_slice()),
            monitors: p.monitors.len() as u32,
        })
    }

    /// How many threads there are, with main.
    pub fn threads(&self) -> u32
        ensures { result ≡ (spec.numbers self.now).thread_count }
    {
        self.thread_count
    }

    /// The place, counted from 0, of the function that a thread begins with.
    pub fn start_function(&self, t: u32) -> u32
        requires { t < length (spec.numbers self.now).starts }
        ensures { IfSome (slice_get (spec.numbers self.now).starts t) (λ start. result ≡ start.function) }
    {
        self.starts[t as usize].function
    }

    /// The argument that a thread begins with; 0 for main.
    pub fn start_arg(&self, t: u32) -> i32
        requires { t < length (spec.numbers self.now).starts }
        ensures { IfSome (slice_get (spec.numbers self.now).starts t) (λ start. result ≡ start.arg) }
    {
        self.starts[t as usize].arg
    }

    /// How many mutexes there are, with the members of arrays.
    pub fn mutexes(&self) -> u32
        ensures { result ≡ (spec.numbers self.now).mutex_count }
    {
        self.mutex_count
    }

    /// How many monitors there are.
    pub fn monitors(&self) -> u32
        ensures { result ≡ (spec.numbers self.now).monitors }
    {
        self.monitors
    }

    /// The number of a mutex, or of a member of an array of them; `None` exactly where the name is
    /// no mutex or the index doesn't fit it.
    pub fn resource(&self, name: &[u8], index: Option<u32>) -> Option<u32>
        ensures { result ≡ spec.resource_in (spec.numbers self.now).mutexes name.now index }
    {
        resource_among(self.mutexes.as_slice(), name, index)
    }
}
