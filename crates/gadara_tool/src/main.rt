//! `gadara` instruments C programs with POSIX threads, so that they can't deadlock on their mutexes.
//! Its commands and statuses are told in the README.
#![tactic(auto)]

use answers::Status;
use gd_host::RealHost;
use std::process::ExitCode;
use std::{env, io};
use top_call::gadara;

/// Runs the tool on the words of the command line, and ends with its status as the number. Where the
/// words can't be had, or one of them isn't UTF-8, nothing is read or written, and it ends with 7 for
/// want of memory and else with 6.
fn main(rt: HostRuntime) -> ExitCode {
    let alloc = rt.alloc();
    let status = match words(&rt) {
        Ok(words) => gadara(alloc, &words, &mut RealHost::new(rt)),
        Err(error) if error.kind() == io::ErrorKind::OutOfMemory => Status::Memory,
        Err(_) => Status::HostFault,
    };
    ExitCode::from(status.number())
}

/// The words of the command line without the program's name.
fn words(rt: &HostRuntime) -> io::Result<Vec<String>> {
    let mut words = Vec::new(rt.alloc());
    for word in env::args(rt)?.skip(1) {
        words.push(word)?;
    }
    Ok(words)
}
