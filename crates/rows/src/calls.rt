// Calls of the tool over a host in memory.

use crate::report::Report;
use gd_host::MemoryHost;
use std::alloc::{AllocError, Global};
use top_call::gadara;

/// Files by their names.
pub type Files = Vec<(String, Vec<u8>)>;

/// A call, and what is wanted of it.
#[derive(Clone, Copy)]
pub struct Call<'a> {
    /// The words.
    pub words: &'a str,
    /// The status.
    pub status: &'a str,
    /// What is written.
    pub out: &'a [u8],
    /// What is complained.
    pub err: &'a [u8],
    /// How many bytes may be written.
    pub room: usize,
    /// The numbers of the host's calls that fail.
    pub fails: &'a str,
}

/// Copies of files.
fn copied(alloc: Global, files: &Files) -> Result<Files, AllocError> {
    let mut copies = Vec::new(alloc);
    for (name, text) in files.iter() {
        copies.push((
            String::from_str(alloc, name.as_str())?,
            Vec::from_slice(alloc, text.as_slice())?,
        ))?;
    }
    Ok(copies)
}

/// The words of a line; two quotes are an empty one.
fn words_of(alloc: Global, line: &str) -> Result<Vec<String>, AllocError> {
    let mut words = Vec::new(alloc);
    for word in line.split_whitespace() {
        let text = if word == "\"\"" { "" } else { word };
        words.push(String::from_str(alloc, text)?)?;
    }
    Ok(words)
}

/// The numbers of a line.
fn numbers_of(alloc: Global, line: &str) -> Result<Vec<u64>, AllocError> {
    let mut numbers = Vec::new(alloc);
    for word in line.split_whitespace() {
        numbers.push(word.parse::<u64>().unwrap_or(0))?;
    }
    Ok(numbers)
}

/// Compares how a call ends, and what it writes and complains, with what is wanted.
pub fn judge_call(
    alloc: Global,
    files: &Files,
    call: Call,
    report: &mut Report,
) -> Result<(), AllocError> {
    let files = copied(alloc, files)?;
    let fails = numbers_of(alloc, call.fails)?;
    let mut host = MemoryHost::new(alloc, files, call.room, fails)?;
    let words = words_of(alloc, call.words)?;
    let status = gadara(alloc, &words, &mut host);
    let number = format!(in alloc; "{}", status.number())?;
    report.compare(alloc, call.words, number.as_str(), call.status)?;
    report.compare_bytes(alloc, call.words, host.out(), call.out)?;
    report.compare_bytes(alloc, call.words, host.err(), call.err)
}
