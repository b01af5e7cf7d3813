// The numbers of programs.

use crate::items::{fields, worded};
use crate::report::Report;
use crate::said::program_of;
use crate::texts::{Names, spelled};
use c_check::{Table, check};
use c_tree::Mode;
use std::alloc::{AllocError, Global};

/// The table of a text, if it spells a program that breaks no rule.
pub fn table_of(alloc: Global, text: &[u8]) -> Option<Table> {
    let p = program_of(alloc, text)?;
    if p.functions.len() >= 1000000 {
        return None;
    }
    check(alloc, &p, Mode::Any).ok()
}

/// The place of the function that a thread begins with, and its argument.
fn start(table: &Table, t: u32) -> Option<(u32, i32)> {
    if t < table.threads() {
        Some((table.start_function(t), table.start_arg(t)))
    } else {
        None
    }
}

/// The number of a name and an index, as a table of rows writes them.
fn resource(
    alloc: Global,
    names: &Names,
    table: &Table,
    words: &str,
) -> Result<Option<u32>, AllocError> {
    let (name, index) = worded(words);
    match spelled(alloc, names, name)? {
        Some(name) => Ok(table.resource(name.as_slice(), index.parse::<u32>().ok())),
        None => Ok(None),
    }
}

/// How a resource is written.
fn name(alloc: Global, table: &Table, words: &str) -> Result<String, AllocError> {
    let written = table.write_name(alloc, words.parse::<u32>().unwrap_or(u32::MAX))?;
    match str::from_utf8(written.as_slice()) {
        Ok(name) => String::from_str(alloc, name),
        Err(_) => String::from_str(alloc, "no text"),
    }
}

/// What a table says to a question, in words.
fn said(alloc: Global, names: &Names, table: &Table, question: &str) -> Result<String, AllocError> {
    let (word, words) = worded(question);
    match word {
        "threads" => format!(in alloc; "{}", table.threads()),
        "mutexes" => format!(in alloc; "{}", table.mutexes()),
        "monitors" => format!(in alloc; "{}", table.monitors()),
        "start" => {
            let start = start(table, words.parse::<u32>().unwrap_or(u32::MAX));
            format!(in alloc; "{start:?}")
        }
        "resource" => {
            let number = resource(alloc, names, table, words)?;
            format!(in alloc; "{number:?}")
        }
        "name" => name(alloc, table, words),
        _ => String::from_str(alloc, "no question"),
    }
}

/// Compares what a table says to each line of a row.
pub fn judge_table(
    alloc: Global,
    names: &Names,
    table: &Table,
    block: &str,
    report: &mut Report,
) -> Result<(), AllocError> {
    for line in block.lines() {
        let (question, wanted) = fields(line);
        let answer = said(alloc, names, table, question)?;
        report.compare(alloc, line, answer.as_str(), wanted.unwrap_or(""))?;
    }
    Ok(())
}
