//! Runs tables of rows against the crates, and prints each row of which something else comes than it says.
//!
//! The words of the command line name the tables, which are texts of lines. A blank line and one that begins
//! with `#` say nothing. A row is a line, with the lines behind it that begin with a blank: a word, and
//! fields that are parted by ` ~ `. A field that is a text is put together of quoted pieces, in which
//! `\n`, `\t`, `\r`, `\"` and `\\` are as in C, of `$NAME`, which stands for the text of that name, and of
//! `*N`, by which the piece before it stands there `N` times. What is wanted is written as the answer's type
//! is written by Rust's `{:?}`.
//!
//! ```text
//! let NAME ~ TEXT                        the name stands for the text in the rows behind it
//! frame TEXT ~ TEXT                      what stands before and behind each text of the rows behind it
//! read TEXT ~ ANSWER                     what the parser answers
//! rules TEXT ~ ANSWER [~ ANSWER]         what the rules answer, of programs as they are written, and with monitors
//! source TEXT ~ ANSWER                   what the rules answer, of programs as they are written alone
//! each TEXT ~ TOKENS ~ TEXT [~ K:L ..]   what the parser answers once each token is cut off, missing, or wrong
//! table TEXT                             the numbers of a program, a line for each
//! schedule TEXT ~ ANSWER                 the events of a schedule, or how many they are, or what is wrong
//! input TEXT ~ ANSWER                    the numbers of an input, or what is wrong
//! run TEXT [~ NUMBER ..]                 a run with this input, a line for each event and for what is seen then
//! trace TEXT ~ TEXT ~ TEXT               the trace of a program by a schedule on an input: the lines, and how it ended
//! contexts TEXT ~ COUNT [NAME COUNT ..]  how many contexts a program has, and each of its functions that has more than one
//! flow TEXT ~ ANSWER                     that a program has points, or why it has none
//! points TEXT ~ COUNT                    how many points a program has, and a line for each, if there are lines
//! moves TEXT [~ NUMBER ..]               a run beside the points, a line for each event: what came, and where each thread may stand
//! file NAME ~ TEXT                       a file of the host in memory
//! call WORDS ~ STATUS ~ OUT ~ ERR [~ ROOM [~ FAILS]]   how the tool ends, and what it writes; two quotes are an empty word
//! ```
//!
//! For each table it prints how many rows it has, and how many differ.
#![tactic(auto)]

mod calls;
mod changes;
mod flows;
mod items;
mod judging;
mod moves;
mod report;
mod resolving;
mod runs;
mod said;
mod schedules;
mod standing;
mod tables;
mod texts;
mod traces;

use judging::judge;
use report::Report;
use std::{env, fs, io};

/// Judges the rows of the tables that the command line names. What can't be had ends it.
fn main(rt: HostRuntime) -> io::Result<()> {
    let alloc = rt.alloc();
    for name in env::args(&rt)?.skip(1) {
        let text = fs::read_to_string(&rt, name.as_str())?;
        let mut report = Report::new(alloc);
        judge(alloc, text.as_str(), &mut report)?;
        for line in report.lines.iter() {
            println!(rt; "{name}: {line}")?;
        }
        println!(rt; "{name}: {} rows, {} differ", report.rows, report.differ)?;
    }
    Ok(())
}
