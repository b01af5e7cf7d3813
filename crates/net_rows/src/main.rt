//! Runs tables of rows against nets, and prints each row of which something else comes than it says.
//!
//! The words of the command line name the tables, which are texts of lines. A blank line and one that begins with `#`
//! say nothing. A row is a line, with the lines behind it that begin with a blank. A row `net` writes a net, and the
//! rows behind it ask something of it and say after ` ~ ` what is wanted:
//!
//! ```text
//! net THREADS MUTEXES [TOKENS ..]    a net: its threads, its mutexes, and the tokens of each monitor behind them
//!  THREAD LINE [waiting] [R:COUNT ..] [~ plain TO] [~ OP R TO] ..
//!                                    a point: what it holds, and its edges, `OP` being acquire, try, reacquire or release
//! locks MUTEXES ~ R .., R .. ~ ..     a net: each thread locks nests of mutexes, and unlocks from the last to the first
//! arcs ~ R-S ..                      the arcs of hold-and-wait
//! component R ~ S ..                 the strong component of a resource
//! siphon R .. ~ PLACE ..             the least siphon of a set of resources: points, and resources as `r2`
//! first R .. ~ KIND; KIND            the first line that holds for a set, and it as a general line, or none
//! line R .. by KIND ~ holds          whether a line holds, or fails
//! candidates ~ R ..; R ..            the candidates in order
//! check R .. by KIND; .. ~ valid     what is found of a certificate of these lines
//! weights R .. ~ POINT:NUMBER ..     the weights for a set that aren't 0; so for `moved` and `entry`
//! waiting R .. ~ POINT               the first point at which a thread waits and whose moved weight isn't 0
//! capacity R .. ~ NUMBER             the capacity of a monitor for a set
//! minimal LIMIT ~ R ..; R ..         the minimal sets in order; or those listed and why not more
//! measure TIMES siphon R ..          prints how long the call takes, in nanoseconds; so for `first`, `weights`, `moved`,
//!                                    `minimal` and `check`
//! ```
//!
//! A kind is `thread I`, `guard R`, `monitor R` or `times D, resource R FACTOR, thread I FACTOR`, with any number of
//! parts. For each table it prints how many rows it has, and how many differ.
#![tactic(auto)]

mod answers;
mod checks;
mod items;
mod lines;
mod locks;
mod measure;
mod nets;
mod report;
mod rows;
mod siphons;
mod weights;

use report::Report;
use rows::judge;
use std::{env, fs, io};

/// Judges the rows of the tables that the command line names. What can't be had ends it.
fn main(rt: HostRuntime) -> io::Result<()> {
    let alloc = rt.alloc();
    for name in env::args(&rt)?.skip(1) {
        let text = fs::read_to_string(&rt, name.as_str())?;
        let mut report = Report::new(alloc);
        judge(&rt, text.as_str(), &mut report)?;
        for line in report.lines.iter() {
            println!(rt; "{name}: {line}")?;
        }
        println!(rt; "{name}: {} rows, {} differ", report.rows, report.differ)?;
    }
    Ok(())
}
