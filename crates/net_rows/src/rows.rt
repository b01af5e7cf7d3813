// The rows of a table, one after the other.

use crate::answers::{arcs, component, first, judged, siphon};
use crate::checks::{checked, listed};
use crate::items::{fields, is_inner, is_silent, number, worded};
use crate::lines::{kind_of, mask_of};
use crate::locks::net_of_locks;
use crate::measure::measured;
use crate::nets::net_of;
use crate::report::Report;
use crate::siphons::minimal;
use crate::weights::said_of_weights;
use flow_checks::names_resources;
use gadara_net::Net;
use std::alloc::{AllocError, Global};
use std::io;

/// What the net answers to a question about a set, in words.
fn said_of_set(alloc: Global, net: &Net, word: &str, text: &str) -> Result<String, AllocError> {
    let Some(resources) = mask_of(text) else {
        return String::from_str(alloc, "no set");
    };
    if !names_resources(net, resources) {
        return String::from_str(alloc, "no resources");
    }
    match word {
        "siphon" => siphon(alloc, net, resources),
        "first" => first(alloc, net, resources),
        "weights" | "moved" | "entry" | "waiting" | "capacity" => {
            said_of_weights(alloc, net, word, resources)
        }
        _ => String::from_str(alloc, "no question"),
    }
}

/// Whether a line holds, in words.
fn said_of_line(alloc: Global, net: &Net, text: &str) -> Result<String, AllocError> {
    let (resources, kind) = text.split_once(" by ").unwrap_or((text, ""));
    let kind = kind_of(alloc, kind)?;
    match (mask_of(resources), kind) {
        (Some(resources), Some(kind)) => judged(alloc, net, resources, kind),
        _ => String::from_str(alloc, "no line"),
    }
}

/// What the net answers to a question, in words.
fn said(alloc: Global, net: &Net, question: &str) -> Result<String, AllocError> {
    let (word, text) = worded(question);
    match word {
        "arcs" => arcs(alloc, net),
        "candidates" => listed(alloc, net),
        "check" => checked(alloc, net, text),
        "component" => component(alloc, net, number(text).unwrap_or(u32::MAX)),
        "line" => said_of_line(alloc, net, text),
        "minimal" => minimal(alloc, net, number(text).unwrap_or(u32::MAX)),
        _ => said_of_set(alloc, net, word, text),
    }
}

/// A row whose lines are being read.
#[derive(Drop)]
struct Row {
    /// Its first line.
    head: String,
    /// The lines behind it.
    block: String,
}

/// What the rows so far have set: the net that the rows behind it ask.
#[derive(Drop)]
struct Scene {
    net: Option<Net>,
}

/// Compares what the net answers to a question with what is wanted.
fn judge_question(
    alloc: Global,
    net: &Net,
    head: &str,
    report: &mut Report,
) -> Result<(), AllocError> {
    let (question, wanted) = fields(head);
    let answer = said(alloc, net, question)?;
    report.compare(alloc, head, answer.as_str(), wanted.unwrap_or(""))
}

impl Scene {
    /// Does what a row with the lines behind it says.
    fn judge_row(
        &mut self,
        rt: &HostRuntime,
        head: &str,
        block: &str,
        report: &mut Report,
    ) -> io::Result<()> {
        let alloc = rt.alloc();
        let (word, rest) = worded(head);
        let made = match word {
            "net" => Some(net_of(alloc, rest, block)?),
            "locks" => Some(net_of_locks(alloc, rest)?),
            _ => None,
        };
        if let Some(net) = made {
            self.net = net;
            if self.net.is_none() {
                report.unread(alloc, head)?;
            }
            return Ok(());
        }
        match &self.net {
            Some(net) if word == "measure" => {
                let line = measured(rt, net, rest)?;
                report.lines.push(line)?;
            }
            Some(net) => judge_question(alloc, net, head, report)?,
            None => report.unread(alloc, head)?,
        }
        Ok(())
    }

    /// Ends a row, if there is one: its answers are compared.
    fn end_row(&mut self, rt: &HostRuntime, row: &mut Row, report: &mut Report) -> io::Result<()> {
        if !row.head.is_empty() {
            self.judge_row(rt, row.head.as_str(), row.block.as_str(), report)?;
        }
        row.head.clear();
        row.block.clear();
        Ok(())
    }

    /// Takes the next line of a table.
    fn take_line(
        &mut self,
        rt: &HostRuntime,
        row: &mut Row,
        line: &str,
        report: &mut Report,
    ) -> io::Result<()> {
        if is_silent(line) {
            return Ok(());
        }
        if is_inner(line) {
            row.block.push_str(line.trim_start())?;
            row.block.push('\n')?;
            return Ok(());
        }
        self.end_row(rt, row, report)?;
        row.head.push_str(line)?;
        Ok(())
    }
}

/// Compares the answers of each row of a table.
pub fn judge(rt: &HostRuntime, table: &str, report: &mut Report) -> io::Result<()> {
    let mut scene = Scene { net: None };
    let mut row = Row {
        head: String::new(rt.alloc()),
        block: String::new(rt.alloc()),
    };
    for line in table.lines() {
        scene.take_line(rt, &mut row, line, report)?;
    }
    scene.end_row(rt, &mut row, report)
}
