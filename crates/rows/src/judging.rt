// The rows of a table, one after the other.

use crate::calls::{Call, Files, judge_call};
use crate::changes::{Sample, judge_changes};
use crate::flows::{judge_flow, judge_points};
use crate::items::{fields, is_inner, is_silent, worded};
use crate::moves::judge_moves;
use crate::report::Report;
use crate::resolving::judge_contexts;
use crate::runs::judge_run;
use crate::said::{read, ruled};
use crate::schedules::{input_read, schedule_read};
use crate::tables::{judge_table, table_of};
use crate::texts::{Names, between, spelled};
use crate::traces::{Texts, judge_trace};
use c_tree::Mode;
use std::alloc::{AllocError, Global};

/// What the rows so far have set.
#[derive(Drop)]
struct Scene {
    /// Texts that have a name.
    names: Names,
    /// What stands before each text.
    before: Vec<u8>,
    /// What stands behind each text.
    behind: Vec<u8>,
    /// The files of the host.
    files: Files,
}

/// How many bytes may be written where a row doesn't say it.
const ROOM: usize = 1000;

impl Scene {
    /// A text in its frame.
    fn framed(&self, alloc: Global, field: &str) -> Result<Option<Vec<u8>>, AllocError> {
        match spelled(alloc, &self.names, field)? {
            Some(text) => Ok(Some(between(alloc, &self.before, &text, &self.behind)?)),
            None => Ok(None),
        }
    }

    /// Gives a text a name. Whether the row is one.
    fn set_name(&mut self, alloc: Global, rest: &str) -> Result<bool, AllocError> {
        let (name, text) = fields(rest);
        let Some(text) = spelled(alloc, &self.names, text.unwrap_or("?"))? else {
            return Ok(false);
        };
        self.names.push((String::from_str(alloc, name)?, text))?;
        Ok(true)
    }

    /// Sets what stands before and behind each text. Whether the row is one.
    fn set_frame(&mut self, alloc: Global, rest: &str) -> Result<bool, AllocError> {
        let (before, behind) = fields(rest);
        let before = spelled(alloc, &self.names, before)?;
        let behind = spelled(alloc, &self.names, behind.unwrap_or("?"))?;
        match (before, behind) {
            (Some(before), Some(behind)) => {
                self.before = before;
                self.behind = behind;
                Ok(true)
            }
            _ => Ok(false),
        }
    }

    /// Adds a file. Whether the row is one.
    fn add_file(&mut self, alloc: Global, rest: &str) -> Result<bool, AllocError> {
        let (name, text) = fields(rest);
        let Some(text) = spelled(alloc, &self.names, text.unwrap_or("?"))? else {
            return Ok(false);
        };
        self.files.push((String::from_str(alloc, name)?, text))?;
        Ok(true)
    }

    /// What the parser answers. Whether the row is one.
    fn judge_read(
        &self,
        alloc: Global,
        rest: &str,
        report: &mut Report,
    ) -> Result<bool, AllocError> {
        let (text, wanted) = fields(rest);
        let Some(text) = self.framed(alloc, text)? else {
            return Ok(false);
        };
        let answer = read(alloc, text.as_slice())?;
        report.compare(alloc, rest, answer.as_str(), wanted.unwrap_or(""))?;
        Ok(true)
    }

    /// What the rules answer, of programs as they are written, and of those that may have monitors. Whether the
    /// row is one.
    fn judge_rules(
        &self,
        alloc: Global,
        rest: &str,
        report: &mut Report,
    ) -> Result<bool, AllocError> {
        let (text, wanted) = fields(rest);
        let (source, any) = fields(wanted.unwrap_or(""));
        let Some(text) = self.framed(alloc, text)? else {
            return Ok(false);
        };
        let answer = ruled(alloc, text.as_slice(), Mode::Source)?;
        report.compare(alloc, rest, answer.as_str(), source)?;
        let answer = ruled(alloc, text.as_slice(), Mode::Any)?;
        report.compare(alloc, rest, answer.as_str(), any.unwrap_or(source))?;
        Ok(true)
    }

    /// What the rules answer, of programs as they are written alone. Whether the row is one.
    fn judge_source(
        &self,
        alloc: Global,
        rest: &str,
        report: &mut Report,
    ) -> Result<bool, AllocError> {
        let (text, wanted) = fields(rest);
        let Some(text) = self.framed(alloc, text)? else {
            return Ok(false);
        };
        let answer = ruled(alloc, text.as_slice(), Mode::Source)?;
        report.compare(alloc, rest, answer.as_str(), wanted.unwrap_or(""))?;
        Ok(true)
    }

    /// How many contexts a program has. Whether the row is one.
    fn judge_places(
        &self,
        alloc: Global,
        rest: &str,
        report: &mut Report,
    ) -> Result<bool, AllocError> {
        let (text, wanted) = fields(rest);
        let Some(text) = self.framed(alloc, text)? else {
            return Ok(false);
        };
        judge_contexts(alloc, text.as_slice(), rest, wanted.unwrap_or(""), report)?;
        Ok(true)
    }

    /// Whether a program has points, or which points it has. Whether the row is one.
    fn judge_control(
        &self,
        alloc: Global,
        word: &str,
        rest: &str,
        block: &str,
        report: &mut Report,
    ) -> Result<bool, AllocError> {
        let (text, wanted) = fields(rest);
        let wanted = wanted.unwrap_or("");
        let Some(text) = self.framed(alloc, text)? else {
            return Ok(false);
        };
        if word == "flow" {
            judge_flow(alloc, text.as_slice(), rest, wanted, report)?;
        } else {
            judge_points(alloc, text.as_slice(), rest, wanted, block, report)?;
        }
        Ok(true)
    }

    /// What the parser answers where a token is changed. Whether the row is one.
    fn judge_each(
        &self,
        alloc: Global,
        rest: &str,
        report: &mut Report,
    ) -> Result<bool, AllocError> {
        let (before, rest) = fields(rest);
        let (tokens, rest) = fields(rest.unwrap_or(""));
        let (behind, missing) = fields(rest.unwrap_or("?"));
        let before = spelled(alloc, &self.names, before)?;
        let behind = spelled(alloc, &self.names, behind)?;
        match (before, behind) {
            (Some(before), Some(behind)) => {
                let sample = Sample {
                    before: before.as_slice(),
                    tokens,
                    behind: behind.as_slice(),
                    missing: missing.unwrap_or(""),
                };
                judge_changes(alloc, sample, report)?;
                Ok(true)
            }
            _ => Ok(false),
        }
    }

    /// The numbers of a program. Whether the row is one.
    fn judge_numbers(
        &self,
        alloc: Global,
        rest: &str,
        block: &str,
        report: &mut Report,
    ) -> Result<bool, AllocError> {
        let Some(text) = self.framed(alloc, rest)? else {
            return Ok(false);
        };
        match table_of(alloc, text.as_slice()) {
            Some(table) => {
                judge_table(alloc, &self.names, &table, block, report)?;
                Ok(true)
            }
            None => Ok(false),
        }
    }

    /// What a text is answered as a schedule, or as an input. Whether the row is one.
    fn judge_events_text(
        &self,
        alloc: Global,
        word: &str,
        rest: &str,
        report: &mut Report,
    ) -> Result<bool, AllocError> {
        let (text, wanted) = fields(rest);
        let Some(text) = self.framed(alloc, text)? else {
            return Ok(false);
        };
        let answer = if word == "schedule" {
            schedule_read(alloc, text.as_slice())?
        } else {
            input_read(alloc, text.as_slice())?
        };
        report.compare(alloc, rest, answer.as_str(), wanted.unwrap_or(""))?;
        Ok(true)
    }

    /// A run of a program. Whether the row is one.
    fn judge_events(
        &self,
        alloc: Global,
        rest: &str,
        block: &str,
        report: &mut Report,
    ) -> Result<bool, AllocError> {
        let (text, input) = fields(rest);
        let Some(text) = self.framed(alloc, text)? else {
            return Ok(false);
        };
        let input = input.unwrap_or("");
        judge_run(alloc, &self.names, text.as_slice(), input, block, report)
    }

    /// A run of a program beside its points. Whether the row is one.
    fn judge_standing(
        &self,
        alloc: Global,
        rest: &str,
        block: &str,
        report: &mut Report,
    ) -> Result<bool, AllocError> {
        let (text, input) = fields(rest);
        let Some(text) = self.framed(alloc, text)? else {
            return Ok(false);
        };
        let input = input.unwrap_or("");
        judge_moves(alloc, text.as_slice(), input, block, report)
    }

    /// The trace of a program by a schedule on an input. Whether the row is one.
    fn judge_schedule(
        &self,
        alloc: Global,
        rest: &str,
        block: &str,
        report: &mut Report,
    ) -> Result<bool, AllocError> {
        let (program, behind) = fields(rest);
        let (schedule, input) = fields(behind.unwrap_or("?"));
        let program = self.framed(alloc, program)?;
        let schedule = spelled(alloc, &self.names, schedule)?;
        let input = spelled(alloc, &self.names, input.unwrap_or("?"))?;
        match (program, schedule, input) {
            (Some(program), Some(schedule), Some(input)) => {
                let texts = Texts {
                    program: program.as_slice(),
                    schedule: schedule.as_slice(),
                    input: input.as_slice(),
                };
                judge_trace(alloc, texts, rest, block, report)
            }
            _ => Ok(false),
        }
    }

    /// How a call of the tool ends. Whether the row is one.
    fn judge_tool(
        &self,
        alloc: Global,
        rest: &str,
        report: &mut Report,
    ) -> Result<bool, AllocError> {
        let (words, rest) = fields(rest);
        let (status, rest) = fields(rest.unwrap_or(""));
        let (out, rest) = fields(rest.unwrap_or("?"));
        let (err, rest) = fields(rest.unwrap_or("?"));
        let (room, fails) = fields(rest.unwrap_or(""));
        let out = spelled(alloc, &self.names, out)?;
        let err = spelled(alloc, &self.names, err)?;
        match (out, err) {
            (Some(out), Some(err)) => {
                let call = Call {
                    words,
                    status,
                    out: out.as_slice(),
                    err: err.as_slice(),
                    room: room.parse::<usize>().unwrap_or(ROOM),
                    fails: fails.unwrap_or(""),
                };
                judge_call(alloc, &self.files, call, report)?;
                Ok(true)
            }
            _ => Ok(false),
        }
    }

    /// A row with the lines behind it. Whether it is one.
    fn judge_row(
        &mut self,
        alloc: Global,
        head: &str,
        block: &str,
        report: &mut Report,
    ) -> Result<bool, AllocError> {
        let (word, rest) = worded(head);
        match word {
            "" => Ok(true),
            "let" => self.set_name(alloc, rest),
            "frame" => self.set_frame(alloc, rest),
            "file" => self.add_file(alloc, rest),
            "read" => self.judge_read(alloc, rest, report),
            "rules" => self.judge_rules(alloc, rest, report),
            "source" => self.judge_source(alloc, rest, report),
            "each" => self.judge_each(alloc, rest, report),
            "contexts" => self.judge_places(alloc, rest, report),
            "flow" | "points" => self.judge_control(alloc, word, rest, block, report),
            "table" => self.judge_numbers(alloc, rest, block, report),
            "schedule" | "input" => self.judge_events_text(alloc, word, rest, report),
            "run" => self.judge_events(alloc, rest, block, report),
            "moves" => self.judge_standing(alloc, rest, block, report),
            "trace" => self.judge_schedule(alloc, rest, block, report),
            "call" => self.judge_tool(alloc, rest, report),
            _ => Ok(false),
        }
    }
}

/// A row whose lines are being read.
#[derive(Drop)]
struct Row {
    /// Its first line.
    head: String,
    /// The lines behind it.
    block: String,
}

/// Ends a row: its answers are compared.
fn end_row(
    alloc: Global,
    scene: &mut Scene,
    row: &mut Row,
    report: &mut Report,
) -> Result<(), AllocError> {
    if !scene.judge_row(alloc, row.head.as_str(), row.block.as_str(), report)? {
        report.unread(alloc, row.head.as_str())?;
    }
    row.head.clear();
    row.block.clear();
    Ok(())
}

/// Takes the next line of a table.
fn take_line(
    alloc: Global,
    scene: &mut Scene,
    row: &mut Row,
    line: &str,
    report: &mut Report,
) -> Result<(), AllocError> {
    if is_silent(line) {
        return Ok(());
    }
    if is_inner(line) {
        row.block.push_str(line.trim_start())?;
        row.block.push('\n')?;
        return Ok(());
    }
    end_row(alloc, scene, row, report)?;
    row.head.push_str(line)?;
    Ok(())
}

/// Compares the answers of each row of a table.
pub fn judge(alloc: Global, table: &str, report: &mut Report) -> Result<(), AllocError> {
    let mut scene = Scene {
        names: Vec::new(alloc),
        before: Vec::new(alloc),
        behind: Vec::new(alloc),
        files: Vec::new(alloc),
    };
    let mut row = Row {
        head: String::new(alloc),
        block: String::new(alloc),
    };
    for line in table.lines() {
        take_line(alloc, &mut scene, &mut row, line, report)?;
    }
    end_row(alloc, &mut scene, &mut row, report)
}
