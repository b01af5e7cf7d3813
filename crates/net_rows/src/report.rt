// What comes of rows.

use std::alloc::{AllocError, Global};

/// What came of the rows so far.
#[derive(Drop)]
pub struct Report {
    /// How many answers were compared.
    pub rows: u32,
    /// How many differ from what is wanted.
    pub differ: u32,
    /// A line for each that differs.
    pub lines: Vec<String>,
}

impl Report {
    /// The report of no row.
    pub fn new(alloc: Global) -> Report {
        Report {
            rows: 0,
            differ: 0,
            lines: Vec::new(alloc),
        }
    }

    /// Compares an answer with what is wanted.
    pub fn compare(
        &mut self,
        alloc: Global,
        row: &str,
        answer: &str,
        wanted: &str,
    ) -> Result<(), AllocError> {
        self.rows = self.rows.saturating_add(1);
        if answer != wanted {
            self.differ = self.differ.saturating_add(1);
            let line = format!(in alloc; "{row}: {answer}, and not {wanted}")?;
            self.lines.push(line)?;
        }
        Ok(())
    }

    /// A row that can't be read.
    pub fn unread(&mut self, alloc: Global, row: &str) -> Result<(), AllocError> {
        self.compare(alloc, row, "no row", "a row")
    }
}
