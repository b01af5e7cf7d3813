// Whether a program is well formed.

ghost use Rattle.std.specs.Prelude.{◌≡◌, ◌<◌, length, MatchResult};
ghost use Rattle.c_tree.specs.Lined.{program_of};
ghost use Rattle.c_rules.specs.Formed.{KeepsRules};
ghost use Rattle.c_check.specs.Checked as spec;

use crate::breaks::first_break;
use crate::counts::{first_passed, limit};
use crate::numbers::Table;
use c_rules::{Count, Rule};
use c_tree::{Mode, Program};
use std::alloc::Global;
use thiserror::Error;

/// Why a program has no table.
#[derive(Clone, Copy, Debug, PartialEq, Eq, Error)]
pub enum CheckError {
    /// A rule is broken, at the least line at which any is, and first in their order there.
    #[error("line {line}: {rule:?}")]
    Rule {
        /// The rule.
        rule: Rule,
        /// The line.
        line: u32,
    },
    /// No rule is broken, and a count is the first that passes its number.
    #[error("more than {limit} {what:?}")]
    TooMany {
        /// The count.
        what: Count,
        /// Its number.
        limit: u32,
    },
    /// There isn't enough memory.
    #[error("out of memory")]
    Memory,
}

/// The table of a program, exactly where it is well formed; else the rule that is broken first, or
/// the first count that passes its number.
pub fn check(alloc: Global, p: &Program, mode: Mode) -> Result<Table, CheckError>
    requires { length p.now.functions < 1000000 }
    ensures { MatchResult result (λ table. spec.IsTable (program_of p.now) mode table) (λ e. spec.IsRefusal (program_of p.now) mode e) }
{
    match first_break(alloc, p, mode) {
        Ok(None) => counted(alloc, p, mode),
        Ok(Some(first)) => Err(CheckError::Rule {
            rule: first.rule,
            line: first.line,
        }),
        Err(_) => Err(CheckError::Memory),
    }
}

/// The table of a program that breaks no rule, or the first count that passes its number.
fn counted(alloc: Global, p: &Program, mode: Mode) -> Result<Table, CheckError>
    requires functions { length p.now.functions < 1000000 }
    requires rules { KeepsRules (program_of p.now) mode }
    ensures { MatchResult result (λ table. spec.IsTable (program_of p.now) mode table) (λ e. spec.IsRefusal (program_of p.now) mode e) }
{
    match first_passed(p) {
        Some(what) => Err(CheckError::TooMany {
            what,
            limit: limit(what),
        }),
        None => match Table::new(alloc, p) {
            Ok(table) => Ok(table),
            Err(_) => Err(CheckError::Memory),
        },
    }
}
