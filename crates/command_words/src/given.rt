// What the words behind a command give, as clap reads them.
ghost use Rattle.std.specs.Prelude.{◌≡◌, ◌↔◌, [], IfOk, IsTrue, option_map, unwrap_or, map, codes, string_bytes};
ghost use Rattle.clap.specs.Words.{all_of, app_of, fault_of, first_of, found_of, kind_of, rows_of};
ghost use Rattle.clap.specs.declared.error.kind.ErrorKind.TheVariants.{OutOfMemory};
ghost use Rattle.command_words.specs.Behind.{app, AreAsGiven};
ghost use Rattle.command_words.specs.Tasks.{texts};
ghost use Rattle.command_words.specs.Words as spec;
ghost use Rattle.command_words.specs.Shown.{text_of};

use clap::error::ErrorKind;
use clap::{Arg, ArgAction, ArgMatches, Command, Error};
use std::alloc::{AllocError, Global};
use std::marker::Model;

/// What the words behind a command give: the names of files, and the values of the options.
#[derive(Drop)]
pub struct Given {
    files: Vec<String>,
    siphons: Option<String>,
    monitors: Option<String>,
}

impl Model for Given {
    ghost use Rattle.command_words.specs.Tasks.{texts};
    ghost use Rattle.command_words.specs.Words as spec;
    ghost use Rattle.command_words.specs.Shown.{text_of};

    ghost Value = { spec.Given };

    ghost view = { λ g. record {
      files = texts g.files.items;
      siphons = text_of g.siphons;
      monitors = text_of g.monitors;
      next = spec.Next.any;
    } };
}

impl Given {
    /// The number of siphons, if it is given.
    pub fn siphons(&self) -> Option<&str>
        ensures { option_map (λ s. s.now) result ≡ self.now.siphons }
    {
        self.siphons.as_deref()
    }

    /// The number of monitors, if it is given.
    pub fn monitors(&self) -> Option<&str>
        ensures { option_map (λ s. s.now) result ≡ self.now.monitors }
    {
        self.monitors.as_deref()
    }

    /// The names of the files.
    pub fn into_files(self) -> Vec<String>
        ensures { texts result.items ≡ self.files }
    {
        self.files
    }
}

/// The command line behind a command's name: names of files, and two options.
fn behind<'a>(alloc: Global) -> Result<Command<'a>, AllocError>
    ensures { IfOk result (λ c. app_of c ≡ app) }
{
    let files = Arg::new(alloc, "files").action(ArgAction::Append);
    let siphons = Arg::new(alloc, "siphons")
        .long("siphons")
        .action(ArgAction::Set);
    let monitors = Arg::new(alloc, "monitors")
        .long("monitors")
        .action(ArgAction::Set);
    Command::new(alloc, "gadara")
        .no_binary_name(true)
        .disable_help_flag(true)
        .disable_version_flag(true)
        .arg(files)?
        .arg(siphons)?
        .arg(monitors)
}

/// A copy of a word, where there is one.
fn copy_of(alloc: Global, word: Option<&str>) -> Result<Option<String>, AllocError>
    ensures { IfOk result (λ copy. text_of copy ≡ option_map (λ w. w.now) word.entry) }
{
    match word {
        Some(word) => Ok(Some(String::from_str(alloc, word)?)),
        None => Ok(None),
    }
}

/// A copy of each word.
fn copies_of(alloc: Global, words: &[&str]) -> Result<Vec<String>, AllocError>
    ensures { IfOk result (λ copies. texts copies.items ≡ map (λ w. w.now) words.now) }
{
    let mut copies = Vec::with_capacity(alloc, words.len())?;
    for word in words {
        copies.push(String::from_str(alloc, word)?)?;
    }
    Ok(copies)
}

/// The names of files that clap found.
fn files_in(alloc: Global, found: &ArgMatches) -> Result<Vec<String>, AllocError>
    ensures { IfOk result (λ files. texts files.items ≡
        unwrap_or (all_of (codes "files") (rows_of (found_of found.now))) []) }
{
    match found.get_raw("files") {
        Some(words) => copies_of(alloc, words),
        None => Ok(Vec::new(alloc)),
    }
}

/// What clap found.
fn given_in(alloc: Global, found: &ArgMatches) -> Result<Given, AllocError>
    ensures files { IfOk result (λ given. given.files ≡
        unwrap_or (all_of (codes "files") (rows_of (found_of found.now))) []) }
    ensures siphons { IfOk result (λ given. given.siphons ≡
        first_of (codes "siphons") (rows_of (found_of found.now))) }
    ensures monitors { IfOk result (λ given. given.monitors ≡
        first_of (codes "monitors") (rows_of (found_of found.now))) }
    ensures next { IfOk result (λ given. given.next ≡ spec.Next.any) }
{
    let files = files_in(alloc, found)?;
    let siphons = copy_of(alloc, found.get_str("siphons"))?;
    let monitors = copy_of(alloc, found.get_str("monitors"))?;
    Ok(Given {
        files,
        siphons,
        monitors,
    })
}

/// Whether memory was wanting.
fn is_want_of_memory(error: &Error) -> bool
    ensures { IsTrue result ↔ (kind_of error.now ≡ OutOfMemory) }
{
    matches!(error.kind(), ErrorKind::OutOfMemory)
}

/// What words give: each command makes the same of it as of what they give one after the other.
/// The one error is want of memory.
pub fn given_of(alloc: Global, words: &[String]) -> Result<Option<Given>, AllocError>
    ensures { IfOk result (λ given. AreAsGiven given (spec.given_behind spec.nothing (texts words.now))) }
{
    match behind(alloc)?.try_get_matches_from(words) {
        Ok(found) => Ok(Some(given_in(alloc, &found)?)),
        Err(error) if is_want_of_memory(&error) => Err(AllocError),
        Err(_) => Ok(None),
    }
}
