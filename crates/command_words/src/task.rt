// What a list of words asks for.
ghost use Rattle.std.specs.Prelude.{◌≡◌, map, string_bytes, option_map, IfOk};
ghost use Rattle.std.specs.Str.{all_ascii_digits};
ghost use Rattle.command_words.specs.Tasks as tasks;
ghost use Rattle.command_words.specs.Words as spec;

use crate::command::Command;
use crate::given::{Given, given_of};
use std::alloc::{AllocError, Global};
use std::marker::Model;

/// A command with its options, and the names of its files in their order.
#[derive(Drop)]
pub struct Task {
    command: Command,
    files: Vec<String>,
}

impl Model for Task {
    ghost Value = { tasks.Task };

    ghost view = { λ t. record { command = t.command; files = map string_bytes t.files.items } };
}

impl Task {
    /// The command.
    pub fn command(&self) -> Command
        ensures { result ≡ self.now.command }
    {
        self.command
    }

    /// The names of the files.
    pub fn files(&self) -> &[String]
        ensures { tasks.texts result.now ≡ self.now.files }
    {
        &self.files
    }
}

/// Whether all bytes are decimal digits.
fn are_digits(bytes: &[u8]) -> bool
    ensures { result ≡ all_ascii_digits bytes.now }
{
    for byte in bytes {
        if !byte.is_ascii_digit() {
            return false;
        }
    }
    true
}

/// Whether a word is a number of one to nine decimal digits.
fn is_number(word: &str) -> bool
    ensures { result ≡ spec.is_number word.now }
{
    !word.is_empty() && word.len() <= 9 && are_digits(word.as_bytes())
}

/// The number that a word spells: one to nine decimal digits.
fn number_of(word: &str) -> Option<u32>
    ensures { result ≡ spec.number_of word.now }
{
    if !is_number(word) {
        return None;
    }
    match word.parse::<u32>() {
        Ok(number) => Some(number),
        Err(_) => None,
    }
}

/// The number of an option, from the least to the most; where it isn't given, another that stands for it.
fn number_within(least: u32, most: u32, unless: u32, word: Option<&str>) -> Option<u32>
    ensures { result ≡ spec.number_within least most unless (option_map (λ w. w.now) word.entry) }
{
    let Some(word) = word else {
        return Some(unless);
    };
    let number = number_of(word)?;
    if least <= number && number <= most {
        Some(number)
    } else {
        None
    }
}

/// A command with these files, where they are as many as it reads.
fn with_count(count: usize, command: Command, given: Given) -> Option<Task>
    ensures { result ≡ spec.with_count count command given }
{
    let files = given.into_files();
    if files.len() == count {
        Some(Task { command, files })
    } else {
        None
    }
}

fn instrument(given: Given) -> Option<Task>
    ensures { result ≡ spec.instrument_given given }
{
    let siphons = number_within(1, 512, 256, given.siphons())?;
    let monitors = number_within(0, 16, 16, given.monitors())?;
    with_count(1, Command::Instrument { siphons, monitors }, given)
}

/// A command without options.
fn plain(count: usize, command: Command, given: Given) -> Option<Task>
    ensures { result ≡ spec.plain_given count command given }
{
    if given.siphons().is_some() || given.monitors().is_some() {
        return None;
    }
    with_count(count, command, given)
}

fn command_of(word: &str, given: Given) -> Option<Task>
    ensures { result ≡ spec.command_given word.now given }
{
    match word {
        "instrument" => instrument(given),
        "run" => plain(3, Command::Run, given),
        "runtime" => plain(0, Command::Runtime, given),
        _ => None,
    }
}

/// What the words of a command line ask for, without the program's name among them; `None` exactly
/// where they are of no known shape. The one error is want of memory.
pub fn task_of(alloc: Global, words: &[String]) -> Result<Option<Task>, AllocError>
    ensures { IfOk result (λ task. task ≡ spec.task_of (tasks.texts words.now)) }
{
    let [command, behind @ ..] = words else {
        return Ok(None);
    };
    match given_of(alloc, behind)? {
        Some(given) => Ok(command_of(command.as_str(), given)),
        None => Ok(None),
    }
}
