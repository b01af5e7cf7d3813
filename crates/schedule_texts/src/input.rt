// Texts of inputs.
ghost use Rattle.std.specs.Prelude.{◌≡◌, ◌<◌, ◌^◌, IfSome, IfNone, IfOk, length};
ghost use Rattle.schedule_texts.specs.Inputs.{IsNumber, value_of, Answers, LineAnswers};

use crate::pieces::{lines, pieces};
use sqlite_items::Items;
use std::alloc::{AllocError, Global};
use thiserror::Error;

/// Numbers in the order in which they are read.
pub type Input = Items<i32>;

/// Why a text is no input.
#[derive(Clone, Copy, Debug, PartialEq, Eq, Error)]
pub enum InputError {
    /// The first word that is no number stands on this line, counted from 1.
    #[error("line {line}: not a number")]
    BadInput {
        /// The line.
        line: u32,
    },
    /// There isn't enough memory.
    #[error("out of memory")]
    Memory,
}

impl From<AllocError> for InputError {
    ghost use Rattle.schedule_texts.specs.declared.input.InputError.TheVariants.{Memory};

    ghost from_gives = { λ _ e. e ≡ Memory };

    fn from(_: AllocError) -> InputError {
        InputError::Memory
    }
}

/// The number that a word spells: digits, with at most a minus before them, whose value fits an `i32`.
fn number_of(word: &[u8]) -> Option<i32>
    ensures some { IfSome result (λ v. IsNumber word.now × (v ≡ value_of word.now)) }
    ensures none { IfNone result (¬ IsNumber word.now) }
{
    if word.starts_with(b"+") {
        return None;
    }
    str::from_utf8(word).ok()?.parse::<i32>().ok()
}

/// Reads the words of a line. Whether each of them is a number.
fn read_line(input: &mut Input, alloc: Global, line: &[u8]) -> Result<bool, AllocError>
    ensures { IfOk result (λ well. LineAnswers line.now well input.old input.new) }
{
    for word in pieces(alloc, line)?.iter() {
        if word.is_empty() {
            continue;
        }
        match number_of(*word) {
            Some(number) => input.push(number)?,
            None => return Ok(false),
        }
    }
    Ok(true)
}

/// The input that a text spells, or the line of its first word that is no number. Want of memory alone is free.
pub fn read_input(alloc: Global, text: &[u8]) -> Result<Input, InputError>
    requires { length text.now < 2 ^ 31 }
    ensures { Answers text.now result }
{
    let lines = lines(alloc, text)?;
    let mut input = Input::new(alloc);
    for (k, line) in lines.iter().enumerate() {
        if !read_line(&mut input, alloc, *line)? {
            return Err(InputError::BadInput { line: k as u32 + 1 });
        }
    }
    Ok(input)
}
