// The contexts of programs.

use crate::report::Report;
use accepted_texts::accepted;
use c_tree::Program;
use context_walk::{ContextError, Contexts, resolve};
use std::alloc::{AllocError, Global};
use std::str;

/// How many contexts are of the function at a place.
fn contexts_at(contexts: &Contexts, place: usize) -> usize {
    contexts.functions.iter().filter(|k| **k == place).count()
}

/// How many contexts there are, and then each function that has more than one, with how many it has.
fn counted(alloc: Global, p: &Program, contexts: &Contexts) -> Result<String, AllocError> {
    let mut words = format!(in alloc; "{}", contexts.functions.len())?;
    for (place, f) in p.functions.as_slice().iter().enumerate() {
        let count = contexts_at(contexts, place);
        if count > 1 {
            let name = str::from_utf8(f.name.as_slice()).unwrap_or("no text");
            words.push_str(format!(in alloc; " {name} {count}")?.as_str())?;
        }
    }
    Ok(words)
}

/// The contexts of the program that a text spells, in words. A text that spells no program has none.
fn contexts_of(alloc: Global, text: &[u8]) -> Result<String, AllocError> {
    let Some(p) = accepted(alloc, text) else {
        return String::from_str(alloc, "no program");
    };
    if p.functions.len() >= 1000000 {
        return String::from_str(alloc, "too large to be asked about");
    }
    match resolve(alloc, &p) {
        Ok(contexts) => counted(alloc, &p, &contexts),
        Err(ContextError::Memory) => Err(AllocError),
        Err(error) => format!(in alloc; "{error}"),
    }
}

/// Compares the contexts of a program.
pub fn judge_contexts(
    alloc: Global,
    text: &[u8],
    rest: &str,
    wanted: &str,
    report: &mut Report,
) -> Result<(), AllocError> {
    let answer = contexts_of(alloc, text)?;
    report.compare(alloc, rest, answer.as_str(), wanted)
}
