// Texts that are read, printed and read again.

mod canonical;
mod locks;
mod trylocks;
mod waits;

use c_parser::{ParseError, parse};
use c_print::print;
use std::alloc::{AllocError, Global};
use std::test::Fail;

/// What is printed of the program that a text spells.
fn printed(alloc: Global, text: &[u8]) -> Option<Vec<u8>> {
    if text.len() > 1000000 {
        return None;
    }
    let program = parse(alloc, text).ok()?;
    print(alloc, &program).ok()
}

/// Whether the program that a text spells is printed, read and printed again as the same text.
fn stays(alloc: Global, text: &[u8]) -> bool {
    match printed(alloc, text) {
        Some(first) => match printed(alloc, &first) {
            Some(second) => first.as_slice() == second.as_slice(),
            None => false,
        },
        None => false,
    }
}

/// Whether a text is what is printed of its program.
fn is_canonical(alloc: Global, text: &[u8]) -> bool {
    shows(alloc, text, text)
}

#[test]
fn programs_of_locks_stay(rt: HostRuntime) -> Result<(), Fail> {
    for text in [
        locks::ONE_LOCK,
        locks::BOTH_ORDERS,
        locks::GUARDED,
        locks::ONE_THREAD,
        locks::FOUR_THREADS,
        locks::BRANCH,
        locks::GUARDED_BRANCH,
    ] {
        assert!(rt; stays(rt.alloc(), text));
    }
    Ok(())
}

#[test]
fn programs_that_wait_and_call_stay(rt: HostRuntime) -> Result<(), Fail> {
    for text in [
        waits::PHILOSOPHERS,
        waits::WAIT,
        waits::WAIT_HOLDING,
        waits::LOCK_IN_ARM,
        waits::LOCK_IN_CALL,
        waits::QUOTIENT,
        waits::BANK,
    ] {
        assert!(rt; stays(rt.alloc(), text));
    }
    Ok(())
}

#[test]
fn canonical_texts_are_printed(rt: HostRuntime) -> Result<(), Fail> {
    for text in [
        canonical::TWO_THREADS,
        canonical::THREE_PHILOSOPHERS,
        canonical::TWO_MONITORS,
        canonical::MONITOR_IN_ARMS,
        canonical::MONITORS_IN_ARMS,
        canonical::TAKING_WAIT,
        trylocks::CHAIN,
        trylocks::NO_MONITORS,
    ] {
        assert!(rt; is_canonical(rt.alloc(), text));
    }
    Ok(())
}

/// Whether this is what is printed of the program that a text spells.
fn shows(alloc: Global, text: &[u8], wanted: &[u8]) -> bool {
    match printed(alloc, text) {
        Some(bytes) => bytes.as_slice() == wanted,
        None => false,
    }
}

/// A program around a choice.
fn around(alloc: Global, choice: &[u8]) -> Result<Vec<u8>, AllocError> {
    let mut text = Vec::new(alloc);
    text.extend_from_slice(trylocks::HEAD)?;
    text.extend_from_slice(choice)?;
    text.extend_from_slice(trylocks::END)?;
    Ok(text)
}

/// Each spelling of a trylock gives one tree.
#[test]
fn spellings_are_one(rt: HostRuntime) -> Result<(), Fail> {
    for choice in trylocks::SPELLINGS {
        let text = around(rt.alloc(), choice)?;
        assert!(rt; shows(rt.alloc(), &text, trylocks::PRINTED));
    }
    Ok(())
}

/// The waits that take tokens are declared where there are some.
#[test]
fn plain_waits_declare_none(rt: HostRuntime) {
    assert!(rt; shows(rt.alloc(), trylocks::PLAIN_WAIT, trylocks::PLAIN_PRINTED));
}

/// Whether a program is read, and what is printed of it is refused so.
fn grows(alloc: Global, text: &[u8], error: ParseError) -> bool {
    match printed(alloc, text) {
        Some(bytes) if bytes.len() < 1000000 => parse(alloc, &bytes).err() == Some(error),
        _ => false,
    }
}

/// A program with so many statements after one another, each in so many arms.
fn counting(alloc: Global, arms: u16, statements: u16) -> Result<Vec<u8>, AllocError> {
    let mut text = Vec::new(alloc);
    text.extend_from_slice(b"int x;int main(void){")?;
    for _ in 0..statements {
        for _ in 0..arms {
            text.extend_from_slice(b"if(x)")?;
        }
        text.extend_from_slice(b"x++;")?;
    }
    text.extend_from_slice(b"return 0;}")?;
    Ok(text)
}

#[test]
fn limits_may_be_passed(rt: HostRuntime) -> Result<(), Fail> {
    // The printed `x++` stands on line 69: below five lines up to the head of main, and a line for each arm.
    let deep = counting(rt.alloc(), 63, 1)?;
    assert!(rt; grows(rt.alloc(), &deep, ParseError::TooDeep { line: 69 }));
    let long = counting(rt.alloc(), 0, 12000)?;
    assert!(rt; grows(rt.alloc(), &long, ParseError::TooManyTokens));
    Ok(())
}
