// Words, definitions, lines and the end of a text.

use c_expressions::token::What;
use c_grammar::FixedWord;
use c_lexer::{LexError, Sign};
use c_tokens::{End, Tokens, read_tokens};
use std::alloc::{AllocError, Global};
use std::test::Fail;

fn read(alloc: Global, text: &[u8]) -> Result<Tokens, AllocError> {
    if text.len() > 1000 {
        return Ok(Tokens {
            marks: Vec::new(alloc),
            end: End::Longer,
        });
    }
    read_tokens(alloc, text)
}

#[test]
fn definitions_and_lines(rt: HostRuntime) -> Result<(), Fail> {
    let tokens = read(
        rt.alloc(),
        b"#define N 3\n#define N 4\n/*\n*/ int k_ = N;\nbreak \"%d\"",
    )?;
    let marks = tokens.marks.as_slice();
    assert_eq!(rt; marks.len(), 9);
    assert!(rt; matches!(marks[0].what, What::Definition(None)));
    assert!(rt; matches!(marks[1].what, What::Repeated));
    assert!(rt; matches!(marks[2].what, What::Fixed(FixedWord::Int)));
    assert!(rt; matches!(marks[3].what, What::Name(_)));
    assert!(rt; matches!(marks[5].what, What::Number(4)));
    assert!(rt; matches!(marks[7].what, What::Keyword));
    assert_eq!(rt; marks[1].line, 2);
    assert_eq!(rt; marks[3].line, 4);
    assert_eq!(rt; marks[7].line, 5);
    assert!(rt; matches!(marks[8].what, What::Text(_)));
    assert!(rt; matches!(tokens.end, End::Text));
    Ok(())
}

#[test]
fn a_word_that_is_defined(rt: HostRuntime) -> Result<(), Fail> {
    let tokens = read(rt.alloc(), b"#define NULL 0\nNULL @")?;
    let marks = tokens.marks.as_slice();
    assert_eq!(rt; marks.len(), 2);
    assert!(rt; matches!(marks[0].what, What::Definition(Some(FixedWord::Null))));
    assert!(rt; matches!(marks[1].what, What::Number(0)));
    assert!(rt; matches!(tokens.end, End::Refused(LexError::BadByte { line: 2 })));
    Ok(())
}

#[test]
fn words_of_the_waits_and_trylocks(rt: HostRuntime) -> Result<(), Fail> {
    let tokens = read(
        rt.alloc(),
        b"pthread_mutex_trylock gd_cond_wait c m k cc ...",
    )?;
    let marks = tokens.marks.as_slice();
    assert_eq!(rt; marks.len(), 7);
    assert!(rt; matches!(marks[0].what, What::Fixed(FixedWord::TryLock)));
    assert!(rt; matches!(marks[1].what, What::Fixed(FixedWord::ControlledWait)));
    assert!(rt; matches!(marks[2].what, What::Fixed(FixedWord::ConditionParameter)));
    assert!(rt; matches!(marks[3].what, What::Fixed(FixedWord::MutexParameter)));
    assert!(rt; matches!(marks[4].what, What::Fixed(FixedWord::Parameter)));
    assert!(rt; matches!(marks[5].what, What::Name(_)));
    assert!(rt; matches!(marks[6].what, What::Sign(Sign::Ellipsis)));
    Ok(())
}
