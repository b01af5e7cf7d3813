//! What is known of names: the words that are told apart, and the names that are defined.

ghost use Rattle.std.specs.Prelude.{◌≡◌, ℕ, List, IfOk, OnOk, None, []};
ghost use Rattle.c_tokens.specs.Known.{found, latest, latest_keyword, texts, others, Knows};

use c_expressions::token::{What, spelling};
use c_grammar::FixedWord;
use indexmap::IndexMap;
use std::alloc::{AllocError, Global};

/// What each known name stands for.
pub type Known<'t> = IndexMap<&'t [u8], What>;

/// The words of the grammar that are no keywords of C.
const NAMES: [FixedWord; 27] = [
    FixedWord::ControlledWait,
    FixedWord::Give,
    FixedWord::Take,
    FixedWord::Capacities,
    FixedWord::Broadcast,
    FixedWord::Signal,
    FixedWord::Wait,
    FixedWord::Unlock,
    FixedWord::TryLock,
    FixedWord::Lock,
    FixedWord::InitCondition,
    FixedWord::InitMutex,
    FixedWord::Join,
    FixedWord::Create,
    FixedWord::ConditionInitializer,
    FixedWord::MutexInitializer,
    FixedWord::Condition,
    FixedWord::Mutex,
    FixedWord::Thread,
    FixedWord::Scan,
    FixedWord::Print,
    FixedWord::IntPointer,
    FixedWord::Null,
    FixedWord::MutexParameter,
    FixedWord::ConditionParameter,
    FixedWord::Parameter,
    FixedWord::Main,
];

/// The words of the grammar that are keywords of C.
const KEYWORDS: [FixedWord; 9] = [
    FixedWord::Return,
    FixedWord::For,
    FixedWord::While,
    FixedWord::Else,
    FixedWord::If,
    FixedWord::Long,
    FixedWord::Static,
    FixedWord::Void,
    FixedWord::Int,
];

/// Makes words known, a later one in place of an earlier one. The one error is want of memory.
fn put_words(known: &mut Known, words: &[FixedWord]) -> Result<(), AllocError>
    ensures { OnOk result ((name : List ℕ) → found known.new name ≡ latest words.now (found known.old name) name) }
{
    for word in words {
        known.insert(spelling(*word), What::Fixed(*word))?;
    }
    Ok(())
}

/// Makes keywords known that have no place in the grammar. The one error is want of memory.
fn put_keywords<'t>(known: &mut Known<'t>, words: &[&'t [u8]]) -> Result<(), AllocError>
    ensures { OnOk result ((name : List ℕ) → found known.new name ≡ latest_keyword (texts words.now) (found known.old name) name) }
{
    for word in words {
        known.insert(*word, What::Keyword)?;
    }
    Ok(())
}

/// Makes the other keywords of C known (ISO/IEC 9899:1999, section 6.4.1). The one error is want of memory.
fn put_other_keywords(known: &mut Known) -> Result<(), AllocError>
    ensures { OnOk result ((name : List ℕ) → found known.new name ≡ latest_keyword others (found known.old name) name) }
{
    let words: [&[u8]; 28] = [
        b"_Imaginary",
        b"_Complex",
        b"_Bool",
        b"volatile",
        b"unsigned",
        b"union",
        b"typedef",
        b"switch",
        b"struct",
        b"sizeof",
        b"signed",
        b"short",
        b"restrict",
        b"register",
        b"inline",
        b"goto",
        b"float",
        b"extern",
        b"enum",
        b"double",
        b"do",
        b"default",
        b"continue",
        b"const",
        b"char",
        b"case",
        b"break",
        b"auto",
    ];
    put_keywords(known, &words)
}

/// What is known before any definition. The one error is want of memory.
pub fn known_words<'t>(alloc: Global) -> Result<Known<'t>, AllocError>
    ensures { IfOk result (λ known. Knows known []) }
{
    let mut known = IndexMap::new(alloc);
    put_words(&mut known, &NAMES)?;
    put_words(&mut known, &KEYWORDS)?;
    put_other_keywords(&mut known)?;
    Ok(known)
}
