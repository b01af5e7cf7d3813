// Texts that are put together of pieces.

use std::alloc::{AllocError, Global};

/// Texts that have a name.
pub type Names = Vec<(String, Vec<u8>)>;

/// The text of a name.
pub fn named<'a>(names: &'a Names, name: &str) -> Option<&'a [u8]> {
    for (other, text) in names.iter() {
        if other.as_str() == name {
            return Some(text.as_slice());
        }
    }
    None
}

/// Where a byte of a field stands.
#[derive(Clone, Copy, PartialEq, Eq)]
enum Place {
    /// Between pieces.
    Between,
    /// In a quoted piece.
    Quoted,
    /// Behind a backslash of a quoted piece.
    Escaped,
    /// In a word.
    Word,
}

/// A text so far.
#[derive(Drop)]
struct Builder {
    /// The pieces but for the last.
    text: Vec<u8>,
    /// The last piece.
    piece: Vec<u8>,
    /// The word so far.
    word: Vec<u8>,
    /// Where the next byte stands.
    place: Place,
    /// Whether something is no piece.
    wrong: bool,
}

/// The byte that an escape stands for.
fn unescaped(byte: u8) -> u8 {
    match byte {
        b'n' => b'\n',
        b't' => b'\t',
        b'r' => b'\r',
        other => other,
    }
}

impl Builder {
    /// Begins a new piece.
    fn begin(&mut self) -> Result<(), AllocError> {
        self.text.extend_from_slice(self.piece.as_slice())?;
        self.piece.clear();
        Ok(())
    }

    /// Repeats the last piece, which stands there once, so that it stands there so many times.
    fn repeat(&mut self, times: u32) -> Result<(), AllocError> {
        for _ in 0..times {
            self.text.extend_from_slice(self.piece.as_slice())?;
        }
        self.piece.clear();
        Ok(())
    }

    /// Ends a word, which is a name or a number of times.
    fn end_word(&mut self, names: &Names) -> Result<(), AllocError> {
        let word = str::from_utf8(self.word.as_slice()).unwrap_or("");
        let found = word.strip_prefix('$').and_then(|name| named(names, name));
        let times = word
            .strip_prefix('*')
            .and_then(|times| times.parse::<u32>().ok());
        match (found, times) {
            (Some(text), _) => {
                self.begin()?;
                self.piece.extend_from_slice(text)?;
            }
            (None, Some(times)) => self.repeat(times)?,
            (None, None) => self.wrong = true,
        }
        self.word.clear();
        self.place = Place::Between;
        Ok(())
    }

    /// Takes the next byte of a field.
    fn take(&mut self, names: &Names, byte: u8) -> Result<(), AllocError> {
        match (self.place, byte) {
            (Place::Between, b'"') => {
                self.begin()?;
                self.place = Place::Quoted;
            }
            (Place::Between, b' ') => {}
            (Place::Between, _) => {
                self.word.push(byte)?;
                self.place = Place::Word;
            }
            (Place::Quoted, b'"') => self.place = Place::Between,
            (Place::Quoted, b'\\') => self.place = Place::Escaped,
            (Place::Quoted, _) => self.piece.push(byte)?,
            (Place::Escaped, _) => {
                self.piece.push(unescaped(byte))?;
                self.place = Place::Quoted;
            }
            (Place::Word, b' ') => self.end_word(names)?,
            (Place::Word, _) => self.word.push(byte)?,
        }
        Ok(())
    }
}

/// The text that a field spells, or none where it spells none.
pub fn spelled(alloc: Global, names: &Names, field: &str) -> Result<Option<Vec<u8>>, AllocError> {
    let mut builder = Builder {
        text: Vec::new(alloc),
        piece: Vec::new(alloc),
        word: Vec::new(alloc),
        place: Place::Between,
        wrong: false,
    };
    for byte in field.as_bytes() {
        builder.take(names, *byte)?;
    }
    builder.take(names, b' ')?;
    builder.begin()?;
    let Builder {
        text,
        place,
        wrong,
        ..
    } = builder;
    let whole = place == Place::Between && !wrong;
    Ok(if whole { Some(text) } else { None })
}

/// A text between two others.
pub fn between(
    alloc: Global,
    before: &[u8],
    text: &[u8],
    behind: &[u8],
) -> Result<Vec<u8>, AllocError> {
    let mut whole = Vec::from_slice(alloc, before)?;
    whole.extend_from_slice(text)?;
    whole.extend_from_slice(behind)?;
    Ok(whole)
}
