//! The words of the command line.

use mdb_report::fault::Fault;
use std::alloc::{AllocError, Global};
use std::env::FillError;
use std::rt::Env;

/// The most bytes of a word; Linux passes at most 131071.
const LONGEST: usize = 1 << 17;

/// A command line, whose first word is the program's name.
#[derive(Drop)]
pub struct Words {
    /// The words; those that are not UTF-8 as [`escape_word`] gives them.
    pub texts: Vec<String>,
    /// Those that are not UTF-8, by which no file can be opened.
    pub unreadable: Vec<String>,
}

/// Why the words cannot be read.
#[derive(Drop)]
pub enum WordsFault {
    OutOfMemory,
    TooLong,
}

impl From<AllocError> for WordsFault {
    fn from(_error: AllocError) -> Self {
        WordsFault::OutOfMemory
    }
}

impl<T: Drop> From<std::alloc::AllocFailed<T>> for WordsFault {
    fn from(_error: std::alloc::AllocFailed<T>) -> Self {
        WordsFault::OutOfMemory
    }
}

impl From<WordsFault> for Fault {
    fn from(fault: WordsFault) -> Self {
        match fault {
            WordsFault::OutOfMemory => Fault::OutOfMemory,
            WordsFault::TooLong => Fault::LongWord,
        }
    }
}

/// Whether a word is among others.
pub fn is_among(words: &[String], word: &str) -> bool {
    words.iter().any(|it| it.as_str() == word)
}

/// The words that the program was started with.
pub fn read_words<R: Env + AllocGlobal>(rt: &R) -> Result<Words, WordsFault> {
    let alloc = rt.alloc();
    let mut words = Words {
        texts: Vec::new(alloc),
        unreadable: Vec::new(alloc),
    };
    let mut room = vec![in alloc; 0u8; LONGEST]?;
    for index in 0..usize::MAX {
        match rt.arg(index, room.as_mut_slice()) {
            Ok(length) => words.push(alloc, &room.as_slice()[..length])?,
            Err(FillError::NotPresent) => break,
            Err(FillError::TooLong) => return Err(WordsFault::TooLong),
        }
    }
    Ok(words)
}

impl Words {
    fn push(&mut self, alloc: Global, word: &[u8]) -> Result<(), WordsFault> {
        match str::from_utf8(word) {
            Ok(text) => self.texts.push(String::from_str(alloc, text)?)?,
            Err(_) => {
                self.unreadable.push(escape_word(alloc, word)?)?;
                self.texts.push(escape_word(alloc, word)?)?;
            }
        }
        Ok(())
    }
}

/// A word with each byte that is not graphic ASCII as `\x` and two digits.
pub fn escape_word(alloc: Global, word: &[u8]) -> Result<String, AllocError> {
    let mut text = String::new(alloc);
    for byte in word {
        if byte.is_ascii_graphic() {
            text.push(char::from(*byte))?;
        } else {
            write!(text, "\\x{byte:02x}")?;
        }
    }
    Ok(text)
}
