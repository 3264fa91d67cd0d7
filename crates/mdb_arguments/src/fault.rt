//! Why words are no request.

use std::alloc::{AllocError, AllocFailed, Global};

/// Why words are no request.
#[derive(Drop)]
pub enum RequestFault<'a> {
    OutOfMemory,
    /// The argument with this id lacks a value that it has to have.
    Missing(&'static str),
    /// The word is not the digits of a hash.
    NoHash(&'a str),
    /// The word is no time.
    NoTime(&'a str),
    /// The word is no size.
    NoSize(&'a str),
    /// More than one word names standard input.
    InputTwice,
    /// The folder to write to has no name.
    NoFolder,
}

impl From<AllocError> for RequestFault<'_> {
    fn from(_error: AllocError) -> Self {
        RequestFault::OutOfMemory
    }
}

impl<T: Drop> From<AllocFailed<T>> for RequestFault<'_> {
    fn from(_error: AllocFailed<T>) -> Self {
        RequestFault::OutOfMemory
    }
}

/// What is said of a fault.
pub fn message_of(alloc: Global, fault: &RequestFault<'_>) -> Result<String, AllocError> {
    match fault {
        RequestFault::OutOfMemory => String::from_str(alloc, "out of memory"),
        RequestFault::Missing(id) => format!(in alloc; "{id} is missing"),
        RequestFault::NoHash(word) => {
            format!(in alloc; "'{word}' is no hash: a hash has 64 hexadecimal digits")
        }
        RequestFault::NoTime(word) => {
            format!(in alloc;
                "'{word}' is no time: it is seconds since 1970, or as 2024-01-31T12:00:00Z"
            )
        }
        RequestFault::NoSize(word) => {
            format!(in alloc; "'{word}' is no size: it is a number of bytes, or as 64K, 256M, 2G")
        }
        RequestFault::InputTwice => String::from_str(alloc, "standard input can be read only once"),
        RequestFault::NoFolder => String::from_str(alloc, "'' is no folder"),
    }
}
