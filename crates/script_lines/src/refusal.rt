//! How the error of a refused command is printed.

use std::fmt;
use xet_core_structures::error::CoreError;

/// Prints the name of the error's variant, and for a collision the word that collides.
#[derive(Clone, Copy)]
pub struct Refusal<'a>(pub &'a CoreError);

impl fmt::Display for Refusal<'_> {
    fn fmt<W: fmt::Write>(&self, f: &mut fmt::Formatter<W>) -> fmt::Result {
        match self.0 {
            CoreError::Io(_) => write!(f, "Io"),
            CoreError::InternalError(_) => write!(f, "InternalError"),
            CoreError::Other(_) => write!(f, "Other"),
            CoreError::TruncatedHashCollision(word) => write!(f, "TruncatedHashCollision {word}"),
            CoreError::ShardVersion(_) => write!(f, "ShardVersion"),
            CoreError::BadFilename(_) => write!(f, "BadFilename"),
            CoreError::ShardNotFound(_) => write!(f, "ShardNotFound"),
            CoreError::FileNotFound(_) => write!(f, "FileNotFound"),
            CoreError::QueryFailed(_) => write!(f, "QueryFailed"),
            CoreError::SmudgeQueryPolicy(_) => write!(f, "SmudgeQueryPolicy"),
            CoreError::InvalidShard(_) => write!(f, "InvalidShard"),
            CoreError::InvalidRange => write!(f, "InvalidRange"),
            CoreError::InvalidArguments => write!(f, "InvalidArguments"),
            CoreError::MalformedData(_) => write!(f, "MalformedData"),
            CoreError::HashMismatch => write!(f, "HashMismatch"),
            CoreError::HashParsing(never) => match *never {},
            CoreError::ChunkHeaderParse => write!(f, "ChunkHeaderParse"),
            CoreError::OutOfMemory => write!(f, "OutOfMemory"),
        }
    }
}
