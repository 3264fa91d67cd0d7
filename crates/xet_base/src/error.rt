//! The error type of all crates of the library.

ghost use Rattle.std.specs.Prelude.{◌≡◌, ◌==◌, Option, codes};
ghost use Rattle.xet_base.specs.Errors.{variant_number, FromDevice, IsOtherText, IsInvalidShardText, WithoutFormatError, CoreResult};
ghost use Rattle.std.specs.Ordering.{on};
ghost use Rattle.std.proofs.Common.{rules};
ghost use Rattle.std.specs.Cmp.Rules.{comparing};

use crate::merklehash::{DataHashBytesParseError, DataHashHexParseError, MerkleHash};
use std::alloc::{AllocError, AllocFailed, Global};
use std::{fmt, io};
use thiserror::Error;

/// The content of `CoreError::HashParsing`. It has no value, so that variant is never made.
#[derive(Clone, Copy)]
pub enum Infallible {}

// What an error without a text says, if its variant says nothing more.
const NO_REASON: &str = "no reason was given";

// The text of an error, or what its variant says if that is empty: a text has to be allocated, so
// the errors of calls that read have none.
fn text_or<'a>(text: &'a String, otherwise: &'a str) -> &'a str {
    if text.is_empty() {
        otherwise
    } else {
        text.as_str()
    }
}

/// Why a call failed. Two errors are equal exactly if their variants are. Its message says what the
/// variant means where the text is empty.
#[derive(Drop, Error)]
pub enum CoreError {
    /// The input ended too early (`UnexpectedEof`), verification rows are missing (`Other`), or a
    /// device failed.
    #[error("I/O error: {0}")]
    Io(io::Error),
    /// A row number leads to the bookend of a section.
    #[error("Internal error: {}", text_or(.0, "a row number leads to the end of a section"))]
    InternalError(String),
    /// Any other failure, in words.
    #[error("{}", text_or(.0, NO_REASON))]
    Other(String),
    /// So many records share this first word of a hash that a lookup gives up.
    #[error("Too many collisions for truncated hash: {0}")]
    TruncatedHashCollision(u64),
    /// An unsupported tag or version of a header or a footer.
    #[error("Shard version error: {}", text_or(.0, "not a shard, or of a version that is not read"))]
    ShardVersion(String),
    /// Not made by this library.
    #[error("Bad filename: {}", text_or(.0, NO_REASON))]
    BadFilename(String),
    /// Not made by this library.
    #[error("Shard not found: {0}")]
    ShardNotFound(MerkleHash),
    /// Not made by this library.
    #[error("File not found: {0}")]
    FileNotFound(MerkleHash),
    /// Not made by this library.
    #[error("Query failed: {}", text_or(.0, NO_REASON))]
    QueryFailed(String),
    /// Not made by this library.
    #[error("Smudge query policy error: {}", text_or(.0, NO_REASON))]
    SmudgeQueryPolicy(String),
    /// The bytes are not a valid shard.
    #[error("Invalid shard: {}", text_or(.0, "the bytes break a rule of the format"))]
    InvalidShard(String),
    /// Not made by this library.
    #[error("Invalid range")]
    InvalidRange,
    /// Arguments that the call does not admit; its documentation says which.
    #[error("Invalid arguments")]
    InvalidArguments,
    /// Not made by this library; see [`Validate`].
    #[error("Malformed data: {}", text_or(.0, NO_REASON))]
    MalformedData(String),
    /// Not made by this library.
    #[error("Hash mismatch")]
    HashMismatch,
    /// Never made: its content has no value.
    #[error("Hash parsing error")]
    HashParsing(Infallible),
    /// Not made by this library.
    #[error("Chunk header parse error")]
    ChunkHeaderParse,
    /// Out of memory, here or in a device.
    #[error("Out of memory")]
    OutOfMemory,
}

/// The result of a call that may fail with [`CoreError`].
pub type Result<T> = std::result::Result<T, CoreError>;

impl CoreError {
    /// `Other` of `text`, or `OutOfMemory` if the text fails to allocate.
    pub fn other(alloc: Global, text: &str) -> CoreError
        ensures { IsOtherText text.now result }
    {
        match String::from_str(alloc, text) {
            Ok(text) => CoreError::Other(text),
            Err(_) => CoreError::OutOfMemory,
        }
    }

    /// `InvalidShard` of `text`, or `OutOfMemory` if the text fails to allocate.
    pub fn invalid_shard(alloc: Global, text: &str) -> CoreError
        ensures { IsInvalidShardText text.now result }
    {
        match String::from_str(alloc, text) {
            Ok(text) => CoreError::InvalidShard(text),
            Err(_) => CoreError::OutOfMemory,
        }
    }

    /// `Other` with the message of the parse error, or `OutOfMemory` if that fails to allocate.
    pub fn of_bytes_error(alloc: Global, _error: DataHashBytesParseError) -> CoreError
        ensures { IsOtherText (codes "a hash has 32 bytes") result }
    {
        CoreError::other(alloc, "a hash has 32 bytes")
    }

    /// `Other` with the message of the parse error, or `OutOfMemory` if that fails to allocate.
    pub fn of_hex_error(alloc: Global, _error: DataHashHexParseError) -> CoreError
        ensures { IsOtherText (codes "the text of a hash has 64 hexadecimal digits") result }
    {
        CoreError::other(alloc, "the text of a hash has 64 hexadecimal digits")
    }

    /// The number of the variant in the order of their declaration, 1 to 18: what sets errors apart,
    /// whatever they carry, and what the library for C returns.
    pub fn variant_number(&self) -> u8
        ensures { result ≡ variant_number self.now }
    {
        match self {
            CoreError::Io(_) => 1,
            CoreError::InternalError(_) => 2,
            CoreError::Other(_) => 3,
            CoreError::TruncatedHashCollision(_) => 4,
            CoreError::ShardVersion(_) => 5,
            CoreError::BadFilename(_) => 6,
            CoreError::ShardNotFound(_) => 7,
            CoreError::FileNotFound(_) => 8,
            CoreError::QueryFailed(_) => 9,
            CoreError::SmudgeQueryPolicy(_) => 10,
            CoreError::InvalidShard(_) => 11,
            CoreError::InvalidRange => 12,
            CoreError::InvalidArguments => 13,
            CoreError::MalformedData(_) => 14,
            CoreError::HashMismatch => 15,
            CoreError::HashParsing(_) => 16,
            CoreError::ChunkHeaderParse => 17,
            CoreError::OutOfMemory => 18,
        }
    }

    fn name(&self) -> &'static str {
        match self {
            CoreError::Io(_) => "Io",
            CoreError::InternalError(_) => "InternalError",
            CoreError::Other(_) => "Other",
            CoreError::TruncatedHashCollision(_) => "TruncatedHashCollision",
            CoreError::ShardVersion(_) => "ShardVersion",
            CoreError::BadFilename(_) => "BadFilename",
            CoreError::ShardNotFound(_) => "ShardNotFound",
            CoreError::FileNotFound(_) => "FileNotFound",
            CoreError::QueryFailed(_) => "QueryFailed",
            CoreError::SmudgeQueryPolicy(_) => "SmudgeQueryPolicy",
            CoreError::InvalidShard(_) => "InvalidShard",
            CoreError::InvalidRange => "InvalidRange",
            CoreError::InvalidArguments => "InvalidArguments",
            CoreError::MalformedData(_) => "MalformedData",
            CoreError::HashMismatch => "HashMismatch",
            CoreError::HashParsing(_) => "HashParsing",
            CoreError::ChunkHeaderParse => "ChunkHeaderParse",
            CoreError::OutOfMemory => "OutOfMemory",
        }
    }
}

impl PartialEq for CoreError {
    ghost eq = { on variant_number ◌==◌ };

    ghost laws = { Prim.search (comparing, rules) };

    fn eq(&self, other: &CoreError) -> bool {
        self.variant_number() == other.variant_number()
    }
}

impl Eq for CoreError {
    ghost laws = { Prim.search (comparing, rules) };
}

// By hand, since an enum without variants has no derived `Debug`.
impl fmt::Debug for CoreError {
    fn fmt<W: fmt::Write>(&self, f: &mut fmt::Formatter<W>) -> fmt::Result {
        let name = self.name();
        match self {
            CoreError::Io(error) => write!(f, "{name}({error:?})"),
            CoreError::InternalError(text)
            | CoreError::Other(text)
            | CoreError::ShardVersion(text)
            | CoreError::BadFilename(text)
            | CoreError::QueryFailed(text)
            | CoreError::SmudgeQueryPolicy(text)
            | CoreError::InvalidShard(text)
            | CoreError::MalformedData(text) => write!(f, "{name}({text:?})"),
            CoreError::TruncatedHashCollision(word) => write!(f, "{name}({word})"),
            CoreError::ShardNotFound(hash) | CoreError::FileNotFound(hash) => {
                write!(f, "{name}({hash})")
            }
            CoreError::HashParsing(never) => match *never {},
            CoreError::InvalidRange
            | CoreError::InvalidArguments
            | CoreError::HashMismatch
            | CoreError::ChunkHeaderParse
            | CoreError::OutOfMemory => write!(f, "{name}"),
        }
    }
}

impl From<io::Error> for CoreError {
    ghost from_gives = { FromDevice };

    fn from(error: io::Error) -> CoreError {
        if error.kind() == io::ErrorKind::OutOfMemory {
            CoreError::OutOfMemory
        } else {
            CoreError::Io(error)
        }
    }
}

impl From<AllocError> for CoreError {
    ghost use Rattle.std.specs.Prelude.{◌≡◌};
    ghost use Rattle.xet_base.specs.declared.error.CoreError.TheVariants.{OutOfMemory};

    ghost from_gives = { λ _ e. e ≡ OutOfMemory };

    fn from(_error: AllocError) -> CoreError {
        CoreError::OutOfMemory
    }
}

impl<T: Drop> From<AllocFailed<T>> for CoreError {
    ghost use Rattle.std.specs.Prelude.{◌≡◌};
    ghost use Rattle.xet_base.specs.declared.error.CoreError.TheVariants.{OutOfMemory};

    ghost from_gives = { λ _ e. e ≡ OutOfMemory };

    fn from(_error: AllocFailed<T>) -> CoreError {
        CoreError::OutOfMemory
    }
}

/// Turns malformed data from an error into the absence of a value.
pub trait Validate<T> {
    ghost validates: { Self → CoreResult (Option T) → Type 0 };

    /// `Ok(v)` becomes `Ok(Some(v))`, `MalformedData` becomes `Ok(None)`, any other error stays.
    fn ok_for_format_error(self) -> Result<Option<T>>
        ensures { validates self result };
}

impl<T: Drop> Validate<T> for Result<T> {
    ghost validates = { WithoutFormatError };

    fn ok_for_format_error(self) -> Result<Option<T>> {
        match self {
            Ok(value) => Ok(Some(value)),
            Err(CoreError::MalformedData(_)) => Ok(None),
            Err(error) => Err(error),
        }
    }
}
