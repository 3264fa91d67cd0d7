//! The numbers of errors, and output to the caller's memory.

ghost use Rattle.std.specs.Prelude.{◌≡◌, MatchResult};
ghost use Rattle.xet_core_structures.specs.Errors.{variant_number};
ghost use Rattle.xet_c.specs.Output.{Answers, Delivers, Refuses};

use xet_core_structures::error::{CoreError, Result};

/// `CoreError::BadFilename`.
pub const XET_BAD_FILENAME: u32 = 6;

/// `CoreError::HashParsing`.
pub const XET_HASH_PARSING: u32 = 16;

/// `CoreError::OutOfMemory`.
pub const XET_OUT_OF_MEMORY: u32 = 18;

/// The output does not fit the memory given.
pub const XET_SHORT: u32 = 19;

/// Two shards that have to agree do not.
pub const XET_DISAGREE: u32 = 20;

/// A shard holds a record that no shard may have.
pub const XET_MALFORMED: u32 = 21;

/// The number of an error, 1 to 18.
pub fn error_number(error: &CoreError) -> u32
    ensures { result ≡ variant_number error.now }
{
    u32::from(error.variant_number())
}

/// As [`give`]. After an error `written` is 0, `out` stays, and the error's number is returned.
pub fn deliver<T: Copy + Drop>(made: Result<Vec<T>>, out: &mut [T], written: &mut usize) -> u32
    ensures { MatchResult made
        (λ items. Delivers items.items out.old out.new written.new result)
        (λ error. Refuses error out.old out.new written.new result) }
{
    match made {
        Ok(items) => give(items.as_slice(), out, written),
        Err(error) => {
            *written = 0;
            error_number(&error)
        }
    }
}

/// Copies items to the front of `out`, and sets `written` to their number. If they do not fit,
/// returns 19 instead of 0, and `out` stays.
pub fn give<T: Copy>(items: &[T], out: &mut [T], written: &mut usize) -> u32
    ensures { Delivers items.now out.old out.new written.new result }
{
    *written = items.len();
    if out.len() < items.len() {
        return XET_SHORT;
    }
    out[..items.len()].copy_from_slice(items);
    0
}

/// The result of a call that wrote to `room` bytes itself: 0, 19 or the error's number. `written`
/// is the number of bytes made, also if they did not fit; after an error, 0.
pub fn answer(filled: Result<usize>, room: usize, written: &mut usize) -> u32
    ensures { MatchResult filled (Answers room written.new result)
        (λ error. (result ≡ variant_number error) × (written.new ≡ 0)) }
{
    match filled {
        Ok(size) => {
            *written = size;
            if size <= room { 0 } else { XET_SHORT }
        }
        Err(error) => {
            *written = 0;
            error_number(&error)
        }
    }
}
