//! The ranges of a part between its footer's offsets.

ghost use Rattle.std.specs.Prelude.{◌≡◌, ◌+◌, ◌<◌, ◌≤◌, ◌⊎◌, length, MatchResult, slice_range};
ghost use Rattle.xet_base.specs.Errors.{IsInvalidShard};

use std::alloc::Global;
use xet_core_structures::error::{CoreError, Result};
use xet_core_structures::rows::ROW_SIZE;

/// The offset of the bookend of a section that ends at `end`. `InvalidShard` exactly if it has no
/// room for one.
pub fn before_bookend(alloc: Global, end: u64) -> Result<u64>
    ensures { MatchResult result (λ start. start + 48 ≡ end) (λ e. IsInvalidShard e × (end < 48)) }
{
    match end.checked_sub(ROW_SIZE as u64) {
        Some(start) => Ok(start),
        None => Err(invalid_shard(alloc)),
    }
}

/// The bytes from an offset up to another. `InvalidShard` exactly if the part lacks them.
pub fn range(alloc: Global, part: &[u8], from: u64, to: u64) -> Result<&[u8]>
    ensures { MatchResult result
        (λ bytes. (bytes.now ≡ slice_range part.now from to) × (from ≤ to) × (to ≤ length part.now))
        (λ e. IsInvalidShard e × ((to < from) ⊎ (length part.now < to))) }
{
    check_range(alloc, part.len(), from, to)?;
    Ok(&part[from as usize..to as usize])
}

/// `InvalidShard` exactly if so many bytes have no such range.
pub fn check_range(alloc: Global, size: usize, from: u64, to: u64) -> Result<()>
    ensures { MatchResult result (λ _. (from ≤ to) × (to ≤ size))
        (λ e. IsInvalidShard e × ((to < from) ⊎ (size < to))) }
{
    if from > to || to > size as u64 {
        return Err(invalid_shard(alloc));
    }
    Ok(())
}

/// The error of a part that is no shard, or of too much for one shard.
pub fn invalid_shard(alloc: Global) -> CoreError
    ensures { IsInvalidShard result }
{
    CoreError::InvalidShard(String::new(alloc))
}
