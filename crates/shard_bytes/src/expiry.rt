//! Setting the expiry of a shard.

ghost use Rattle.std.specs.Prelude.{◌≡◌, ◌⊎◌, Some, MatchResult};
ghost use Rattle.xet_core_structures.specs.TwoShards.ByteResults.{LoadRefusal};
ghost use Rattle.xet_core_structures.specs.Layout.{layout};
ghost use Rattle.xet_core_structures.specs.Shard.{Shard};
ghost use Rattle.xet_core_structures.specs.WrittenShard.{IsBytesWithoutExpiry};
ghost use Rattle.shard_bytes.specs.Expiry.{HasNewExpiry};

use crate::load::load_bytes;
use std::alloc::Global;
use xet_core_structures::error::{CoreError, Result};
use xet_core_structures::shard_format::FOOTER_SIZE;

/// The bytes of a shard with another expiry, in seconds; all else stays. Fails as [`load_bytes`]
/// does, and with `OutOfMemory`.
pub fn with_expiry(alloc: Global, bytes: Vec<u8>, expiry: u64) -> Result<Vec<u8>>
    ensures any_bytes { MatchResult result (λ changed. HasNewExpiry expiry bytes.items changed.items)
        (λ e. (e ≡ CoreError.OutOfMemory) ⊎ LoadRefusal bytes.items e) }
    ensures of_shard { (s : Shard) → IsBytesWithoutExpiry s bytes.items
        → MatchResult result (λ changed. changed.items ≡ layout s (Some expiry))
        (λ e. e ≡ CoreError.OutOfMemory) }
{
    let mut footer = load_bytes(alloc, bytes.as_slice())?.metadata;
    footer.shard_key_expiry = expiry;
    let mut changed = bytes;
    changed.truncate(changed.len() - FOOTER_SIZE as usize);
    match footer.serialize(&mut changed) {
        Ok(_) => Ok(changed),
        // Writing to a vector fails only so.
        Err(_) => Err(CoreError::OutOfMemory),
    }
}
