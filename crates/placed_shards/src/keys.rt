//! Xorbs whose chunk hashes are under a key.

ghost use Rattle.std.specs.Prelude.{◌≡◌, map, MatchResult};
ghost use Rattle.xet_base.specs.declared.error.CoreError.{CoreError};
ghost use Rattle.xet_shards.specs.Export.KeyedExport.{keyed_xorb, keyed_xorbs};

use crate::placed_record::PlacedRecord;
use crate::placed_xorb::PlacedXorb;
use crate::values::{place_xorb, read_xorb};
use bumpalo::Bump;
use std::alloc::Global;
use xet_base::error::Result;
use xet_base::merklehash::HMACKey;
use xet_shards::shard_writer::with_keyed_hashes;

/// The xorbs with their chunk hashes under a key, or `OutOfMemory`. The key of zeros is none.
pub(crate) fn all_keyed<'a>(
    alloc: Global,
    arena: &'a Bump,
    mut xorbs: Vec<PlacedXorb<'a>>,
    key: HMACKey,
) -> Result<Vec<PlacedXorb<'a>>>
    ensures { MatchResult result (λ keyed. keyed.items ≡ keyed_xorbs key xorbs.entry.items)
        (λ e. e ≡ CoreError.OutOfMemory) }
{
    if key == HMACKey::default() {
        return Ok(xorbs);
    }
    for index in 0..xorbs.len() {
        xorbs[index] = keyed(alloc, arena, &xorbs[index], key)?;
    }
    Ok(xorbs)
}

fn keyed<'a>(
    alloc: Global,
    arena: &'a Bump,
    xorb: &PlacedXorb<'_>,
    key: HMACKey,
) -> Result<PlacedXorb<'a>>
    ensures { MatchResult result (λ placed. placed ≡ keyed_xorb key xorb.now)
        (λ e. e ≡ CoreError.OutOfMemory) }
{
    xorb.is_stored();
    let record = read_xorb(alloc, xorb)?;
    place_xorb(arena, &with_keyed_hashes(record, key))
}
