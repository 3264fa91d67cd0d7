//! A shard in a version of the format.

ghost use Rattle.std.specs.Prelude.{length, IfOk, MatchResult};
ghost use Rattle.placed_shards.specs.Content.{content};
ghost use Rattle.shard_bytes.specs.Versions.{IsSameShard, IsInVersion, RefusesSameShard, RefusesVersion};
ghost use Rattle.shard_bytes.specs.ResultSizes.{IsRewriteSize};

use crate::load::load_bytes;
use placed_shards::open::open_behind_header;
use placed_shards::placed_shard::PlacedShard;
use std::alloc::Global;
use xet_core_structures::error::Result;
pub use xet_core_structures::record_reader::FormatVersion;
use xet_core_structures::shard_format::MDBShardInfo;
use xet_core_structures::shard_writer::LayoutOptions;

/// The bytes of [`same_shard`] in a version: at most 344 and 4/3 of the given ones.
///
/// Fails as it does; `InvalidArguments` for an auxiliary row in version 2.
pub fn bytes_in_version(alloc: Global, bytes: &[u8], version: FormatVersion) -> Result<Vec<u8>>
    ensures written { MatchResult result (λ written. IsInVersion version bytes.now written.items)
        (RefusesVersion version bytes.now) }
    ensures size { IfOk result (λ written. IsRewriteSize bytes.now (length written.items)) }
{
    same_shard(alloc, bytes)?.to_bytes(alloc, version)
}

/// The shard that bytes hold right behind their header, with the key and timestamps of their footer
/// and the tables that have rows by it. Fails as [`load_bytes`] and [`open_behind_header`] do.
pub fn same_shard<'a>(alloc: Global, bytes: &'a [u8]) -> Result<PlacedShard<'a>>
    ensures { MatchResult result (λ shard. IsSameShard bytes.now (content shard))
        (RefusesSameShard bytes.now) }
{
    let info = load_bytes(alloc, bytes)?;
    Ok(open_behind_header(alloc, bytes)?.with_options(LayoutOptions::of_info(&info)))
}
