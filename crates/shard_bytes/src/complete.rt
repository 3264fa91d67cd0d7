//! Completing a shard whose bytes stop after its sections.

ghost use Rattle.std.specs.Prelude.{◌≡◌, List, length, IfOk, MatchResult};
ghost use Rattle.xet_core_structures.specs.declared.error.CoreError.{CoreError};
ghost use Rattle.placed_shards.specs.Content.{content};
ghost use Rattle.xet_core_structures.specs.declared.file_structs.MDBFileInfo.{MDBFileInfo};
ghost use Rattle.xet_core_structures.specs.declared.xorb_structs.MDBXorbInfo.{MDBXorbInfo};
ghost use Rattle.xet_shards.specs.Read.SectionsBehindHeader.{HasSections};
ghost use Rattle.xet_core_structures.specs.Records.ShardContents.{HoldsShard};
ghost use Rattle.xet_core_structures.specs.TwoShards.ByteResults.{keyed_options};
ghost use Rattle.xet_core_structures.specs.Shard.{Shard, IsShard};
ghost use Rattle.shard_bytes.specs.Completing.{Completes, RefusesCompletion};
ghost use Rattle.shard_bytes.specs.Exporting.{FollowsHeader};
ghost use Rattle.shard_bytes.specs.ResultSizes.{IsRewriteSize};

use placed_shards::open::open_behind_header;
use placed_shards::placed_shard::PlacedShard;
use std::alloc::Global;
use xet_core_structures::error::Result;
use xet_core_structures::merklehash::HMACKey;
use xet_core_structures::record_reader::FormatVersion;
use xet_core_structures::shard_writer::LayoutOptions;

/// Completes bytes that have the header and both sections of a shard, whatever comes after these:
/// in version 3, with all tables, creation 0, no expiry, and chunk hashes said to be under `key`;
/// zeros are none. The result has at most 344 and 4/3 of the given bytes. Fails as
/// [`open_behind_header`] does.
pub fn complete_bytes(alloc: Global, bytes: &[u8], key: HMACKey) -> Result<Vec<u8>>
    ensures completed { MatchResult result (λ whole. Completes key bytes.now whole.items)
        (RefusesCompletion bytes.now) }
    ensures of_shard { (s : Shard) → IsShard s → FollowsHeader s bytes.now
        → MatchResult result (λ whole. HoldsShard key s whole.items)
        (λ e. e ≡ CoreError.OutOfMemory) }
    ensures size { IfOk result (λ whole. IsRewriteSize bytes.now (length whole.items)) }
{
    completed(alloc, bytes, key)?.to_bytes(alloc, FormatVersion::V3)
}

/// The shard whose bytes [`complete_bytes`] makes, with its errors.
pub fn completed<'a>(alloc: Global, bytes: &'a [u8], key: HMACKey) -> Result<PlacedShard<'a>>
    ensures { MatchResult result
        (λ shard. (files : List MDBFileInfo) × (xorbs : List MDBXorbInfo)
        × HasSections bytes.now files xorbs
        × (content shard ≡ record { files = files; xorbs = xorbs; options = keyed_options key }))
        (RefusesCompletion bytes.now) }
{
    let shard = open_behind_header(alloc, bytes)?;
    let options = LayoutOptions {
        key,
        ..shard.options
    };
    Ok(shard.with_options(options))
}
