//! The parts of a concatenation in tested order, and its footer.

ghost use Rattle.std.specs.Prelude.{◌≡◌, ◌+◌, ◌<◌, List, All, IfOk, IfErr, map};
ghost use Rattle.xet_records.specs.declared.file_structs.MDBFileInfo.{MDBFileInfo};
ghost use Rattle.xet_records.specs.declared.xorb_structs.MDBXorbInfo.{MDBXorbInfo};
ghost use Rattle.xet_records.specs.FileRecord.{FitsRecord};
ghost use Rattle.shard_concatenation.specs.Concatenation.{ShardPart, bytes_of_part, IsPartUnder, files_in, xorbs_in, version_in, AscendBoth, AreConsecutiveParts, RefusesConcatenation};
ghost use Rattle.xet_core_structures.specs.TwoShards.ByteResults.{keyed_options};
ghost use Rattle.shard_concatenation.specs.Steps.Gathering.{HasTotals, HasSizes, HasGathered, IsFooterOf};
ghost use Rattle.xet_base.specs.declared.merklehash.DataHash.{DataHash};
ghost use Rattle.xet_shards.specs.Write.Layout.{footer_value};

use crate::gathering::{GatheredParts, Totals, gather};
use crate::part_order::check_order;
use crate::part_split::split_shard;
use std::alloc::Global;
use xet_base::error::{CoreError, Result};
use xet_base::merklehash::HMACKey;
use xet_records::file_structs::MDBFileInfo;
use xet_records::rows::ROW_SIZE;
use xet_records::xorb_structs::MDBXorbInfo;
use xet_shards::shard_format::{CHUNK_ROW_SIZE, HEADER_SIZE, MDBShardFileFooter, START_ROW_SIZE};

/// The errors are those of [`concatenate_shards_into`], but for the tables.
pub fn ordered_parts<'a>(alloc: Global, shards: &[&'a [u8]]) -> Result<GatheredParts<'a>>
    ensures gathered { (key : DataHash) → (parts : List ShardPart) → All (IsPartUnder key) parts
        → map bytes_of_part parts ≡ map (λ x. x.now) shards.now
        → IfOk result
        (λ g. (g.key ≡ key)
        × HasGathered g.files.items g.xorbs.items g.cursors.items g.totals parts) }
    ensures version { (key : DataHash) → (parts : List ShardPart) → All (IsPartUnder key) parts
        → map bytes_of_part parts ≡ map (λ x. x.now) shards.now
        → IfOk result (λ g. g.version ≡ version_in parts) }
    ensures order { (key : DataHash) → (parts : List ShardPart) → All (IsPartUnder key) parts
        → map bytes_of_part parts ≡ map (λ x. x.now) shards.now
        → All (λ part. AscendBoth part.files part.xorbs) parts
        → IfOk result (λ _. AscendBoth (files_in parts) (xorbs_in parts)) }
    ensures succeeds { (key : DataHash) → (parts : List ShardPart) → AreConsecutiveParts key parts
        → map bytes_of_part parts ≡ map (λ x. x.now) shards.now
        → IfErr result (λ e. e ≡ CoreError.OutOfMemory) }
    ensures sizes { IfOk result (λ g. HasSizes g.files.items g.xorbs.items g.totals) }
    ensures causes { IfErr result (RefusesConcatenation (map (λ x. x.now) shards.now)) }
{
    if shards.is_empty() {
        return Err(CoreError::InvalidArguments);
    }
    let key = split_shard(alloc, shards[0])?.footer.chunk_hash_hmac_key;
    let gathered = gather(alloc, shards, key)?;
    check_order::<MDBFileInfo>(alloc, gathered.files.as_slice())?;
    check_order::<MDBXorbInfo>(alloc, gathered.xorbs.as_slice())?;
    Ok(gathered)
}

/// The footer of the whole, which has `chunks` chunks.
pub fn footer_of_parts(totals: &Totals, chunks: u32, key: HMACKey) -> MDBShardFileFooter
    ensures value { (files : List MDBFileInfo) → (xorbs : List MDBXorbInfo) → All FitsRecord files
        → HasTotals totals.now files xorbs → chunks + totals.now.xorbs ≡ totals.now.xorb_rows
        → result ≡ footer_value files xorbs (keyed_options key) }
    ensures end { chunks + totals.now.xorbs ≡ totals.now.xorb_rows
        → IsFooterOf totals.now result }
{
    let row_size = ROW_SIZE as u64;
    let start_row_size = START_ROW_SIZE as u64;
    let xorb_info_offset = HEADER_SIZE + row_size * u64::from(totals.file_rows) + row_size;
    let file_lookup_offset = xorb_info_offset + row_size * u64::from(totals.xorb_rows) + row_size;
    let xorb_lookup_offset = file_lookup_offset + start_row_size * u64::from(totals.files);
    let chunk_lookup_offset = xorb_lookup_offset + start_row_size * u64::from(totals.xorbs);
    MDBShardFileFooter {
        file_info_offset: HEADER_SIZE,
        xorb_info_offset,
        file_lookup_offset,
        file_lookup_num_entry: u64::from(totals.files),
        xorb_lookup_offset,
        xorb_lookup_num_entry: u64::from(totals.xorbs),
        chunk_lookup_offset,
        chunk_lookup_num_entry: u64::from(chunks),
        chunk_hash_hmac_key: key,
        stored_bytes_on_disk: totals.stored_bytes_on_disk,
        materialized_bytes: totals.materialized_bytes,
        stored_bytes: totals.stored_bytes,
        footer_offset: chunk_lookup_offset + CHUNK_ROW_SIZE as u64 * u64::from(chunks),
        ..MDBShardFileFooter::default()
    }
}
