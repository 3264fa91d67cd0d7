//! Counts of a shard written in parts, and its footer.

ghost use Rattle.std.specs.Prelude.{◌≡◌, ◌+◌, ◌/◌, ◌<◌, ◌≤◌, ◌^◌, [], MatchResult};
ghost use Rattle.xet_base.specs.Errors.{IsInvalidShard};
ghost use Rattle.mdb_assembly.specs.Assembly.{CountsRecords, IsFooterOf, AddsSums, FitSums};

use crate::part_ranges::invalid_shard;
use std::alloc::Global;
use xet_core_structures::error::Result;
use xet_core_structures::merklehash::HMACKey;
use xet_core_structures::rows::ROW_SIZE;
use xet_core_structures::shard_format::{
    CHUNK_ROW_SIZE, HEADER_SIZE, MDBShardFileFooter, START_ROW_SIZE,
};

/// The rows of a shard's sections and tables, and its sums of bytes.
#[derive(Clone, Copy)]
pub struct Counts {
    /// The rows of the files, without the bookend.
    pub file_rows: u32,
    /// The rows of the file table.
    pub files: u32,
    /// The rows of the xorbs, without the bookend.
    pub xorb_rows: u32,
    /// The rows of the xorb table.
    pub xorbs: u32,
    /// The rows of the chunk table.
    pub chunks: u32,
    pub stored_bytes_on_disk: u64,
    pub materialized_bytes: u64,
    pub stored_bytes: u64,
}

impl Counts {
    /// The counts of a shard without records.
    pub fn none() -> Counts
        ensures { CountsRecords result [] [] }
    {
        Counts {
            file_rows: 0,
            files: 0,
            xorb_rows: 0,
            xorbs: 0,
            chunks: 0,
            stored_bytes_on_disk: 0,
            materialized_bytes: 0,
            stored_bytes: 0,
        }
    }

    /// The counts with a footer's sums of bytes. `InvalidShard` exactly if one passes 64 bits.
    pub fn with_sums(&self, alloc: Global, footer: &MDBShardFileFooter) -> Result<Counts>
        ensures { MatchResult result (AddsSums footer.now self.now)
            (λ e. IsInvalidShard e × (FitSums footer.now self.now → ⊥)) }
    {
        Ok(Counts {
            stored_bytes_on_disk: sum(
                alloc,
                self.stored_bytes_on_disk,
                footer.stored_bytes_on_disk,
            )?,
            materialized_bytes: sum(alloc, self.materialized_bytes, footer.materialized_bytes)?,
            stored_bytes: sum(alloc, self.stored_bytes, footer.stored_bytes)?,
            ..*self
        })
    }

    /// The shard's footer, with an expiry in seconds or none.
    pub fn footer(&self, key: HMACKey, expiry: Option<u64>) -> MDBShardFileFooter
        ensures { IsFooterOf self.now key expiry result }
    {
        let row_size = ROW_SIZE as u64;
        let start_row_size = START_ROW_SIZE as u64;
        let file_info_offset = HEADER_SIZE;
        let xorb_info_offset = file_info_offset + row_size * u64::from(self.file_rows) + row_size;
        let file_lookup_offset = xorb_info_offset + row_size * u64::from(self.xorb_rows) + row_size;
        let xorb_lookup_offset = file_lookup_offset + start_row_size * u64::from(self.files);
        let chunk_lookup_offset = xorb_lookup_offset + start_row_size * u64::from(self.xorbs);
        let chunk_row_size = CHUNK_ROW_SIZE as u64;
        MDBShardFileFooter {
            file_info_offset,
            xorb_info_offset,
            file_lookup_offset,
            file_lookup_num_entry: u64::from(self.files),
            xorb_lookup_offset,
            xorb_lookup_num_entry: u64::from(self.xorbs),
            chunk_lookup_offset,
            chunk_lookup_num_entry: u64::from(self.chunks),
            chunk_hash_hmac_key: key,
            shard_key_expiry: expiry.unwrap_or(u64::MAX),
            stored_bytes_on_disk: self.stored_bytes_on_disk,
            materialized_bytes: self.materialized_bytes,
            stored_bytes: self.stored_bytes,
            footer_offset: chunk_lookup_offset + chunk_row_size * u64::from(self.chunks),
            ..MDBShardFileFooter::default()
        }
    }
}

/// The rows with those in so many bytes more. `InvalidShard` exactly if they pass 32 bits.
pub fn with_rows(alloc: Global, rows: u32, bytes: u64, row_size: u64) -> Result<u32>
    requires { 0 < row_size }
    ensures { MatchResult result (λ n. n ≡ rows + bytes / row_size)
        (λ e. IsInvalidShard e × (2 ^ 32 ≤ rows + bytes / row_size)) }
{
    let Ok(more) = u32::try_from(bytes / row_size) else {
        return Err(invalid_shard(alloc));
    };
    match rows.checked_add(more) {
        Some(rows) => Ok(rows),
        None => Err(invalid_shard(alloc)),
    }
}

/// The sum. `InvalidShard` exactly if it passes 64 bits.
pub fn sum(alloc: Global, one: u64, other: u64) -> Result<u64>
    ensures { MatchResult result (λ n. n ≡ one + other)
        (λ e. IsInvalidShard e × (2 ^ 64 ≤ one + other)) }
{
    match one.checked_add(other) {
        Some(sum) => Ok(sum),
        None => Err(invalid_shard(alloc)),
    }
}
