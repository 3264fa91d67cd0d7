//! The sections and tables of many shards, gathered.

ghost use Rattle.std.specs.Prelude.{◌≡◌, ◌+◌, ◌/◌, ◌^◌, ◌≤◌, List, All, IfOk, IfErr, MatchResult, map};
ghost use Rattle.xet_base.specs.Errors.{IsInvalidShard};
ghost use Rattle.shard_concatenation.specs.Concatenation.{ShardPart, bytes_of_part, IsPartUnder, files_in, xorbs_in, version_in, FitTogether, RefusesConcatenation};
ghost use Rattle.shard_concatenation.specs.Steps.Gathering.{AddsPart, FitWith, HasSizes, HasGathered};

use crate::chunk_merging::Cursor;
use crate::part_split::{SplitShard, split_shard};
use crate::section_parts::{SectionPart, add_u32};
use crate::version::later_of;
use std::alloc::Global;
use xet_base::error::{CoreError, Result};
use xet_base::merklehash::HMACKey;
use xet_records::record_reader::FormatVersion;
use xet_records::rows::{ROW_LIMIT, ROW_SIZE};

/// Sums over parts. Rows are without bookends.
#[derive(Clone, Copy, Debug, Default)]
pub struct Totals {
    pub files: u32,
    pub file_rows: u32,
    pub xorbs: u32,
    pub xorb_rows: u32,
    pub materialized_bytes: u64,
    pub stored_bytes: u64,
    pub stored_bytes_on_disk: u64,
}

/// The parts, and the latest of their versions.
#[derive(Drop)]
pub struct GatheredParts<'a> {
    pub files: Vec<SectionPart<'a>>,
    pub xorbs: Vec<SectionPart<'a>>,
    pub cursors: Vec<Cursor<'a>>,
    pub totals: Totals,
    pub version: FormatVersion,
    pub key: HMACKey,
}

// `InvalidShard` if the number does not fit.
fn to_u32(alloc: Global, n: u64) -> Result<u32>
    ensures value { MatchResult result (λ m. m ≡ n) (λ _. 2 ^ 32 ≤ n) }
    ensures causes { IfErr result IsInvalidShard }
{
    if n > ROW_LIMIT {
        return Err(CoreError::InvalidShard(String::new(alloc)));
    }
    Ok(n as u32)
}

// `InvalidShard` if the sum passes `u64`.
fn add_u64(alloc: Global, a: u64, b: u64) -> Result<u64>
    ensures value { MatchResult result (λ n. n ≡ a + b) (λ _. 2 ^ 64 ≤ a + b) }
    ensures causes { IfErr result IsInvalidShard }
{
    match a.checked_add(b) {
        Some(sum) => Ok(sum),
        None => Err(CoreError::InvalidShard(String::new(alloc))),
    }
}

// `InvalidShard` if a sum does not fit.
fn with_part(alloc: Global, totals: &Totals, split: &SplitShard<'_>) -> Result<Totals>
    ensures sums { MatchResult result (AddsPart totals.now split.now)
        (λ _. FitWith totals.now split.now → ⊥) }
    ensures causes { IfErr result IsInvalidShard }
{
    let footer = &split.footer;
    let file_rows = to_u32(alloc, (split.files.len() / ROW_SIZE) as u64)?;
    let xorb_rows = to_u32(alloc, (split.xorbs.len() / ROW_SIZE) as u64)?;
    let files = to_u32(alloc, footer.file_lookup_num_entry)?;
    let xorbs = to_u32(alloc, footer.xorb_lookup_num_entry)?;
    Ok(Totals {
        files: add_u32(alloc, totals.files, files)?,
        file_rows: add_u32(alloc, totals.file_rows, file_rows)?,
        xorbs: add_u32(alloc, totals.xorbs, xorbs)?,
        xorb_rows: add_u32(alloc, totals.xorb_rows, xorb_rows)?,
        materialized_bytes: add_u64(alloc, totals.materialized_bytes, footer.materialized_bytes)?,
        stored_bytes: add_u64(alloc, totals.stored_bytes, footer.stored_bytes)?,
        stored_bytes_on_disk: add_u64(
            alloc,
            totals.stored_bytes_on_disk,
            footer.stored_bytes_on_disk,
        )?,
    })
}

/// `InvalidArguments` if a shard is under another key; the errors of `split_shard`; `InvalidShard`
/// if a sum does not fit; `OutOfMemory`.
pub fn gather<'a>(alloc: Global, shards: &[&'a [u8]], key: HMACKey) -> Result<GatheredParts<'a>>
    ensures gathered { (parts : List ShardPart) → All (IsPartUnder key) parts
        → map bytes_of_part parts ≡ map (λ x. x.now) shards.now
        → IfOk result
        (λ g. HasGathered g.files.items g.xorbs.items g.cursors.items g.totals parts) }
    ensures version { (parts : List ShardPart) → All (IsPartUnder key) parts
        → map bytes_of_part parts ≡ map (λ x. x.now) shards.now
        → IfOk result (λ g. g.version ≡ version_in parts) }
    ensures key { IfOk result (λ g. g.key ≡ key) }
    ensures sizes { IfOk result (λ g. HasSizes g.files.items g.xorbs.items g.totals) }
    ensures succeeds { (parts : List ShardPart) → All (IsPartUnder key) parts
        → map bytes_of_part parts ≡ map (λ x. x.now) shards.now
        → FitTogether (files_in parts) (xorbs_in parts)
        → IfErr result (λ e. e ≡ CoreError.OutOfMemory) }
    ensures causes { IfErr result (RefusesConcatenation (map (λ x. x.now) shards.now)) }
{
    let mut files = Vec::new(alloc);
    let mut xorbs = Vec::new(alloc);
    let mut cursors = Vec::new(alloc);
    let mut totals = Totals::default();
    let mut version = FormatVersion::V2;
    for shard in shards {
        let split = split_shard(alloc, *shard)?;
        if split.footer.chunk_hash_hmac_key != key {
            return Err(CoreError::InvalidArguments);
        }
        let more = with_part(alloc, &totals, &split)?;
        files.push(SectionPart {
            rows: split.files,
            count: more.file_rows - totals.file_rows,
            table: split.file_table,
        })?;
        xorbs.push(SectionPart {
            rows: split.xorbs,
            count: more.xorb_rows - totals.xorb_rows,
            table: split.xorb_table,
        })?;
        cursors.push(Cursor {
            rest: split.chunk_table,
            first: totals.xorb_rows,
        })?;
        totals = more;
        version = later_of(version, split.version);
    }
    Ok(GatheredParts {
        files,
        xorbs,
        cursors,
        totals,
        version,
        key,
    })
}
