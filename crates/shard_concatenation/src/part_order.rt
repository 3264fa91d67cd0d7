//! The test that hashes ascend from each shard to the next.

ghost use Rattle.std.specs.Prelude.{◌≡◌, ◌+◌, ◌-◌, ◌*◌, ◌<◌, ◌⊎◌, List, All, length, take, drop, MatchOption, MatchResult, IfErr};
ghost use Rattle.xet_base.specs.Errors.{IsInvalidShard};
ghost use Rattle.xet_records.specs.Rows.{ReadsRow};
ghost use Rattle.shard_concatenation.specs.Steps.SectionsSteps.{HoldSections, all_of};
ghost use Rattle.shard_concatenation.specs.Steps.PartOrder.{PartHoldsRecords, HasEnds, is_after};
ghost use Rattle.xet_base.specs.Bytes.{u32_bytes};
ghost use Rattle.xet_shards.specs.Write.WithOptions.{Ascends};

use crate::section_parts::SectionPart;
use std::alloc::Global;
use std::cmp::Ordering;
use xet_base::error::{CoreError, Result};
use xet_base::fields::split_u32;
use xet_base::merklehash::MerkleHash;
use xet_records::record_bytes::row;
use xet_records::record_reader::SectionRecord;
use xet_records::rows::{ROW_SIZE, Row};

/// The first and the last hash of a section.
#[derive(Clone, Copy, Debug)]
pub struct EndHashes {
    pub first: MerkleHash,
    pub last: MerkleHash,
}

/// `InvalidArguments` if hashes don't ascend from each section to the next with records;
/// `InvalidShard` if a section lacks the last record that its table names.
pub fn check_order<R: SectionRecord>(alloc: Global, sections: &[SectionPart<'_>]) -> Result<()>
    ensures order { (records : List (List R)) → HoldSections R.kind sections.now records
        → All (All R.kind.IsStored) records → All (Ascends R.kind) records
        → MatchResult result (λ _. Ascends R.kind (all_of records))
        (λ e. (e ≡ CoreError.InvalidArguments) × (Ascends R.kind (all_of records) → ⊥)) }
    ensures causes { IfErr result (λ e. IsInvalidShard e ⊎ (e ≡ CoreError.InvalidArguments)) }
{
    R::laws();
    let mut last: Option<MerkleHash> = None;
    for section in sections {
        if section.rows.is_empty() {
            continue;
        }
        let Some(ends) = end_hashes::<R>(section) else {
            return Err(CoreError::InvalidShard(String::new(alloc)));
        };
        if !is_after(&ends.first, last) {
            return Err(CoreError::InvalidArguments);
        }
        last = Some(ends.last);
    }
    Ok(())
}

fn is_after(first: &MerkleHash, last: Option<MerkleHash>) -> bool
    ensures { result ≡ is_after last first.now }
{
    match last {
        Some(last) => last.cmp(first) == Ordering::Less,
        None => true,
    }
}

// `None` if one of the records is missing.
fn end_hashes<R: SectionRecord>(section: &SectionPart<'_>) -> Option<EndHashes>
    ensures { (records : List R) → PartHoldsRecords R.kind section.now records → 0 < length records
        → MatchOption result ⊥ (HasEnds R.kind records) }
{
    R::laws();
    let first = header_at::<R>(section.rows, 0)?;
    let last = header_at::<R>(section.rows, last_row(section.table)?)?;
    Some(EndHashes {
        first: R::hash(&first),
        last: R::hash(&last),
    })
}

// The row of the last record: the table's last number.
fn last_row(table: &[u8]) -> Option<u32>
    ensures { MatchOption result (length table.now < 4)
        (λ row. drop (length table.now - 4) table.now ≡ u32_bytes row) }
{
    let at = table.len().checked_sub(4)?;
    Some(split_u32(&table[at..]).0)
}

// `None` past the end.
fn header_at<R: SectionRecord>(rows: &[u8], index: u32) -> Option<R::Header>
    ensures { MatchOption result (length rows.now < 48 * index + 48)
        (ReadsRow R.Header.row_bytes R.Header.Fits R.Header.as_read
        (λ bytes. bytes ≡ take 48 (drop (48 * index) rows.now))) }
{
    let index = index as usize;
    if rows.len() < ROW_SIZE * index + ROW_SIZE {
        return None;
    }
    Some(row(rows, index))
}
