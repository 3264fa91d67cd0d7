//! Sections in memory, whose records stay where they lie.

ghost use Rattle.std.specs.Prelude.{◌≡◌, ◌+◌, ◌*◌, ◌↔◌, drop, IsTrue, IfSome, MatchResult};
ghost use Rattle.std.specs.declared.cmp.Ordering.TheVariants.{Less};
ghost use Rattle.xet_base.specs.Hash.{hash_cmp};
ghost use Rattle.xet_records.specs.RecordKind.{in_version};
ghost use Rattle.xet_shards.specs.Export.KeyedExport.{BadSection};
ghost use Rattle.xet_shards.specs.Read.SectionReading.{IsSection};
ghost use Rattle.xet_shards.specs.Write.Section.{total_rows};
ghost use Rattle.xet_shards.specs.Write.WithOptions.{Ascends};
ghost use Rattle.xet_core_structures.specs.Steps.MergeJoin.{SectionRefusal};

use crate::next_record::{NextRecord, next_record};
use crate::placed_record::PlacedRecord;
use std::alloc::Global;
use std::cmp::Ordering;
use xet_base::error::{CoreError, Result};
use xet_base::merklehash::MerkleHash;
use xet_records::record_reader::FormatVersion;
use xet_records::rows::{ROW_LIMIT, ROW_SIZE};
use xet_shards::shard_writer::bytes_from;

/// A section's records, and the bytes behind it.
#[derive(Drop)]
pub struct Section<'a, P> {
    pub records: Vec<P>,
    pub rest: &'a [u8],
}

/// The section that bytes begin with, whose records may be in any order.
///
/// `UnexpectedEof` if the bytes end before the bookend; `InvalidShard` if the version does not have
/// a header, or the rows pass 4294967295; or `OutOfMemory`.
pub fn read_section<'a, P: PlacedRecord<'a> + Drop>(
    alloc: Global,
    bytes: &'a [u8],
    version: FormatVersion,
) -> Result<Section<'a, P>>
    ensures { MatchResult result
        (λ section. IsSection (in_version P.kind version) bytes.now section.records.items
        × (section.rest.now ≡ drop (48 * (total_rows P.kind section.records.items + 1)) bytes.now))
        (BadSection (in_version P.kind version) bytes.now) }
{
    P::laws();
    let mut records = Vec::new(alloc);
    let mut rows_left = ROW_LIMIT;
    let mut rest = bytes;
    while let Some(next) = next_record::<P>(alloc, rest, version, &mut rows_left)? {
        let NextRecord {
            record,
            rest: after,
        } = next;
        records.push(record)?;
        rest = after;
    }
    Ok(Section {
        records,
        rest: bytes_from(rest, ROW_SIZE as u64),
    })
}

/// The records of [`read_section`], but `InvalidShard` also if a hash is not above the one before
/// it. Of several faults the first in the bytes is answered.
pub(crate) fn read_ascending<'a, P: PlacedRecord<'a> + Drop>(
    alloc: Global,
    bytes: &'a [u8],
    version: FormatVersion,
) -> Result<Vec<P>>
    ensures { MatchResult result
        (λ records. IsSection (in_version P.kind version) bytes.now records.items
        × Ascends P.kind records.items)
        (SectionRefusal P.kind version bytes.now) }
{
    P::laws();
    let mut records = Vec::new(alloc);
    let mut rows_left = ROW_LIMIT;
    let mut before = None;
    let mut rest = bytes;
    while let Some(next) = next_record::<P>(alloc, rest, version, &mut rows_left)? {
        let NextRecord {
            record,
            rest: after,
        } = next;
        let hash = record.hash();
        if !is_after(before, &hash) {
            return Err(CoreError::InvalidShard(String::new(alloc)));
        }
        before = Some(hash);
        records.push(record)?;
        rest = after;
    }
    Ok(records)
}

/// Whether a hash is above another, if there is one.
pub fn is_after(before: Option<MerkleHash>, hash: &MerkleHash) -> bool
    ensures { IsTrue result ↔ IfSome before (λ b. hash_cmp b hash.now ≡ Less) }
{
    match before {
        Some(before) => before.cmp(hash) == Ordering::Less,
        None => true,
    }
}
