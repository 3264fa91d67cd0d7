//! Reading sections from a source.

ghost use Rattle.std.specs.Prelude.{MatchResult};
ghost use Rattle.xet_records.specs.RecordKind.{in_version};
ghost use Rattle.xet_records.specs.XorbRecord.{xorb_records};
ghost use Rattle.xet_shards.specs.Read.SectionReading.{ReadsSection, SectionFails};
ghost use Rattle.xet_shards.specs.Lookup.Lookup.{ReadsInfo, ReadInfoFails};
ghost use Rattle.xet_shards.specs.Read.XorbHeaders.{header_at, ReadsXorbHeaders};

use super::section_walk::{WalkItem, walk_section};
use std::alloc::Global;
use xet_base::error::{CoreError, Result};
use xet_base::input::OfSource;
use xet_base::source::ShardSource;
use xet_records::record_reader::{
    FormatVersion, MAX_ROWS_OF_RECORD, SectionRecord, read_record, read_section,
};
use xet_records::rows::ROW_SIZE;
use xet_records::xorb_structs::{MDBXorbInfo, XorbChunkSequenceHeader};

/// Reads the section at an offset.
pub(in crate::shard_format) fn read_section_at<R: SectionRecord + Drop, S: ShardSource>(
    alloc: Global,
    source: &mut S,
    version: FormatVersion,
    offset: u64,
) -> Result<Vec<R>>
    ensures { MatchResult result
        (λ found. ReadsSection (in_version R.kind version) (S.meaning source.old)
        (S.meaning source.new) offset found.items)
        (SectionFails (in_version R.kind version) (S.meaning source.old) (S.meaning source.new)
        offset) }
{
    R::laws();
    source.seek_to(offset)?;
    read_section::<R, OfSource, S>(alloc, source, version)
}

/// Reads the record at a row of the section at an offset.
pub(in crate::shard_format) fn read_record_at<R: SectionRecord + Drop, S: ShardSource>(
    alloc: Global,
    source: &mut S,
    version: FormatVersion,
    offset: u64,
    row: u32,
) -> Result<R>
    ensures { MatchResult result
        (ReadsInfo (in_version R.kind version) offset row (S.meaning source.old)
        (S.meaning source.new))
        (ReadInfoFails (in_version R.kind version) offset row (S.meaning source.old)
        (S.meaning source.new)) }
{
    R::laws();
    let distance = ROW_SIZE as u64 * u64::from(row);
    let Some(row_offset) = offset.checked_add(distance) else {
        return Err(CoreError::InvalidShard(String::new(alloc)));
    };
    source.seek_to(row_offset)?;
    let mut rows_left = MAX_ROWS_OF_RECORD;
    match read_record::<R, OfSource, S>(alloc, source, version, &mut rows_left)? {
        Some(found) => Ok(found),
        None => Err(CoreError::InternalError(String::new(alloc))),
    }
}

/// Reads the headers of the xorb section at an offset, each with its own offset.
pub(in crate::shard_format) fn read_xorb_headers<S: ShardSource>(
    alloc: Global,
    source: &mut S,
    offset: u64,
) -> Result<Vec<(XorbChunkSequenceHeader, u64)>>
    ensures { MatchResult result
        (λ found. ReadsXorbHeaders (S.meaning source.old) (S.meaning source.new) offset found.items)
        (SectionFails xorb_records (S.meaning source.old) (S.meaning source.new) offset) }
{
    source.seek_to(offset)?;
    walk_section::<MDBXorbInfo, (XorbChunkSequenceHeader, u64), S>(alloc, source, FormatVersion::V3)
}

impl WalkItem<MDBXorbInfo> for (XorbChunkSequenceHeader, u64) {
    ghost keep = { header_at };

    fn of_record(offset: u64, header: &XorbChunkSequenceHeader, _rest: ()) -> Self {
        (*header, offset)
    }
}
