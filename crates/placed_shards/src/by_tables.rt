//! The records of a range of hashes, in the rows that a shard's lookup tables name for it.

ghost use Rattle.std.specs.Prelude.{◌≡◌, map, true, MatchResult};
ghost use Rattle.xet_records.specs.RecordKind.{in_version};
ghost use Rattle.placed_shards.specs.ByTables.{HasByTable, OpensByTables, ByTablesRefusal};
ghost use Rattle.placed_shards.specs.Content.{content, AscendBoth};
ghost use Rattle.placed_shards.specs.Steps.InRows.{NotRead};

use crate::in_rows::read_in_rows;
use crate::placed_file::PlacedFile;
use crate::placed_record::PlacedRecord;
use crate::placed_shard::PlacedShard;
use crate::placed_xorb::PlacedXorb;
use crate::range::HashRange;
use crate::tables::SectionTable;
use std::alloc::Global;
use xet_base::error::Result;
use xet_base::source::MemorySource;
use xet_records::record_reader::FormatVersion;
use xet_shards::shard_format::MDBShardInfo;
use xet_shards::shard_writer::{LayoutOptions, bytes_from};

/// The records of a shard in a range, with all tables, its key, creation 0 and no expiry. Of both
/// sections only the rows are read that their tables name for the range.
///
/// The tables need not be trusted: in ranges that partition the hashes, some call fails, or each
/// gives the records of its range ([`tables_lose_no_record`](crate::laws::tables_lose_no_record)).
/// By true tables a call behind a bound fails if a record below the bound has its first word.
///
/// `ShardVersion` or `UnexpectedEof` if there is no header and footer; `InvalidArguments` unless
/// these rows are whole records whose hashes strictly ascend in the range, from row 0 on without a
/// lower bound, and up to the bookend without an upper bound; or `OutOfMemory`.
pub fn open_by_tables<'a>(
    alloc: Global,
    bytes: &'a [u8],
    range: &HashRange,
) -> Result<PlacedShard<'a>>
    ensures { MatchResult result
        (λ s. (s.as_read ≡ true) × AscendBoth (content s)
        × OpensByTables range.now bytes.now (content s)) (ByTablesRefusal range.now bytes.now) }
{
    let mut source = MemorySource::new(bytes);
    let info = MDBShardInfo::load_from_reader(alloc, &mut source)?;
    let version = FormatVersion::of_header(info.header.version);
    let from_files = bytes_from(bytes, info.metadata.file_info_offset);
    let file_table = SectionTable::of_files(bytes, &info);
    let files = read_by_table::<PlacedFile<'a>>(alloc, from_files, version, &file_table, range)?;
    let from_xorbs = bytes_from(bytes, info.metadata.xorb_info_offset);
    let xorb_table = SectionTable::of_xorbs(bytes, &info);
    let xorbs = read_by_table::<PlacedXorb<'a>>(
        alloc,
        from_xorbs,
        FormatVersion::V3,
        &xorb_table,
        range,
    )?;
    let options = LayoutOptions {
        key: info.metadata.chunk_hash_hmac_key,
        ..LayoutOptions::plain(None)
    };
    Ok(PlacedShard {
        options,
        as_read: true,
        files,
        xorbs,
    })
}

// As `read_in_rows`, of the rows that a table names.
fn read_by_table<'a, P: PlacedRecord<'a> + Drop>(
    alloc: Global,
    section: &'a [u8],
    version: FormatVersion,
    table: &SectionTable<'_>,
    range: &HashRange,
) -> Result<Vec<P>>
    ensures { MatchResult result
        (λ records. HasByTable (in_version P.kind version) range.now section.now table.now.rows.now
        table.now.last (map P.kind.as_read records.items))
        (NotRead (HasByTable (in_version P.kind version) range.now section.now table.now.rows.now
        table.now.last)) }
{
    let first = table.first_row(&range.from);
    let end = table.end_row(&range.to);
    read_in_rows::<P>(alloc, section, version, first, end, range)
}
