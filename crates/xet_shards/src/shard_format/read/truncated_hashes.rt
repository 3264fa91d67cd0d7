//! The first words of chunk hashes.

ghost use Rattle.std.specs.Prelude.{◌≡◌, ◌≢◌, ◌⊎◌, ℕ, Option, ◌≤◌, ◌++◌, length, map, MatchResult, OnOk, IfOk, IfErr};
ghost use Rattle.std.specs.FinMap as finite;
ghost use Rattle.xet_shards.specs.Content.Shard.{Shard};
ghost use Rattle.xet_shards.specs.Write.Tables.{chunk_table_rows_from, chunk_table};
ghost use Rattle.xet_shards.specs.Write.WrittenShard.{IsBytesWithInfo, ReadsBack};
ghost use Rattle.xet_shards.specs.Read.TableReading.{triple_of, triple_row, FitsTriple, ReadsTable, TableFails};
ghost use Rattle.xet_shards.specs.Read.TruncatedHashes.{ReadsHashes, HashesFail};
ghost use Rattle.xet_shards.specs.Steps.TruncatedHashesSteps.{ReadsBefore, XorbBeforeFails};
ghost use Rattle.xet_records.specs.Limits.{MAX_ROWS};

use super::table_reader::read_chunk_table;
use crate::shard_format::ends::info::MDBShardInfo;
use crate::utils::truncate_hash;
use std::alloc::Global;
use xet_base::error::{CoreError, Result};
use xet_base::input::OfSource;
use xet_base::source::ShardSource;
use xet_records::record_reader::{FormatVersion, read_record};
use xet_records::rows::ROW_LIMIT;
use xet_records::xorb_structs::{MDBXorbInfo, XorbChunkSequenceEntry};

impl MDBShardInfo {
    /// Reads, for each chunk, the first word of its hash, the row at which its xorb starts, and its
    /// index in the xorb: from the chunk table, or without one from the xorb section, in order, up
    /// to the bookend or the offset of the file table.
    ///
    /// `InvalidShard` past 4294967295 rows; `UnexpectedEof` if the source ends before the table or
    /// the section; `OutOfMemory`; or the source's error.
    pub fn read_all_truncated_hashes<S: ShardSource>(
        &self,
        alloc: Global,
        source: &mut S,
    ) -> Result<Vec<(u64, (u32, u32))>>
        ensures table { self.now.metadata.chunk_lookup_num_entry ≢ 0
            → MatchResult result
            (λ found. ReadsTable triple_row FitsTriple 16 (S.meaning source.old)
            (S.meaning source.new) self.now.metadata.chunk_lookup_offset
            self.now.metadata.chunk_lookup_num_entry found.items)
            (TableFails 16 (S.meaning source.old) (S.meaning source.new)
            self.now.metadata.chunk_lookup_offset
            self.now.metadata.chunk_lookup_num_entry) }
        ensures section { self.now.metadata.chunk_lookup_num_entry ≡ 0
            → MatchResult result
            (λ found. ReadsHashes (S.meaning source.old) (S.meaning source.new)
            self.now.metadata.xorb_info_offset self.now.metadata.file_lookup_offset
            found.items)
            (HashesFail (S.meaning source.old) (S.meaning source.new)
            self.now.metadata.xorb_info_offset self.now.metadata.file_lookup_offset) }
        ensures written { (s : Shard)
            → IsBytesWithInfo s (S.meaning source.old).bytes self.now
            → ReadsBack (map triple_of (chunk_table (finite.values s.xorbs))) (S.meaning source.old)
            (S.meaning source.new) result }
    {
        let rows = self.metadata.chunk_lookup_num_entry;
        if rows == 0 {
            let stop = self.metadata.file_lookup_offset;
            return read_section_hashes(alloc, source, self.metadata.xorb_info_offset, stop);
        }
        read_chunk_table(alloc, source, self.metadata.chunk_lookup_offset, rows)
    }
}

// Reads up to the bookend or a header at or past `stop`.
fn read_section_hashes<S: ShardSource>(
    alloc: Global,
    source: &mut S,
    offset: u64,
    stop: u64,
) -> Result<Vec<(u64, (u32, u32))>>
    ensures { MatchResult result
        (λ found. ReadsHashes (S.meaning source.old) (S.meaning source.new) offset stop found.items)
        (HashesFail (S.meaning source.old) (S.meaning source.new) offset stop) }
{
    source.seek_to(offset)?;
    let mut hashes = Vec::new(alloc);
    let mut rows_left = ROW_LIMIT;
    while let Some(found) = read_xorb_before(alloc, source, stop, &mut rows_left)? {
        push_hashes(&mut hashes, found.0, found.1.chunks.as_slice())?;
    }
    Ok(hashes)
}

// The next xorb and its row; `None` at the bookend or from `stop` on.
fn read_xorb_before<S: ShardSource>(
    alloc: Global,
    source: &mut S,
    stop: u64,
    rows_left: &mut u64,
) -> Result<Option<(u32, MDBXorbInfo)>>
    requires { rows_left.old ≤ MAX_ROWS }
    ensures read { IfOk result
        (ReadsBefore stop (S.meaning source.old) (S.meaning source.new) rows_left.old
        rows_left.new) }
    ensures refused { IfErr result
        (XorbBeforeFails stop rows_left.old (S.meaning source.old) (S.meaning source.new)) }
{
    let offset = source.position()?;
    if offset >= stop {
        return Ok(None);
    }
    let start = (ROW_LIMIT - *rows_left) as u32;
    let Some(xorb) = read_record::<MDBXorbInfo, OfSource, S>(
        alloc,
        source,
        FormatVersion::V3,
        rows_left,
    )?
    else {
        return Ok(None);
    };
    Ok(Some((start, xorb)))
}

fn push_hashes(
    hashes: &mut Vec<(u64, (u32, u32))>,
    start: u32,
    chunks: &[XorbChunkSequenceEntry],
) -> Result<()>
    requires { length chunks.now ≤ MAX_ROWS }
    ensures pushed { OnOk result
        (hashes.new.items
        ≡ hashes.old.items ++ map triple_of (chunk_table_rows_from start chunks.now)) }
    ensures causes { IfErr result (λ e. e ≡ CoreError.OutOfMemory) }
{
    let mut index = 0;
    for chunk in chunks {
        hashes.push((truncate_hash(&chunk.chunk_hash), (start, index)))?;
        index += 1;
    }
    Ok(())
}
