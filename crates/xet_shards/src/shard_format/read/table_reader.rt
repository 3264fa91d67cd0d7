//! Reading the xorb table and the chunk table whole.

ghost use Rattle.std.specs.Prelude.{◌≡◌, ◌⊎◌, ℕ, List, Option, MatchResult, IfOk, IfErr, ◌<◌};
ghost use Rattle.std.proofs.Common.{rules};
ghost use Rattle.std.specs.FinMap as finite;
ghost use Rattle.xet_base.specs.Source.{ReadFails};
ghost use Rattle.xet_records.specs.XorbRecord.{xorb_records};
ghost use Rattle.xet_shards.specs.Content.Shard.{Shard};
ghost use Rattle.xet_shards.specs.Write.Tables.{start_row, starts};
ghost use Rattle.xet_shards.specs.Read.TableReading.{FitsStart, triple_row, FitsTriple, ReadsTable, TableFails};
ghost use Rattle.xet_shards.specs.Steps.TableReadingSteps.{ReadsNextRow};
ghost use Rattle.xet_shards.specs.Write.WrittenShard.{IsBytesWithInfo, ReadsBack};

use crate::shard_format::ends::info::MDBShardInfo;
use crate::shard_format::{CHUNK_ROW_SIZE, START_ROW_SIZE};
use std::alloc::Global;
use xet_base::error::{CoreError, Result};
use xet_base::fields::{split_u32, split_u64};
use xet_base::source::{ShardSource, read_full};
use xet_records::rows::ROW_LIMIT;

impl MDBShardInfo {
    /// Reads the xorb table in order: the first word of each xorb's hash, and the row at which it
    /// starts.
    ///
    /// `InvalidShard` past 4294967295 rows; `UnexpectedEof` if the source ends before the table;
    /// `OutOfMemory`; or the source's error.
    pub fn read_full_xorb_lookup<S: ShardSource>(
        &self,
        alloc: Global,
        source: &mut S,
    ) -> Result<Vec<(u64, u32)>>
        ensures read { MatchResult result
            (λ found. ReadsTable start_row FitsStart 12 (S.meaning source.old)
            (S.meaning source.new) self.now.metadata.xorb_lookup_offset
            self.now.metadata.xorb_lookup_num_entry found.items)
            (TableFails 12 (S.meaning source.old) (S.meaning source.new)
            self.now.metadata.xorb_lookup_offset self.now.metadata.xorb_lookup_num_entry) }
        ensures written { (s : Shard)
            → IsBytesWithInfo s (S.meaning source.old).bytes self.now
            → ReadsBack (starts xorb_records (finite.values s.xorbs)) (S.meaning source.old)
            (S.meaning source.new) result }
    {
        let offset = self.metadata.xorb_lookup_offset;
        let rows = self.metadata.xorb_lookup_num_entry;
        read_table(alloc, source, offset, rows)
    }
}

// As [`MDBShardInfo::read_full_xorb_lookup`], but of the chunk table, with indices in xorbs.
pub(in crate::shard_format) fn read_chunk_table<S: ShardSource>(
    alloc: Global,
    source: &mut S,
    offset: u64,
    rows: u64,
) -> Result<Vec<(u64, (u32, u32))>>
    ensures { MatchResult result
        (λ found. ReadsTable triple_row FitsTriple 16 (S.meaning source.old) (S.meaning source.new)
        offset rows found.items)
        (TableFails 16 (S.meaning source.old) (S.meaning source.new) offset rows) }
{
    read_table(alloc, source, offset, rows)
}

// A row of a lookup table.
trait TableRow: Copy {
    ghost row_bytes: { Self → List ℕ };

    ghost Fits: { Self → Type 0 };

    ghost row_size: { ℕ };

    // `UnexpectedEof` if too few bytes are left.
    fn read<S: ShardSource>(source: &mut S) -> Result<Self>
        ensures value { IfOk result
            (ReadsNextRow row_bytes Fits row_size (S.meaning source.old) (S.meaning source.new)) }
        ensures refused { IfErr result
            (ReadFails (S.meaning source.old) (S.meaning source.new) row_size) };

    ghost has_bytes: { 0 < row_size };
}

impl TableRow for (u64, u32) {
    ghost row_bytes = { start_row };

    ghost Fits = { FitsStart };

    ghost row_size = { 12 };

    ghost has_bytes = { Prim.search rules };

    fn read<S: ShardSource>(source: &mut S) -> Result<(u64, u32)> {
        let mut bytes = [0u8; START_ROW_SIZE];
        read_full(source, &mut bytes)?;
        let (word, rest) = split_u64(&bytes);
        let (row, _) = split_u32(rest);
        Ok((word, row))
    }
}

impl TableRow for (u64, (u32, u32)) {
    ghost row_bytes = { triple_row };

    ghost Fits = { FitsTriple };

    ghost row_size = { 16 };

    ghost has_bytes = { Prim.search rules };

    fn read<S: ShardSource>(source: &mut S) -> Result<(u64, (u32, u32))> {
        let mut bytes = [0u8; CHUNK_ROW_SIZE];
        read_full(source, &mut bytes)?;
        let (word, rest) = split_u64(&bytes);
        let (row, rest) = split_u32(rest);
        let (index, _) = split_u32(rest);
        Ok((word, (row, index)))
    }
}

fn read_table<T: TableRow + Drop, S: ShardSource>(
    alloc: Global,
    source: &mut S,
    offset: u64,
    rows: u64,
) -> Result<Vec<T>>
    ensures { MatchResult result
        (λ found. ReadsTable T.row_bytes T.Fits T.row_size (S.meaning source.old)
        (S.meaning source.new) offset rows found.items)
        (TableFails T.row_size (S.meaning source.old) (S.meaning source.new) offset rows) }
{
    if rows > ROW_LIMIT {
        return Err(CoreError::InvalidShard(String::new(alloc)));
    }
    source.seek_to(offset)?;
    let mut found = Vec::new(alloc);
    for _row in 0..rows {
        found.push(T::read(source)?)?;
    }
    Ok(found)
}
