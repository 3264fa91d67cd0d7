//! Reading runs of chunks.

ghost use Rattle.std.specs.Prelude.{◌*◌, ◌^◌, ◌<◌, ◌≤◌, MatchResult};
ghost use Rattle.xet_base.specs.Source.{ReadsBytes};
ghost use Rattle.xet_records.specs.Rows.{ReadsRow};
ghost use Rattle.xet_shards.specs.Lookup.RunReading.{query_at};
ghost use Rattle.xet_shards.specs.Steps.RunSteps.{RowNotRead, RowFails, ReadsHeaderAt, ReadsRun, ReadRunFails, ReadsRunAt, RunFails, SeeksToRow, NotSought};

use crate::shard_format::ends::info::MDBShardInfo;
use std::alloc::Global;
use xet_base::error::{CoreError, Result};
use xet_base::merklehash::MerkleHash;
use xet_base::source::{ShardSource, read_full};
use xet_records::file_structs::FileDataSequenceEntry;
use xet_records::rows::{ROW_SIZE, Row};
use xet_records::xorb_structs::{XorbChunkSequenceEntry, XorbChunkSequenceHeader};

/// Reads the xorb header at a row.
pub(in crate::shard_format) fn read_header_at<S: ShardSource>(
    alloc: Global,
    source: &mut S,
    offset: u64,
    row: u32,
) -> Result<XorbChunkSequenceHeader>
    ensures { MatchResult result
        (ReadsHeaderAt offset row (S.meaning source.old) (S.meaning source.new))
        (RowFails offset row (S.meaning source.old) (S.meaning source.new)) }
{
    seek_to_row(alloc, source, offset, u64::from(row))?;
    read_source_row(source)
}

/// The run of these hashes from the chunk at an index on.
pub(in crate::shard_format) fn read_run_at<S: ShardSource>(
    info: &MDBShardInfo,
    alloc: Global,
    source: &mut S,
    query_hashes: &[MerkleHash],
    header: &XorbChunkSequenceHeader,
    row: u32,
    index: u32,
) -> Result<Option<(usize, FileDataSequenceEntry)>>
    requires { index < header.now.num_entries }
    ensures { MatchResult result
        (ReadsRunAt (query_at info.now.metadata query_hashes.now (row, index)) header.now
        (S.meaning source.old) (S.meaning source.new))
        (RunFails (query_at info.now.metadata query_hashes.now (row, index)) header.now
        (S.meaning source.old) (S.meaning source.new)) }
{
    let first = u64::from(row) + 1 + u64::from(index);
    seek_to_row(alloc, source, info.metadata.xorb_info_offset, first)?;
    let left = header.num_entries - index;
    let (length, bytes) = read_run(info, alloc, source, query_hashes, left)?;
    if length == 0 {
        return Ok(None);
    }
    let segment = FileDataSequenceEntry {
        xorb_hash: header.xorb_hash,
        xorb_flags: header.xorb_flags,
        unpacked_segment_bytes: bytes,
        chunk_index_start: index,
        chunk_index_end: index + length,
    };
    Ok(Some((length as usize, segment)))
}

// How many of at most `left` chunks have these hashes, one by one, and their bytes.
fn read_run<S: ShardSource>(
    info: &MDBShardInfo,
    alloc: Global,
    source: &mut S,
    query_hashes: &[MerkleHash],
    left: u32,
) -> Result<(u32, u32)>
    ensures { MatchResult result
        (ReadsRun info.now.metadata.chunk_hash_hmac_key query_hashes.now left
        (S.meaning source.old) (S.meaning source.new))
        (ReadRunFails info.now.metadata.chunk_hash_hmac_key query_hashes.now left
        (S.meaning source.old) (S.meaning source.new)) }
{
    let mut length = 0;
    let mut bytes = 0u32;
    for query_hash in query_hashes {
        if length == left {
            return Ok((length, bytes));
        }
        let chunk: XorbChunkSequenceEntry = read_source_row(source)?;
        if info.keyed_chunk_hash(query_hash) != chunk.chunk_hash {
            return Ok((length, bytes));
        }
        let Some(sum) = bytes.checked_add(chunk.unpacked_segment_bytes) else {
            return Err(CoreError::InvalidShard(String::new(alloc)));
        };
        bytes = sum;
        length += 1;
    }
    Ok((length, bytes))
}

// `InvalidShard` if the row's offset exceeds `u64`.
fn seek_to_row<S: ShardSource>(alloc: Global, source: &mut S, offset: u64, row: u64) -> Result<()>
    requires { row ≤ 2 ^ 34 }
    ensures { MatchResult result
        (λ _. SeeksToRow offset row (S.meaning source.old) (S.meaning source.new))
        (NotSought offset row (S.meaning source.old) (S.meaning source.new)) }
{
    let Some(start) = offset.checked_add(ROW_SIZE as u64 * row) else {
        return Err(CoreError::InvalidShard(String::new(alloc)));
    };
    source.seek_to(start)?;
    Ok(())
}

// `UnexpectedEof` if fewer than 48 bytes are left.
fn read_source_row<T: Row, S: ShardSource>(source: &mut S) -> Result<T>
    ensures { MatchResult result
        (ReadsRow T.row_bytes T.Fits T.as_read
        (ReadsBytes (S.meaning source.old) (S.meaning source.new)))
        (RowNotRead (S.meaning source.old) (S.meaning source.new)) }
{
    let mut bytes = [0u8; ROW_SIZE];
    read_full(source, &mut bytes)?;
    Ok(T::from_bytes(&bytes))
}
