//! Queries for runs of chunks.

ghost use Rattle.std.specs.Prelude.{◌≡◌, ◌≢◌, ◌⊎◌, true, ℕ, List, [], All, Option, None, Ok, MatchResult, OnOk, IfOk, IfErr};
ghost use Rattle.std.specs.FinMap as finite;
ghost use Rattle.xet_base.specs.KeyedHash.{no_key};
ghost use Rattle.xet_base.specs.Source.{DeviceFailure, NoFailure};
ghost use Rattle.xet_records.specs.declared.file_structs.MDBFileInfo.{MDBFileInfo as File};
ghost use Rattle.xet_records.specs.declared.xorb_structs.MDBXorbInfo.{MDBXorbInfo as Xorb};
ghost use Rattle.xet_records.specs.XorbRecord.{xorb_records, IsXorb};
ghost use Rattle.xet_shards.specs.Content.Shard.{Shard};
ghost use Rattle.xet_shards.specs.Write.Section.{total_rows, StartsAt};
ghost use Rattle.xet_shards.specs.Write.Layout.{LayoutOptions};
ghost use Rattle.xet_shards.specs.Write.WithOptions.{IsBytesWithOptions};
ghost use Rattle.xet_shards.specs.Lookup.Lookup.{Visit};
ghost use Rattle.xet_shards.specs.Lookup.WrittenQueries.{RunInXorb, QueryFailsInXorb, RunAmong, QueryCosts};
ghost use Rattle.xet_shards.specs.Lookup.RunReading.{query_at, AnswerAt, RefusedAt, QueryOutcome};
ghost use Rattle.xet_shards.specs.Steps.RunReadingSteps.{OutcomeAt, OutcomeOfTries};
ghost use Rattle.xet_shards.specs.Write.WrittenShard.{IsBytesWithInfo};

use super::run_reader::{read_header_at, read_run_at};
use crate::shard_format::MOST_FOUND;
use crate::shard_format::ends::info::MDBShardInfo;
use std::alloc::Global;
use xet_base::error::{CoreError, Result};
use xet_base::merklehash::MerkleHash;
use xet_base::source::ShardSource;
use xet_records::file_structs::FileDataSequenceEntry;

impl MDBShardInfo {
    /// The run of these hashes, which are not keyed, from a chunk on of the xorb at a row: its
    /// number of chunks, and their segment. Compares under the shard's key, if it has one. `None`
    /// if no hash is given or the chunk does not have the first. Does not allocate.
    ///
    /// `InvalidArguments` if there is a bookend at the row or no chunk at the index; `InvalidShard`
    /// if an offset exceeds `u64` or the bytes of the run exceed `u32`; `UnexpectedEof` if the
    /// source ends within a row that is read; or the source's error.
    pub fn chunk_hash_dedup_query_direct<S: ShardSource>(
        &self,
        alloc: Global,
        source: &mut S,
        unkeyed_query_hashes: &[MerkleHash],
        xorb_row: u32,
        chunk_index: u32,
    ) -> Result<Option<(usize, FileDataSequenceEntry)>>
        ensures answer { IfOk result
            (AnswerAt (query_at self.now.metadata unkeyed_query_hashes.now (xorb_row, chunk_index))
            (S.meaning source.old).bytes) }
        ensures nothing { unkeyed_query_hashes.now ≡ []
            → (result ≡ Ok None) × (S.meaning source.new ≡ S.meaning source.old) }
        ensures refused { IfErr result
            (RefusedAt (λ e. e ≡ CoreError.InvalidArguments)
            (query_at self.now.metadata unkeyed_query_hashes.now (xorb_row, chunk_index))
            (S.meaning source.old) (S.meaning source.new)) }
        ensures no_failure { OnOk result (NoFailure (S.meaning source.old) (S.meaning source.new)) }
        ensures with_options { (files : List File) → (xorbs : List Xorb) → (options : LayoutOptions) → (xorb : Xorb)
            → IsBytesWithOptions files xorbs options (S.meaning source.old).bytes self.now.metadata
            → StartsAt xorb_records xorbs xorb_row xorb → IsXorb xorb
            → MatchResult result (RunInXorb options.key unkeyed_query_hashes.now xorb chunk_index)
            (QueryFailsInXorb unkeyed_query_hashes.now xorb chunk_index (S.meaning source.old)
            (S.meaning source.new)) }
        ensures written { (s : Shard) → (xorb : Xorb)
            → IsBytesWithInfo s (S.meaning source.old).bytes self.now
            → StartsAt xorb_records (finite.values s.xorbs) xorb_row xorb
            → MatchResult result (RunInXorb no_key unkeyed_query_hashes.now xorb chunk_index)
            (QueryFailsInXorb unkeyed_query_hashes.now xorb chunk_index (S.meaning source.old)
            (S.meaning source.new)) }
        ensures bookend { (files : List File) → (xorbs : List Xorb) → (options : LayoutOptions)
            → IsBytesWithOptions files xorbs options (S.meaning source.old).bytes self.now.metadata
            → xorb_row ≡ total_rows xorb_records xorbs
            → MatchResult result (λ answer. (unkeyed_query_hashes.now ≡ []) × (answer ≡ None))
            (λ e. (unkeyed_query_hashes.now ≢ [])
            × (DeviceFailure (S.meaning source.old) (S.meaning source.new) e
            ⊎ (e ≡ CoreError.InvalidArguments))) }
        ensures visit { Visit xorb_records 2 self.now.metadata.xorb_info_offset xorb_row
            (S.meaning source.old) (S.meaning source.new) }
    {
        let absent = CoreError::InvalidArguments;
        run_at_location(
            self,
            alloc,
            source,
            unkeyed_query_hashes,
            xorb_row,
            chunk_index,
            absent,
        )
    }

    /// As [`MDBShardInfo::chunk_hash_dedup_query_direct`], but at one of up to eight locations that
    /// the chunk table has for the first word of the first hash. `None` also if there is no table,
    /// or no location has that hash; `InvalidShard` in place of `InvalidArguments`.
    pub fn chunk_hash_dedup_query<S: ShardSource>(
        &self,
        alloc: Global,
        source: &mut S,
        unkeyed_query_hashes: &[MerkleHash],
    ) -> Result<Option<(usize, FileDataSequenceEntry)>>
        ensures read { QueryOutcome self.now.metadata unkeyed_query_hashes.now
            (S.meaning source.old) (S.meaning source.new) result }
        ensures nothing { (unkeyed_query_hashes.now ≡ [])
            ⊎ (self.now.metadata.chunk_lookup_num_entry ≡ 0)
            → (result ≡ Ok None) × (S.meaning source.new ≡ S.meaning source.old) }
        ensures no_failure { OnOk result (NoFailure (S.meaning source.old) (S.meaning source.new)) }
        ensures kept { (S.meaning source.new).bytes ≡ (S.meaning source.old).bytes }
        ensures with_options { (files : List File) → (xorbs : List Xorb) → (options : LayoutOptions)
            → IsBytesWithOptions files xorbs options (S.meaning source.old).bytes self.now.metadata
            → options.chunk_table ≡ true → All IsXorb xorbs
            → MatchResult result (RunAmong options.key unkeyed_query_hashes.now xorbs)
            (DeviceFailure (S.meaning source.old) (S.meaning source.new)) }
        ensures written { (s : Shard)
            → IsBytesWithInfo s (S.meaning source.old).bytes self.now
            → MatchResult result (RunAmong no_key unkeyed_query_hashes.now (finite.values s.xorbs))
            (DeviceFailure (S.meaning source.old) (S.meaning source.new)) }
        ensures costs_with_options { (files : List File) → (xorbs : List Xorb) → (options : LayoutOptions)
            → IsBytesWithOptions files xorbs options (S.meaning source.old).bytes self.now.metadata
            → options.chunk_table ≡ true
            → QueryCosts options.key unkeyed_query_hashes.now xorbs (S.meaning source.old)
            (S.meaning source.new) }
        ensures costs { (s : Shard)
            → IsBytesWithInfo s (S.meaning source.old).bytes self.now
            → QueryCosts no_key unkeyed_query_hashes.now (finite.values s.xorbs)
            (S.meaning source.old) (S.meaning source.new) }
    {
        query_by_table(self, alloc, source, unkeyed_query_hashes)
    }
}

fn query_by_table<S: ShardSource>(
    info: &MDBShardInfo,
    alloc: Global,
    source: &mut S,
    query_hashes: &[MerkleHash],
) -> Result<Option<(usize, FileDataSequenceEntry)>>
    ensures read { QueryOutcome info.now.metadata query_hashes.now (S.meaning source.old)
        (S.meaning source.new) result }
    ensures no_failure { OnOk result (NoFailure (S.meaning source.old) (S.meaning source.new)) }
    ensures kept { (S.meaning source.new).bytes ≡ (S.meaning source.old).bytes }
{
    let Some(first) = query_hashes.first() else {
        return Ok(None);
    };
    if info.metadata.chunk_lookup_num_entry == 0 {
        return Ok(None);
    }
    let mut locations = [(0, 0); MOST_FOUND];
    let found = info.get_xorb_info_index_by_chunk(alloc, source, first, &mut locations)?;
    first_run(info, alloc, source, query_hashes, &locations[..found])
}

// The run at the first of these locations that has one.
fn first_run<S: ShardSource>(
    info: &MDBShardInfo,
    alloc: Global,
    source: &mut S,
    query_hashes: &[MerkleHash],
    locations: &[(u32, u32)],
) -> Result<Option<(usize, FileDataSequenceEntry)>>
    ensures { OutcomeOfTries info.now.metadata query_hashes.now locations.now
        (S.meaning source.old) (S.meaning source.new) result }
{
    for location in locations {
        let corrupt = CoreError::InvalidShard(String::new(alloc));
        let run = run_at_location(
            info,
            alloc,
            source,
            query_hashes,
            location.0,
            location.1,
            corrupt,
        )?;
        if run.is_some() {
            return Ok(run);
        }
    }
    Ok(None)
}

// `absent` is the error if there is no such chunk.
fn run_at_location<S: ShardSource>(
    info: &MDBShardInfo,
    alloc: Global,
    source: &mut S,
    query_hashes: &[MerkleHash],
    xorb_row: u32,
    chunk_index: u32,
    absent: CoreError,
) -> Result<Option<(usize, FileDataSequenceEntry)>>
    ensures { OutcomeAt (λ e. e ≡ absent)
        (query_at info.now.metadata query_hashes.now (xorb_row, chunk_index))
        (S.meaning source.old) (S.meaning source.new) result }
{
    if query_hashes.is_empty() {
        return Ok(None);
    }
    let header = read_header_at(alloc, source, info.metadata.xorb_info_offset, xorb_row)?;
    if header.is_bookend() || chunk_index >= header.num_entries {
        return Err(absent);
    }
    read_run_at(
        info,
        alloc,
        source,
        query_hashes,
        &header,
        xorb_row,
        chunk_index,
    )
}
