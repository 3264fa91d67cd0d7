//! Lookup of one file.

ghost use Rattle.std.specs.Prelude.{◌≡◌, ℕ, List, Option, MatchResult, OnOk, IfOk, IfErr, IfSome};
ghost use Rattle.std.specs.FinMap as finite;
ghost use Rattle.xet_base.specs.Source.{NoFailure};
ghost use Rattle.xet_records.specs.declared.file_structs.MDBFileInfo.{MDBFileInfo};
ghost use Rattle.xet_records.specs.declared.xorb_structs.MDBXorbInfo.{MDBXorbInfo};
ghost use Rattle.xet_records.specs.FileRecord.{file_records, FitsItsHeader};
ghost use Rattle.xet_shards.specs.Read.SectionReading.{files_of};
ghost use Rattle.xet_shards.specs.Content.Shard.{Shard};
ghost use Rattle.xet_shards.specs.Write.Layout.{LayoutOptions};
ghost use Rattle.xet_shards.specs.Write.WithOptions.{IsBytesWithFileTable};
ghost use Rattle.xet_shards.specs.Lookup.Lookup.{FindsStarts, FindsFileAmong, FindsInShard, file_table, LooksUpIndex, LooksUpFile, ReadsInfo, ReadInfoFails, VisitsSome, FindsRecord, FindRecordFails, LookupAnswer, LookupRefused};
ghost use Rattle.xet_shards.specs.Write.WrittenShard.{IsBytesWithInfo};

use super::table_search::find_rows;
use crate::shard_format::MOST_FOUND;
use crate::shard_format::ends::info::MDBShardInfo;
use crate::shard_format::read::section_reader::read_record_at;
use crate::utils::truncate_hash;
use std::alloc::Global;
use xet_base::error::{CoreError, Result};
use xet_base::merklehash::MerkleHash;
use xet_base::source::ShardSource;
use xet_records::file_structs::MDBFileInfo;

impl MDBShardInfo {
    /// Puts the row numbers that the file table has for the first word of `hash` at the front of
    /// `dest`, leaves the rest, and returns how many. Does not allocate.
    ///
    /// `TruncatedHashCollision` of the word if eight or more rows have it; `InvalidShard` if the
    /// table's end exceeds `u64`; `UnexpectedEof` if the search reads past the source's end; or the
    /// source's error.
    pub fn get_file_info_index_by_hash<S: ShardSource>(
        &self,
        alloc: Global,
        source: &mut S,
        hash: &MerkleHash,
        dest: &mut [u32; MOST_FOUND],
    ) -> Result<usize>
        ensures looks { LooksUpIndex (file_table self.now.metadata (S.meaning source.old))
            hash.now.word0 dest.old dest.new (S.meaning source.old) (S.meaning source.new) result }
        ensures with_options { (files : List MDBFileInfo) → (xorbs : List MDBXorbInfo) → (options : LayoutOptions)
            → IsBytesWithFileTable files xorbs options (S.meaning source.old).bytes self.now
            → FindsStarts file_records files hash.now.word0 dest.new (S.meaning source.old)
            (S.meaning source.new) result }
        ensures written { (s : Shard)
            → IsBytesWithInfo s (S.meaning source.old).bytes self.now
            → FindsStarts file_records (finite.values s.files) hash.now.word0 dest.new
            (S.meaning source.old) (S.meaning source.new) result }
    {
        let start = self.metadata.file_lookup_offset;
        let rows = self.metadata.file_lookup_num_entry;
        find_rows(alloc, source, start, rows, truncate_hash(hash), dest)
    }

    /// Reads the record at a row of the file section.
    ///
    /// `InvalidShard` if the row's offset exceeds `u64`, the rows after the header exceed `u32`, or
    /// the shard's version does not have the header; `InternalError` at a bookend; `UnexpectedEof`
    /// if the source ends within the record; `OutOfMemory`; or the source's error.
    pub fn read_file_info<S: ShardSource>(
        &self,
        alloc: Global,
        source: &mut S,
        row: u32,
    ) -> Result<MDBFileInfo>
        ensures { MatchResult result
            (ReadsInfo (files_of self.now) self.now.metadata.file_info_offset row
            (S.meaning source.old) (S.meaning source.new))
            (ReadInfoFails (files_of self.now) self.now.metadata.file_info_offset row
            (S.meaning source.old) (S.meaning source.new)) }
    {
        let version = self.header.format_version();
        read_record_at(alloc, source, version, self.metadata.file_info_offset, row)
    }

    /// Looks up the file with this hash. The errors are those of
    /// [`MDBShardInfo::get_file_info_index_by_hash`] and [`MDBShardInfo::read_file_info`].
    pub fn get_file_reconstruction_info<S: ShardSource>(
        &self,
        alloc: Global,
        source: &mut S,
        hash: &MerkleHash,
    ) -> Result<Option<MDBFileInfo>>
        ensures looks { LooksUpFile self.now hash.now (S.meaning source.old) (S.meaning source.new)
            result }
        ensures fits { IfOk result (λ found. IfSome found FitsItsHeader) }
        ensures with_options { (files : List MDBFileInfo) → (xorbs : List MDBXorbInfo) → (options : LayoutOptions)
            → IsBytesWithFileTable files xorbs options (S.meaning source.old).bytes self.now
            → FindsFileAmong files hash.now (S.meaning source.old) (S.meaning source.new) result }
        ensures written { (s : Shard)
            → IsBytesWithInfo s (S.meaning source.old).bytes self.now
            → FindsInShard s hash.now (S.meaning source.old) (S.meaning source.new) result }
    {
        look_up(self, alloc, source, hash)
    }
}

fn look_up<S: ShardSource>(
    info: &MDBShardInfo,
    alloc: Global,
    source: &mut S,
    hash: &MerkleHash,
) -> Result<Option<MDBFileInfo>>
    ensures read { MatchResult result
        (FindsRecord (files_of info.now) (file_table info.now.metadata (S.meaning source.old))
        info.now.metadata.file_info_offset hash.now (S.meaning source.old) (S.meaning source.new))
        (FindRecordFails (files_of info.now) (file_table info.now.metadata (S.meaning source.old))
        info.now.metadata.file_info_offset hash.now (S.meaning source.old) (S.meaning source.new)) }
    ensures no_failure { OnOk result (NoFailure (S.meaning source.old) (S.meaning source.new)) }
    ensures kept { (S.meaning source.new).bytes ≡ (S.meaning source.old).bytes }
{
    let mut rows = [0; MOST_FOUND];
    let found = info.get_file_info_index_by_hash(alloc, source, hash, &mut rows)?;
    first_with_hash(info, alloc, source, hash, &rows[..found])
}

// The first of the records at these rows that has this hash.
fn first_with_hash<S: ShardSource>(
    info: &MDBShardInfo,
    alloc: Global,
    source: &mut S,
    hash: &MerkleHash,
    rows: &[u32],
) -> Result<Option<MDBFileInfo>>
    ensures answer { IfOk result
        (λ answer. LookupAnswer (files_of info.now) (S.meaning source.old).bytes
        info.now.metadata.file_info_offset hash.now answer rows.now) }
    ensures refused { IfErr result
        (λ e. LookupRefused (files_of info.now) info.now.metadata.file_info_offset
        (S.meaning source.old) (S.meaning source.new) e rows.now) }
    ensures no_failure { OnOk result (NoFailure (S.meaning source.old) (S.meaning source.new)) }
    ensures visits { VisitsSome (files_of info.now) 1 info.now.metadata.file_info_offset rows.now
        (S.meaning source.old) (S.meaning source.new) }
{
    for row in rows {
        let file_info = info.read_file_info(alloc, source, *row)?;
        if file_info.metadata.file_hash == *hash {
            return Ok(Some(file_info));
        }
    }
    Ok(None)
}
