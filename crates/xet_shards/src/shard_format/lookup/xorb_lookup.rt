//! Lookups of xorbs and chunks by the tables.

ghost use Rattle.std.specs.Prelude.{◌≡◌, ℕ, List, Option, true, ◌+◌, ◌≤◌, min, MatchResult, OnOk, IfOk, IfErr};
ghost use Rattle.std.specs.FinMap as finite;
ghost use Rattle.xet_base.specs.KeyedHash.{under_key};
ghost use Rattle.xet_base.specs.Search.Table.{IsSorted};
ghost use Rattle.xet_base.specs.Source.{NoFailure};
ghost use Rattle.xet_records.specs.declared.file_structs.MDBFileInfo.{MDBFileInfo as File};
ghost use Rattle.xet_records.specs.declared.xorb_structs.MDBXorbInfo.{MDBXorbInfo as Xorb};
ghost use Rattle.xet_records.specs.XorbRecord.{xorb_records};
ghost use Rattle.xet_shards.specs.Content.Shard.{Shard};
ghost use Rattle.xet_shards.specs.Write.Layout.{LayoutOptions};
ghost use Rattle.xet_shards.specs.Write.WithOptions.{Ascends, IsBytesWithOptions};
ghost use Rattle.xet_shards.specs.Lookup.Lookup.{FindsStarts, Searches, xorb_table, chunk_lookup_table, IsRowAndIndex, LooksUpIndex, ReadsInfo, ReadInfoFails};
ghost use Rattle.xet_shards.specs.Lookup.WrittenChunks.{FindsRows};
ghost use Rattle.xet_shards.specs.Write.WrittenShard.{IsBytesWithInfo};

use super::table_search::{find_rows, search_table};
use crate::shard_format::MOST_FOUND;
use crate::shard_format::ends::info::MDBShardInfo;
use crate::shard_format::read::section_reader::read_record_at;
use crate::utils::truncate_hash;
use std::alloc::Global;
use xet_base::error::Result;
use xet_base::merklehash::MerkleHash;
use xet_base::source::ShardSource;
use xet_records::record_reader::FormatVersion;
use xet_records::xorb_structs::MDBXorbInfo;

impl MDBShardInfo {
    /// As [`MDBShardInfo::read_file_info`], but of the xorb section, whose headers every version
    /// has.
    pub fn read_xorb_info<S: ShardSource>(
        &self,
        alloc: Global,
        source: &mut S,
        row: u32,
    ) -> Result<MDBXorbInfo>
        ensures { MatchResult result
            (ReadsInfo xorb_records self.now.metadata.xorb_info_offset row (S.meaning source.old)
            (S.meaning source.new))
            (ReadInfoFails xorb_records self.now.metadata.xorb_info_offset row
            (S.meaning source.old) (S.meaning source.new)) }
    {
        let offset = self.metadata.xorb_info_offset;
        read_record_at(alloc, source, FormatVersion::V3, offset, row)
    }

    /// As [`MDBShardInfo::get_file_info_index_by_hash`], but of `unkeyed_hash` under the shard's
    /// key, by the chunk table: up to eight pairs of the row at which a xorb starts and an index
    /// among its chunks. Eight are no error.
    pub fn get_xorb_info_index_by_chunk<S: ShardSource>(
        &self,
        alloc: Global,
        source: &mut S,
        unkeyed_hash: &MerkleHash,
        dest: &mut [(u32, u32); MOST_FOUND],
    ) -> Result<usize>
        ensures looks { Searches (chunk_lookup_table self.now.metadata (S.meaning source.old))
            (under_key self.now.metadata.chunk_hash_hmac_key unkeyed_hash.now).word0 IsRowAndIndex 8
            dest.old dest.new (S.meaning source.old) (S.meaning source.new) result }
        ensures with_options { (files : List File) → (xorbs : List Xorb) → (options : LayoutOptions)
            → IsBytesWithOptions files xorbs options (S.meaning source.old).bytes self.now.metadata
            → options.chunk_table ≡ true
            → FindsRows xorbs (under_key options.key unkeyed_hash.now).word0 dest.old dest.new
            (S.meaning source.old) (S.meaning source.new) result }
        ensures written { (s : Shard) → IsBytesWithInfo s (S.meaning source.old).bytes self.now
            → FindsRows (finite.values s.xorbs) unkeyed_hash.now.word0 dest.old dest.new
            (S.meaning source.old) (S.meaning source.new) result }
    {
        let start = self.metadata.chunk_lookup_offset;
        let rows = self.metadata.chunk_lookup_num_entry;
        let word = truncate_hash(&self.keyed_chunk_hash(unkeyed_hash));
        search_table::<(u32, u32), S>(alloc, source, start, rows, word, dest)
    }

    /// As [`MDBShardInfo::get_file_info_index_by_hash`], but by the xorb table.
    pub fn get_xorb_info_index_by_hash<S: ShardSource>(
        &self,
        alloc: Global,
        source: &mut S,
        hash: &MerkleHash,
        dest: &mut [u32; MOST_FOUND],
    ) -> Result<usize>
        ensures looks { LooksUpIndex (xorb_table self.now.metadata (S.meaning source.old))
            hash.now.word0 dest.old dest.new (S.meaning source.old) (S.meaning source.new) result }
        ensures with_options { (files : List File) → (xorbs : List Xorb) → (options : LayoutOptions)
            → IsBytesWithOptions files xorbs options (S.meaning source.old).bytes self.now.metadata
            → Ascends xorb_records xorbs → options.xorb_table ≡ true
            → FindsStarts xorb_records xorbs hash.now.word0 dest.new (S.meaning source.old)
            (S.meaning source.new) result }
        ensures written { (s : Shard)
            → IsBytesWithInfo s (S.meaning source.old).bytes self.now
            → FindsStarts xorb_records (finite.values s.xorbs) hash.now.word0 dest.new
            (S.meaning source.old) (S.meaning source.new) result }
    {
        let start = self.metadata.xorb_lookup_offset;
        let rows = self.metadata.xorb_lookup_num_entry;
        find_rows(alloc, source, start, rows, truncate_hash(hash), dest)
    }
}
