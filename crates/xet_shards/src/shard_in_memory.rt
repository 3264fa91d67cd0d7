//! Shards in memory. Whatever may fail to allocate comes before the first change.

ghost use Rattle.std.specs.Prelude.{◌≡◌, ◌<◌, ◌≤◌, ◌↔◌, [], ◌∷◌, Contains, length, sum_by, OnOk, OnErr, IfOk, IfErr, IsTrue, MatchResult, None, IsSome};
ghost use Rattle.std.specs.FinMap as finite;
ghost use Rattle.xet_base.specs.declared.merklehash.DataHash.{DataHash};
ghost use Rattle.xet_base.specs.Errors.{Admits};
ghost use Rattle.xet_records.specs.FileRecord.{file_records, size_of_file, IsWellFormed};
ghost use Rattle.xet_records.specs.XorbRecord.{xorb_records, IsXorb};
ghost use Rattle.xet_shards.specs.Write.Section.{total_rows};
ghost use Rattle.xet_shards.specs.Content.Shard.{IsShard, has_aux_rows, empty_shard, AreFiles, AreXorbs, add_file, add_xorb, CanAddFile, CanAddXorb};
ghost use Rattle.xet_shards.specs.ShardInMemory.ChunkLookup.{IsChunkLookup};
ghost use Rattle.xet_shards.specs.ShardInMemory.XorbStore.{shown_xorbs, location_in};
ghost use Rattle.xet_shards.specs.Content.SetOperations.{IsUnion, IsDifference, RowsFitU32, CanUnite, ShardsAgree};
ghost use Rattle.xet_shards.specs.Content.Joins.{IsJoinOf};
ghost use Rattle.xet_shards.specs.ShardInMemory.ChunkQuery.{query_answer, HasNoChunk};
ghost use Rattle.xet_shards.specs.Write.Layout.{layout};
ghost use Rattle.xet_records.specs.Limits.{MAX_ROWS};

mod chunk_query;
mod file_store;
mod sums;
mod union_rows;
mod xorb_store;

use chunk_query::chunk_hash_dedup_query;
use file_store::FileStore;
pub use file_store::is_well_formed as is_well_formed_file;
use std::alloc::Global;
use std::collections::{BTreeMap, HashMap};
use std::marker::Model;
use std::rc::Rc;
use sums::{
    file_rows, have_aux_rows, materialized_bytes, stored_bytes, stored_bytes_on_disk, xorb_rows,
};
use union_rows::{united_file_rows, united_xorb_rows};
use xet_base::error::{CoreError, Result};
use xet_base::merklehash::MerkleHash;
use xet_records::file_structs::{FileDataSequenceEntry, MDBFileInfo};
use xet_records::rows::{CHUNK_ROW_SIZE, EMPTY_SIZE, ROW_LIMIT, ROW_SIZE, START_ROW_SIZE};
use xet_records::xorb_structs::MDBXorbInfo;
use xorb_store::XorbStore;
pub use xorb_store::is_well_formed as is_well_formed_xorb;

/// A shard in memory, which contracts see as its maps of file and xorb records and the lookup of
/// the xorbs' chunk hashes.
#[derive(Drop)]
pub struct MDBInMemoryShard {
    files: FileStore,
    xorbs: XorbStore,
    // The rows of all files, and those of all xorbs.
    file_rows: u64,
    xorb_rows: u64,
}

impl Model for MDBInMemoryShard {
    ghost use Rattle.xet_shards.specs.ShardInMemory.ChunkLookup.{ShardWithLookup, coded_shard_with_lookup};
    ghost use Rattle.xet_shards.specs.ShardInMemory.InMemoryShard.{shard_inside, IsCounted};

    ghost Value = { ShardWithLookup };

    ghost coded = { coded_shard_with_lookup };

    ghost view = { shard_inside };

    ghost invariant = { IsCounted };
}

impl MDBInMemoryShard {
    /// The empty shard. Does not allocate.
    pub fn new(alloc: Global) -> MDBInMemoryShard
        ensures { result ≡ record { content = empty_shard; locations = finite.empty } }
    {
        MDBInMemoryShard {
            files: FileStore::new(alloc),
            xorbs: XorbStore::new(alloc),
            file_rows: 0,
            xorb_rows: 0,
        }
    }

    /// Inserts or replaces a xorb; replacing rebuilds the chunk lookup.
    ///
    /// `InvalidArguments` if the record is ill-formed or the rows of all xorbs would pass
    /// 4294967295; `OutOfMemory`. On error the shard is unchanged.
    pub fn add_xorb_block(&mut self, alloc: Global, xorb_block: MDBXorbInfo) -> Result<()>
        ensures ok { OnOk result (self.new.content ≡ add_xorb self.old.content xorb_block) }
        ensures err { OnErr result (self.new ≡ self.old) }
        ensures admitted { Admits (CanAddXorb self.old.content xorb_block) result }
    {
        if !xorb_store::is_well_formed(&xorb_block) {
            return Err(CoreError::InvalidArguments);
        }
        let rows = within_limit(self.rows_with_xorb(&xorb_block))?;
        self.xorbs.put(alloc, Rc::new(alloc, xorb_block)?)?;
        self.xorb_rows = rows;
        Ok(())
    }

    fn rows_with_xorb(&self, xorb_block: &MDBXorbInfo) -> u64
        requires { IsXorb xorb_block.now }
        ensures { result ≡ total_rows xorb_records
            (finite.values (add_xorb self.now.content xorb_block.now).xorbs) }
    {
        let replaced = self.xorbs.rows_of(&xorb_block.metadata.xorb_hash);
        self.xorb_rows + 1 + u64::from(xorb_block.metadata.num_entries) - replaced
    }

    /// Inserts or replaces a file.
    ///
    /// `InvalidArguments` if the record is ill-formed or the rows of all files would pass
    /// 4294967295; `OutOfMemory`. On error the shard is unchanged.
    pub fn add_file_reconstruction_info(
        &mut self,
        _alloc: Global,
        file_info: MDBFileInfo,
    ) -> Result<()>
        ensures ok { OnOk result (self.new.content ≡ add_file self.old.content file_info) }
        ensures locations { self.new.locations ≡ self.old.locations }
        ensures err { OnErr result (self.new ≡ self.old) }
        ensures admitted { Admits (CanAddFile self.old.content file_info) result }
    {
        if !file_store::is_well_formed(&file_info) || !self.has_room_for(&file_info) {
            return Err(CoreError::InvalidArguments);
        }
        let rows = self.file_rows + 1 + file_info.metadata.rows_after();
        self.file_rows = rows - self.files.put(file_info)?;
        Ok(())
    }

    // The file that it replaces is looked up only where that decides.
    fn has_room_for(&self, file_info: &MDBFileInfo) -> bool
        requires { IsWellFormed file_info.now }
        ensures { IsTrue result ↔ (total_rows file_records
            (finite.values (add_file self.now.content file_info.now).files)
            ≤ MAX_ROWS) }
    {
        let most = ROW_LIMIT;
        let rows = self.file_rows + 1 + file_info.metadata.rows_after();
        if rows <= most {
            return true;
        }
        rows - self.files.rows_of(&file_info.metadata.file_hash) <= most
    }

    /// The xorbs by their hashes.
    pub fn xorb_content(&self) -> &BTreeMap<MerkleHash, Rc<MDBXorbInfo>>
        ensures entries { shown_xorbs result.now.entries ≡ finite.entries self.now.content.xorbs }
        ensures xorbs { AreXorbs (shown_xorbs result.now.entries) }
        ensures rows { total_rows xorb_records (finite.values self.now.content.xorbs) ≤ MAX_ROWS }
    {
        // Its bound is for the proof.
        let _rows = self.xorb_rows;
        self.xorbs.content()
    }

    /// The files by their hashes.
    pub fn file_content(&self) -> &BTreeMap<MerkleHash, MDBFileInfo>
        ensures entries { result.now.entries ≡ finite.entries self.now.content.files }
        ensures files { AreFiles result.now.entries }
        ensures rows { total_rows file_records (finite.values self.now.content.files) ≤ MAX_ROWS }
    {
        // Its bound is for the proof.
        let _rows = self.file_rows;
        self.files.content()
    }

    /// Whether a file has an auxiliary row, which version 2 does not have.
    pub fn has_aux_rows(&self) -> bool
        ensures { result ≡ has_aux_rows self.now.content }
    {
        have_aux_rows(self.file_content())
    }

    /// Does nothing. Each record is well-formed and under its hash, and the rows of the files and
    /// those of the xorbs fit `u32`.
    pub fn invariant(&self)
        ensures { IsShard self.now.content }
    {
        self.file_content();
        self.xorb_content();
    }

    /// For each chunk hash of the xorbs, one of these and the index of such a chunk in it.
    pub fn chunk_hash_lookup(&self) -> &HashMap<MerkleHash, (Rc<MDBXorbInfo>, u64)>
        ensures locations { (q : DataHash)
            → location_in result.now q ≡ finite.get self.now.locations q }
        ensures lookup { IsChunkLookup self.now.content.xorbs (finite.get self.now.locations) }
    {
        self.xorbs.lookup()
    }

    /// The records of both shards: of two xorbs with one hash, that of `other`; of two files, this
    /// shard's with each optional part that only `other` has.
    ///
    /// `InvalidArguments` if such files have different numbers of segments, or the rows of all
    /// files, or of all xorbs, would pass 4294967295; `OutOfMemory`.
    pub fn union(&self, alloc: Global, other: &MDBInMemoryShard) -> Result<MDBInMemoryShard>
        ensures ok { IfOk result (λ s. IsUnion self.now.content other.now.content s.content) }
        ensures join { ShardsAgree self.now.content other.now.content
            → IfOk result
            (λ s. IsJoinOf (Contains (self.now.content ∷ other.now.content ∷ [])) s.content) }
        ensures admitted { Admits (CanUnite self.now.content other.now.content) result }
    {
        if !self.can_unite(other) {
            return Err(CoreError::InvalidArguments);
        }
        self.invariant();
        other.invariant();
        let files = self.files.union(alloc, &other.files)?;
        let xorbs = self.xorbs.union(alloc, &other.xorbs)?;
        Ok(MDBInMemoryShard::from_stores(files, xorbs))
    }

    fn can_unite(&self, other: &MDBInMemoryShard) -> bool
        ensures { IsTrue result ↔ CanUnite self.now.content other.now.content }
    {
        let files = united_file_rows(self.files.content(), &other.files, other.file_rows);
        let Some(file_rows) = files else {
            return false;
        };
        let xorb_rows = united_xorb_rows(self.xorbs.content(), &other.xorbs, other.xorb_rows);
        file_rows <= ROW_LIMIT && xorb_rows <= ROW_LIMIT
    }

    /// The records of `other` whose hashes this shard does not have, or `OutOfMemory`.
    pub fn difference(&self, alloc: Global, other: &MDBInMemoryShard) -> Result<MDBInMemoryShard>
        ensures ok { IfOk result (λ s. IsDifference self.now.content other.now.content s.content) }
        ensures causes { IfErr result (λ e. e ≡ CoreError.OutOfMemory) }
    {
        let files = self.files.difference(alloc, &other.files)?;
        let xorbs = self.xorbs.difference(alloc, &other.xorbs)?;
        Ok(MDBInMemoryShard::from_stores(files, xorbs))
    }

    fn from_stores(files: FileStore, xorbs: XorbStore) -> MDBInMemoryShard
        requires { RowsFitU32 (record { files = files; xorbs = xorbs.xorbs }) }
        ensures { result ≡ record {
          content = record { files = files; xorbs = xorbs.xorbs };
          locations = xorbs.locations;
        } }
    {
        let file_rows = file_rows(files.content());
        let xorb_rows = xorb_rows(xorbs.content());
        MDBInMemoryShard {
            files,
            xorbs,
            file_rows,
            xorb_rows,
        }
    }

    /// A copy with the same chunk lookup, or `OutOfMemory`.
    pub fn try_clone(&self, _alloc: Global) -> Result<MDBInMemoryShard>
        ensures ok { IfOk result (λ s. s.content ≡ self.now.content) }
        ensures locations { IfOk result (λ s. s.locations ≡ self.now.locations) }
        ensures causes { IfErr result (λ e. e ≡ CoreError.OutOfMemory) }
    {
        let copy = MDBInMemoryShard {
            files: self.files.try_clone()?,
            xorbs: self.xorbs.try_clone()?,
            file_rows: self.file_rows,
            xorb_rows: self.xorb_rows,
        };
        Ok(copy)
    }

    /// Does nothing: the size is up to date after each call.
    pub fn recalculate_shard_size(&mut self)
        ensures { self.new ≡ self.old }
    {}

    /// A copy of the file's record, or `None`. `OutOfMemory` if copying a record fails to allocate;
    /// nothing else allocates.
    pub fn get_file_reconstruction_info(
        &self,
        alloc: Global,
        file_hash: &MerkleHash,
    ) -> Result<Option<MDBFileInfo>>
        ensures ok { IfOk result
            (λ found. found ≡ finite.get self.now.content.files file_hash.now) }
        ensures causes { IfErr result (λ e. (e ≡ CoreError.OutOfMemory)
            × IsSome (finite.get self.now.content.files file_hash.now)) }
    {
        match self.files.get(file_hash) {
            Some(file_info) => Ok(Some(file_info.try_clone(alloc)?)),
            None => Ok(None),
        }
    }

    /// The number of chunks and the segment of the longest run of these hashes that begins at the
    /// location which the lookup has for the first; `None` if no hash is given or no xorb has the
    /// first. Does not allocate.
    pub fn chunk_hash_dedup_query(
        &self,
        query_hashes: &[MerkleHash],
    ) -> Option<(usize, FileDataSequenceEntry)>
        ensures answer { result ≡ query_answer self.now.locations query_hashes.now }
        ensures none { (result ≡ None) ↔ HasNoChunk self.now.content.xorbs query_hashes.now }
    {
        chunk_hash_dedup_query(&self.xorbs, query_hashes)
    }

    /// The number of xorbs.
    pub fn num_xorb_entries(&self) -> usize
        ensures { result ≡ finite.len self.now.content.xorbs }
    {
        self.xorbs.content().len()
    }

    /// The number of files.
    pub fn num_file_entries(&self) -> usize
        ensures { result ≡ finite.len self.now.content.files }
    {
        self.files.content().len()
    }

    /// The bytes of all xorbs on disk, by their headers.
    pub fn stored_bytes_on_disk(&self) -> u64
        ensures { result
            ≡ sum_by (λ x. x.metadata.num_bytes_on_disk) (finite.values self.now.content.xorbs) }
    {
        stored_bytes_on_disk(self.xorb_content())
    }

    /// The bytes of all files, by their segments.
    pub fn materialized_bytes(&self) -> u64
        ensures { result ≡ sum_by size_of_file (finite.values self.now.content.files) }
    {
        materialized_bytes(self.file_content())
    }

    /// The unpacked bytes of all xorbs, by their headers.
    pub fn stored_bytes(&self) -> u64
        ensures { result
            ≡ sum_by (λ x. x.metadata.num_bytes_in_xorb) (finite.values self.now.content.xorbs) }
    {
        stored_bytes(self.xorb_content())
    }

    /// Whether the shard has no file and no xorb.
    pub fn is_empty(&self) -> bool
        ensures { IsTrue result ↔ (self.now.content ≡ empty_shard) }
    {
        self.files.content().is_empty() && self.xorbs.content().is_empty()
    }

    /// The bytes of the shard when it is written without expiry.
    pub fn shard_file_size(&self) -> u64
        ensures { result ≡ length (layout self.now.content None) }
    {
        let files = self.files.content().len() as u64;
        let xorbs = self.xorbs.content().len() as u64;
        let chunks = self.xorb_rows - xorbs;
        EMPTY_SIZE
            + ROW_SIZE as u64 * (self.file_rows + self.xorb_rows)
            + START_ROW_SIZE as u64 * (files + xorbs)
            + CHUNK_ROW_SIZE as u64 * chunks
    }
}

// `InvalidArguments` if the rows do not fit `u32`.
fn within_limit(rows: u64) -> Result<u64>
    ensures { MatchResult result
        (λ n. (n ≡ rows) × (rows ≤ MAX_ROWS))
        (λ e. (e ≡ CoreError.InvalidArguments) × (MAX_ROWS < rows)) }
{
    if rows > ROW_LIMIT {
        return Err(CoreError::InvalidArguments);
    }
    Ok(rows)
}
