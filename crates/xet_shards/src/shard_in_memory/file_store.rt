//! The files of a shard in memory. Their rows are not limited here.

ghost use Rattle.std.specs.Prelude.{[], ◌∷◌, ◌≡◌, ◌≤◌, ◌↔◌, ◌⊎◌, T, Some, MatchOption, IsTrue, is_some, IfSome, OnOk, OnErr, IfOk, IfErr, IsErrOf, unwrap_or, option_map};
ghost use Rattle.std.specs.Option.{option_or};
ghost use Rattle.std.specs.FinMap as finite;
ghost use Rattle.std.specs.FinMap.{is_sorted, from_sorted};
ghost use Rattle.xet_base.specs.declared.merklehash.DataHash.{DataHash};
ghost use Rattle.xet_base.specs.Hash.{hash_cmp};
ghost use Rattle.xet_records.specs.FileRecord.{row_count, FitsItsHeader, FitsRecord, IsWellFormed};
ghost use Rattle.xet_records.specs.Merging.{IsSameFile, merged_file};
ghost use Rattle.xet_records.specs.Part.{rows_of, optional_rows};
ghost use Rattle.xet_shards.specs.Steps.FileStore.{AreClear};
ghost use Rattle.xet_shards.specs.Content.Shard.{AreFiles, file_hash_of};
ghost use Rattle.xet_shards.specs.Content.Joining.{unless_in, entry, either_file};
ghost use Rattle.xet_shards.specs.Steps.JoiningSteps.{CanJoinFile, CanJoinFiles, IsJoinedFile};

use std::alloc::Global;
use std::collections::BTreeMap;
use std::marker::Model;
use xet_base::error::{CoreError, Result};
use xet_base::merklehash::MerkleHash;
use xet_records::file_structs::{FileDataSequenceHeader, MDBFileInfo, OptionalPart};
use xet_records::rows::{ROW_LIMIT, Row, all_widths};

/// Well-formed files, each under its hash.
#[derive(Drop)]
pub struct FileStore {
    content: BTreeMap<MerkleHash, MDBFileInfo>,
}

impl Model for FileStore {
    ghost use Rattle.xet_shards.specs.Content.Shard.{FileMap, coded_files};

    ghost Value = { FileMap };

    ghost coded = { coded_files };

    ghost use Rattle.std.specs.FinMap.{from_sorted};
    ghost use Rattle.xet_shards.specs.Steps.FileStore.{IsSoundFileStore};

    ghost view = { λ t. from_sorted t.content.entries };

    ghost invariant = { IsSoundFileStore };
}

impl FileStore {
    /// The empty store.
    pub fn new(alloc: Global) -> FileStore
        ensures { result ≡ finite.empty }
    {
        FileStore {
            content: BTreeMap::new(alloc),
        }
    }

    /// The records by their hashes.
    pub fn content(&self) -> &BTreeMap<MerkleHash, MDBFileInfo>
        ensures entries { result.now.entries ≡ finite.entries self.now }
        ensures files { AreFiles result.now.entries }
    {
        &self.content
    }

    /// The rows of the file under this hash, or 0.
    pub fn rows_of(&self, file_hash: &MerkleHash) -> u64
        ensures { result ≡ unwrap_or (option_map row_count (finite.get self.now file_hash.now)) 0 }
    {
        row_count(self.content.get(file_hash))
    }

    /// Inserts or replaces a file, and returns the rows of the replaced one, or 0. On `OutOfMemory`
    /// nothing changes.
    pub fn put(&mut self, file_info: MDBFileInfo) -> Result<u64>
        requires { IsWellFormed file_info }
        ensures ok { OnOk result
            (self.new ≡ finite.insert self.old (file_hash_of file_info) file_info) }
        ensures replaced { IfOk result (λ rows. rows
            ≡ unwrap_or (option_map row_count (finite.get self.old (file_hash_of file_info))) 0) }
        ensures err { OnErr result (self.new ≡ self.old) }
        ensures causes { IfErr result (λ e. e ≡ CoreError.OutOfMemory) }
    {
        let replaced = self
            .content
            .insert(file_info.metadata.file_hash, file_info)?;
        Ok(row_count(replaced.as_ref()))
    }

    /// Whether there is a file under this hash.
    pub fn contains(&self, file_hash: &MerkleHash) -> bool
        ensures { result ≡ is_some (finite.get self.now file_hash.now) }
    {
        self.content.contains_key(file_hash)
    }

    /// Inserts the files whose hashes are neither in this store nor in `except`. On `OutOfMemory`
    /// only some are inserted.
    fn append_missing(
        &mut self,
        alloc: Global,
        others: &BTreeMap<MerkleHash, MDBFileInfo>,
        except: &FileStore,
    ) -> Result<()>
        requires { AreFiles others.now.entries }
        ensures ok { OnOk result ((q : DataHash) → finite.get self.new q
            ≡ option_or (finite.get self.old q) (unless_in except.now (entry others.now.entries) q)) }
        ensures causes { IfErr result (λ e. e ≡ CoreError.OutOfMemory) }
    {
        for (file_hash, file_info) in others {
            if !self.contains(file_hash) && !except.contains(file_hash) {
                self.put(file_info.try_clone(alloc)?)?;
            }
        }
        Ok(())
    }

    /// A copy, or `OutOfMemory`.
    pub fn try_clone(&self) -> Result<FileStore>
        ensures ok { IfOk result (λ t. t ≡ self.now) }
        ensures causes { IfErr result (λ e. e ≡ CoreError.OutOfMemory) }
    {
        Ok(FileStore {
            content: self.content.clone()?,
        })
    }

    /// The files of both; of two with one hash, this store's with each optional part that only
    /// `other` has. Or `OutOfMemory`.
    pub fn union(&self, alloc: Global, other: &FileStore) -> Result<FileStore>
        requires { CanJoinFiles self.now other.now }
        ensures ok { IfOk result (λ t. (q : DataHash) → finite.get t q
            ≡ either_file (finite.get self.now q) (finite.get other.now q)) }
        ensures causes { IfErr result (λ e. e ≡ CoreError.OutOfMemory) }
    {
        let mut joined = self.try_clone()?;
        joined.join_all(alloc, &other.content)?;
        Ok(joined)
    }

    // As [`FileStore::union`], in place. On `OutOfMemory` only some are joined.
    fn join_all(&mut self, alloc: Global, others: &BTreeMap<MerkleHash, MDBFileInfo>) -> Result<()>
        requires sorted { T (is_sorted hash_cmp others.now.entries) }
        requires files { AreFiles others.now.entries }
        requires joins { CanJoinFiles self.old (from_sorted others.now.entries) }
        ensures ok { OnOk result ((q : DataHash) → finite.get self.new q
            ≡ either_file (finite.get self.old q) (entry others.now.entries q)) }
        ensures causes { IfErr result (λ e. e ≡ CoreError.OutOfMemory) }
    {
        for (file_hash, file_info) in others {
            if let Some(joined) = self.joined_with(alloc, file_hash, file_info)? {
                self.put(joined)?;
            }
        }
        Ok(())
    }

    // `file_info`, or the store's file joined with it; `None` if that has all parts already.
    fn joined_with(
        &self,
        alloc: Global,
        file_hash: &MerkleHash,
        file_info: &MDBFileInfo,
    ) -> Result<Option<MDBFileInfo>>
        requires formed { IsWellFormed file_info.now }
        requires joins { IfSome (finite.get self.now file_hash.now)
            (λ own. CanJoinFile own file_info.now) }
        ensures made { IfOk result (λ made. MatchOption made
            (finite.get self.now file_hash.now
            ≡ either_file (finite.get self.now file_hash.now) (Some file_info.now))
            (IsJoinedFile (finite.get self.now file_hash.now) file_info.now)) }
        ensures causes { IfErr result (λ e. e ≡ CoreError.OutOfMemory) }
    {
        let Some(own) = self.get(file_hash) else {
            return Ok(Some(file_info.try_clone(alloc)?));
        };
        if own.contains_parts_of(file_info) {
            return Ok(None);
        }
        let mut joined = own.try_clone(alloc)?;
        joined.merge_from(alloc, file_info)?;
        Ok(Some(joined))
    }

    /// The files of `other` whose hashes this store does not have, or `OutOfMemory`.
    pub fn difference(&self, alloc: Global, other: &FileStore) -> Result<FileStore>
        ensures ok { IfOk result (λ t. (q : DataHash) → finite.get t q
            ≡ unless_in self.now (finite.get other.now) q) }
        ensures causes { IfErr result (λ e. e ≡ CoreError.OutOfMemory) }
    {
        let mut rest = FileStore::new(alloc);
        rest.append_missing(alloc, other.content(), self)?;
        Ok(rest)
    }

    /// The file under this hash.
    pub fn get(&self, file_hash: &MerkleHash) -> Option<&MDBFileInfo>
        ensures value { option_map (λ file. file.now) result ≡ finite.get self.now file_hash.now }
        ensures well_formed { IfSome result (λ file. IsWellFormed file.now) }
    {
        self.content.get(file_hash)
    }
}

#[tactic(auto, using(xet_records::proofs::Record::rows_whole))]
fn row_count(file_info: Option<&MDBFileInfo>) -> u64
    requires { IfSome file_info (λ file. IsWellFormed file.now) }
    ensures { result ≡ unwrap_or (option_map (λ file. row_count file.now) file_info.entry) 0 }
{
    match file_info {
        Some(file_info) => 1 + file_info.metadata.rows_after(),
        None => 0,
    }
}

/// Whether two records are of one file, and [`joined_rows`] fits `u32`.
pub fn can_join(file_info: &MDBFileInfo, twin: &MDBFileInfo) -> bool
    requires own { IsWellFormed file_info.now }
    requires others { IsWellFormed twin.now }
    ensures { IsTrue result ↔ CanJoinFile file_info.now twin.now }
{
    if !FileDataSequenceHeader::verify_same_file(&file_info.metadata, &twin.metadata) {
        return false;
    }
    joined_rows(file_info, twin) <= ROW_LIMIT
}

/// The rows of the first record with the parts that only the second has.
pub fn joined_rows(file_info: &MDBFileInfo, twin: &MDBFileInfo) -> u64
    requires own { FitsItsHeader file_info.now }
    requires others { FitsItsHeader twin.now }
    requires same { IsSameFile file_info.now.metadata twin.now.metadata }
    ensures { result ≡ row_count (merged_file file_info.now twin.now) }
{
    1 + file_info.metadata.mix_with(&twin.metadata).rows_after()
}

/// Whether a record can be in a store.
#[tactic(auto, using(xet_records::proofs::Record::rows_whole))]
pub fn is_well_formed(file_info: &MDBFileInfo) -> bool
    ensures { IsTrue result ↔ IsWellFormed file_info.now }
{
    record_widths(file_info);
    let metadata = file_info.metadata;
    !metadata.is_bookend()
        && metadata.is_plain()
        && file_info.fits_its_header()
        && has_clear_parts(file_info)
        && metadata.rows_after() < ROW_LIMIT
}

// Whether the reserved words of its parts are zero.
fn has_clear_parts(file_info: &MDBFileInfo) -> bool
    ensures { IsTrue result ↔ AreClear (optional_rows file_info.now) }
{
    OptionalPart::ALL
        .iter()
        .all(|part| is_clear(file_info, *part))
}

#[tactic(auto, using(crate::proofs::Write::StoredParts::one_clear, crate::proofs::Write::StoredParts::none_clear))]
fn is_clear(file_info: &MDBFileInfo, part: OptionalPart) -> bool
    ensures { IsTrue result ↔ AreClear (rows_of part file_info.now) }
{
    match part {
        OptionalPart::Verification => {
            let rows = file_info.verification.as_slice();
            rows.iter().all(|row| row._unused == [0; 2])
        }
        OptionalPart::MetadataExt => match file_info.metadata_ext {
            Some(row) => row._unused == [0; 2],
            None => true,
        },
        OptionalPart::AuxExt => match file_info.aux_ext {
            Some(row) => row._unused == [0; 2],
            None => true,
        },
    }
}

// Does nothing: the numbers of a record fit their widths.
fn record_widths(file_info: &MDBFileInfo)
    ensures { FitsRecord file_info.now }
{
    let metadata = file_info.metadata;
    metadata.widths();
    all_widths(&file_info.segments);
    all_widths(&file_info.verification);
    if let Some(row) = &file_info.metadata_ext {
        (*row).widths();
    }
    if let Some(row) = &file_info.aux_ext {
        (*row).widths();
    }
}
