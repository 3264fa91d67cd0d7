//! Sums over the files and the xorbs of a shard.

ghost use Rattle.std.specs.Prelude.{◌≡◌, ◌≤◌, sum_by};
ghost use Rattle.std.specs.BTreeMap.{values};
ghost use Rattle.std.specs.List.{list_any};
ghost use Rattle.xet_records.specs.FileRecord.{file_records, has_aux_ext, size_of_file};
ghost use Rattle.xet_records.specs.XorbRecord.{xorb_records};
ghost use Rattle.xet_shards.specs.Write.Section.{total_rows};
ghost use Rattle.xet_shards.specs.Content.Shard.{AreFiles, AreXorbs};
ghost use Rattle.xet_shards.specs.ShardInMemory.XorbStore.{shown_xorbs};
ghost use Rattle.xet_shards.specs.Steps.XorbStoreSteps.{xorbs_of};
ghost use Rattle.xet_records.specs.Limits.{MAX_ROWS};

use std::collections::BTreeMap;
use std::rc::Rc;
use xet_base::merklehash::MerkleHash;
use xet_records::file_structs::MDBFileInfo;
use xet_records::xorb_structs::MDBXorbInfo;

/// The rows of files, which fit `u32`.
pub fn file_rows(files: &BTreeMap<MerkleHash, MDBFileInfo>) -> u64
    requires files { AreFiles files.now.entries }
    requires rows { total_rows file_records (values files.now) ≤ MAX_ROWS }
    ensures { result ≡ total_rows file_records (values files.now) }
{
    files
        .values()
        .map(|file_info| 1 + file_info.metadata.rows_after())
        .sum()
}

/// Whether a file has an auxiliary row.
pub fn have_aux_rows(files: &BTreeMap<MerkleHash, MDBFileInfo>) -> bool
    ensures { result ≡ list_any (λ r. has_aux_ext r.metadata.file_flags) (values files.now) }
{
    files.values().any(|file_info| file_info.contains_aux_ext())
}

/// The rows of xorbs, which fit `u32`.
pub fn xorb_rows(xorbs: &BTreeMap<MerkleHash, Rc<MDBXorbInfo>>) -> u64
    requires xorbs { AreXorbs (shown_xorbs xorbs.now.entries) }
    requires rows { total_rows xorb_records (xorbs_of xorbs.now.entries) ≤ MAX_ROWS }
    ensures { result ≡ total_rows xorb_records (xorbs_of xorbs.now.entries) }
{
    xorbs
        .values()
        .map(|xorb| 1 + xorb.chunks.as_slice().len() as u64)
        .sum()
}

/// The size of files, in bytes.
pub fn materialized_bytes(files: &BTreeMap<MerkleHash, MDBFileInfo>) -> u64
    requires files { AreFiles files.now.entries }
    requires rows { total_rows file_records (values files.now) ≤ MAX_ROWS }
    ensures { result ≡ sum_by size_of_file (values files.now) }
{
    files.values().map(|file_info| file_info.file_size()).sum()
}

/// The size of xorbs on disk, in bytes.
pub fn stored_bytes_on_disk(xorbs: &BTreeMap<MerkleHash, Rc<MDBXorbInfo>>) -> u64
    requires xorbs { AreXorbs (shown_xorbs xorbs.now.entries) }
    requires rows { total_rows xorb_records (xorbs_of xorbs.now.entries) ≤ MAX_ROWS }
    ensures { result ≡ sum_by (λ x. x.metadata.num_bytes_on_disk) (xorbs_of xorbs.now.entries) }
{
    xorbs
        .values()
        .map(|xorb| u64::from(xorb.metadata.num_bytes_on_disk))
        .sum()
}

/// The unpacked size of xorbs, in bytes.
pub fn stored_bytes(xorbs: &BTreeMap<MerkleHash, Rc<MDBXorbInfo>>) -> u64
    requires xorbs { AreXorbs (shown_xorbs xorbs.now.entries) }
    requires rows { total_rows xorb_records (xorbs_of xorbs.now.entries) ≤ MAX_ROWS }
    ensures { result ≡ sum_by (λ x. x.metadata.num_bytes_in_xorb) (xorbs_of xorbs.now.entries) }
{
    xorbs
        .values()
        .map(|xorb| u64::from(xorb.metadata.num_bytes_in_xorb))
        .sum()
}
