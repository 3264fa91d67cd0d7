//! The rows that a union has, counted before it is built.

ghost use Rattle.std.specs.Prelude.{◌≡◌, ◌+◌, ◌≤◌, ◌↔◌, T, Some, IsTrue, IfSome, MatchOption, unwrap_or, option_map};
ghost use Rattle.std.specs.Map.{values_of};
ghost use Rattle.std.specs.Option.{option_or};
ghost use Rattle.std.specs.BTreeMap.{values};
ghost use Rattle.std.specs.FinMap as finite;
ghost use Rattle.std.specs.FinMap.{is_sorted, from_sorted};
ghost use Rattle.xet_base.specs.declared.merklehash.DataHash.{DataHash};
ghost use Rattle.xet_base.specs.Hash.{hash_cmp};
ghost use Rattle.xet_records.specs.FileRecord.{file_records, row_count, IsWellFormed};
ghost use Rattle.xet_records.specs.Merging.{IsSameFile};
ghost use Rattle.xet_records.specs.XorbRecord.{xorb_records};
ghost use Rattle.xet_shards.specs.Write.Section.{total_rows};
ghost use Rattle.xet_shards.specs.Content.Shard.{FileMap, XorbMap, AreFiles, AreXorbs};
ghost use Rattle.xet_shards.specs.Content.Joining.{entry, either_file};
ghost use Rattle.xet_shards.specs.Steps.JoiningSteps.{CanJoinFile, CanJoinFiles};
ghost use Rattle.xet_shards.specs.ShardInMemory.XorbStore.{shown_xorbs};
ghost use Rattle.xet_records.specs.Limits.{MAX_ROWS};

use super::file_store::{FileStore, can_join, joined_rows};
use super::xorb_store::XorbStore;
use std::collections::BTreeMap;
use std::rc::Rc;
use xet_base::merklehash::MerkleHash;
use xet_records::file_structs::MDBFileInfo;
use xet_records::xorb_structs::MDBXorbInfo;

/// The rows of the union of these files and those of `other`; `None` if a file can't be joined with
/// that in `other` under its hash.
pub fn united_file_rows(
    files: &BTreeMap<MerkleHash, MDBFileInfo>,
    other: &FileStore,
    other_rows: u64,
) -> Option<u64>
    requires sorted { T (is_sorted hash_cmp files.now.entries) }
    requires files { AreFiles files.now.entries }
    requires rows { total_rows file_records (values files.now) ≤ MAX_ROWS }
    requires others { other_rows ≡ total_rows file_records (finite.values other.now) }
    requires other_rows { other_rows ≤ MAX_ROWS }
    ensures { MatchOption result
        (CanJoinFiles (from_sorted files.now.entries) other.now → ⊥)
        (λ united. CanJoinFiles (from_sorted files.now.entries) other.now
        × ((c : FileMap) → ((q : DataHash) → finite.get c q
        ≡ either_file (entry files.now.entries q) (finite.get other.now q))
        → united ≡ total_rows file_records (finite.values c))) }
{
    let mut rows = other_rows;
    for (file_hash, file_info) in files {
        let twin = other.get(file_hash);
        if !can_join_twin(file_info, twin) {
            return None;
        }
        rows += rows_added(file_info, twin);
    }
    Some(rows)
}

fn can_join_twin(file_info: &MDBFileInfo, twin: Option<&MDBFileInfo>) -> bool
    requires own { IsWellFormed file_info.now }
    requires others { IfSome twin (λ t. IsWellFormed t.now) }
    ensures { IsTrue result ↔ IfSome twin.entry (λ t. CanJoinFile file_info.now t.now) }
{
    match twin {
        Some(twin) => can_join(file_info, twin),
        None => true,
    }
}

// The rows of both joined, less those of the twin.
#[tactic(auto, using(xet_records::proofs::Record::rows_whole, xet_records::proofs::Merging::merged_more, xet_records::proofs::Merging::merged_within))]
fn rows_added(file_info: &MDBFileInfo, twin: Option<&MDBFileInfo>) -> u64
    requires own { IsWellFormed file_info.now }
    requires others { IfSome twin (λ t. IsWellFormed t.now) }
    requires same { IfSome twin (λ t. IsSameFile file_info.now.metadata t.now.metadata) }
    ensures rows { unwrap_or (option_map row_count (option_map (λ t. t.now) twin.entry)) 0 + result
        ≡ unwrap_or (option_map row_count
        (either_file (Some file_info.now) (option_map (λ t. t.now) twin.entry))) 0 }
    ensures bound { result ≤ row_count file_info.now }
{
    match twin {
        Some(twin) => joined_rows(file_info, twin) - 1 - twin.metadata.rows_after(),
        None => 1 + file_info.metadata.rows_after(),
    }
}

/// The rows of the union of these xorbs and those of `other`.
pub fn united_xorb_rows(
    xorbs: &BTreeMap<MerkleHash, Rc<MDBXorbInfo>>,
    other: &XorbStore,
    other_rows: u64,
) -> u64
    requires sorted { T (is_sorted hash_cmp (shown_xorbs xorbs.now.entries)) }
    requires xorbs { AreXorbs (shown_xorbs xorbs.now.entries) }
    requires rows { total_rows xorb_records (values_of (shown_xorbs xorbs.now.entries))
        ≤ MAX_ROWS }
    requires others { other_rows ≡ total_rows xorb_records (finite.values other.now.xorbs) }
    requires other_rows { other_rows ≤ MAX_ROWS }
    ensures { (c : XorbMap) → ((q : DataHash) → finite.get c q
        ≡ option_or (finite.get other.now.xorbs q) (entry (shown_xorbs xorbs.now.entries) q))
        → result ≡ total_rows xorb_records (finite.values c) }
{
    let mut rows = other_rows;
    for (xorb_hash, xorb) in xorbs {
        if !other.contains(xorb_hash) {
            rows += 1 + u64::from(xorb.metadata.num_entries);
        }
    }
    rows
}
