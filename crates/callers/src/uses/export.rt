//! Exporting shards under a key, and merging the exports.

ghost use Rattle.std.specs.Prelude.{◌≡◌, true, [], ◌∷◌, Contains, IfOk, IsErrAnd};
ghost use Rattle.xet_core_structures.specs.Trees.ExportTrees.{IsExportOf};
ghost use Rattle.xet_core_structures.specs.Joins.{IsJoinOf, AgreePairwise};
ghost use Rattle.xet_core_structures.specs.KeyedExport.{ExpiresTooLate};
ghost use Rattle.xet_core_structures.specs.Trees.MergeTrees.{HasUnion, leaves};
ghost use Rattle.xet_core_structures.specs.Shard.{Shard};
ghost use Rattle.xet_core_structures.specs.WrittenShard.{IsBytesOf};
ghost use Rattle.callers.specs.Callers.{export_of, EqualButForTimes};

use std::alloc::Global;
use xet_core_structures::error::{CoreError, Result};
use xet_core_structures::laws::exports_merge_to_the_export_of_the_join;
use xet_core_structures::merklehash::HMACKey;
use xet_core_structures::set_operations::{MergePlan, shard_union_tree};
use xet_core_structures::shard_format::MDBShardInfo;
use xet_core_structures::source::MemorySource;

/// Exports two shards under a key, created now and valid for so many seconds, and merges the
/// exports.
///
/// `InvalidArguments` if the expiry does not fit `u64`. Else the errors are those of
/// [`MDBShardInfo::export_as_keyed_shard_streaming`] and of [`shard_union_tree`].
pub fn export_and_merge(
    alloc: Global,
    one: &[u8],
    other: &[u8],
    key: HMACKey,
    now: u64,
    valid_seconds: u64,
) -> Result<Vec<u8>>
    ensures merged { (a b join : Shard) → IsBytesOf a one.now → IsBytesOf b other.now
        → AgreePairwise (Contains (a ∷ b ∷ [])) → IsJoinOf (Contains (a ∷ b ∷ [])) join
        → IfOk result
        (λ merged. merged.items ≡ export_of join key 0 18446744073709551615) }
    ensures times { (a b join : Shard) → IsBytesOf a one.now → IsBytesOf b other.now
        → AgreePairwise (Contains (a ∷ b ∷ [])) → IsJoinOf (Contains (a ∷ b ∷ [])) join
        → IfOk result
        (λ merged. EqualButForTimes (export_of join key now valid_seconds) merged.items) }
    ensures late { ExpiresTooLate now valid_seconds
        → IsErrAnd result (λ e. e ≡ CoreError.InvalidArguments) }
{
    exports_merge_to_the_export_of_the_join();
    let first = export(alloc, one, key, now, valid_seconds)?;
    let second = export(alloc, other, key, now, valid_seconds)?;
    let plan = union_of_two(alloc)?;
    shard_union_tree(alloc, &plan, &[first.as_slice(), second.as_slice()])
}

// The export of a shard with its files and all tables.
fn export(
    alloc: Global,
    shard: &[u8],
    key: HMACKey,
    now: u64,
    valid_seconds: u64,
) -> Result<Vec<u8>>
    ensures made { (s : Shard) → IsBytesOf s shard.now
        → IfOk result (λ bytes. IsExportOf true key s bytes.items) }
    ensures late { ExpiresTooLate now valid_seconds
        → IsErrAnd result (λ e. e ≡ CoreError.InvalidArguments) }
{
    exports_merge_to_the_export_of_the_join();
    let mut source = MemorySource::new(shard);
    let mut bytes = Vec::new(alloc);
    MDBShardInfo::export_as_keyed_shard_streaming(
        alloc,
        &mut source,
        &mut bytes,
        key,
        now,
        valid_seconds,
        true,
        true,
        true,
    )?;
    Ok(bytes)
}

// The union of the first input with the second.
fn union_of_two(alloc: Global) -> Result<MergePlan>
    ensures union { IfOk result HasUnion }
    ensures leaves { IfOk result (λ plan. leaves plan ≡ 0 ∷ 1 ∷ []) }
{
    let first = Box::new(alloc, MergePlan::Leaf(0))?;
    let second = Box::new(alloc, MergePlan::Leaf(1))?;
    Ok(MergePlan::Both(first, second))
}
