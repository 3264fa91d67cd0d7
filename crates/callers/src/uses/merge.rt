//! Merging shards by a tree, and a lookup in the result.

ghost use Rattle.std.specs.Prelude.{◌≡◌, ◌⊎◌, ◌≤◌, List, length, map, MatchResult};
ghost use Rattle.std.specs.FinMap as finite;
ghost use Rattle.xet_core_structures.specs.FileRecord.{file_records};
ghost use Rattle.xet_core_structures.specs.Lookup.{FoundInShard, with_first_word};
ghost use Rattle.xet_core_structures.specs.Trees.MergeTrees.{IsMerge, MergeRefused};
ghost use Rattle.xet_core_structures.specs.Shard.{Shard};
ghost use Rattle.xet_core_structures.specs.WrittenShard.{IsBytesWithoutExpiry};

use super::find::open_and_find;
use std::alloc::Global;
use xet_core_structures::error::{CoreError, Result};
use xet_core_structures::file_structs::MDBFileInfo;
use xet_core_structures::merklehash::MerkleHash;
use xet_core_structures::set_operations::{MergePlan, shard_union_tree};
use xet_core_structures::source::MemorySource;

/// Merges shards by a tree: the bytes of the result, and the file with this hash in them.
///
/// The errors are those of [`shard_union_tree`] and of [`open_and_find`].
pub fn merge_and_find(
    alloc: Global,
    plan: &MergePlan,
    inputs: &[&[u8]],
    hash: &MerkleHash,
) -> Result<(Vec<u8>, Option<MDBFileInfo>)>
    ensures { (shards : List Shard) → (join : Shard)
        → IsMerge (map (λ x. x.now) inputs.now) plan.now shards join
        → MatchResult result
        (λ made. IsBytesWithoutExpiry join made.0.items × FoundInShard join hash.now made.1)
        (λ e. MergeRefused join e ⊎ ((e ≡ CoreError.TruncatedHashCollision hash.now.word0)
        × (8 ≤ length (with_first_word file_records hash.now.word0 (finite.values join.files))))) }
{
    let merged = shard_union_tree(alloc, plan, inputs)?;
    let found = open_and_find(alloc, &mut MemorySource::new(merged.as_slice()), hash)?;
    Ok((merged, found))
}
