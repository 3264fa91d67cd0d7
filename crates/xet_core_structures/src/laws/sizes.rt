//! A law of the sizes of unions.

ghost use Rattle.std.specs.Prelude.{ℕ, ◌+◌, ◌*◌, ◌≤◌, List, length};
ghost use Rattle.xet_shards.specs.Content.Shard.{Shard};
ghost use Rattle.xet_core_structures.specs.declared.set_operations.MergePlan.{MergePlan};
ghost use Rattle.xet_shards.specs.declared.shard_format.ends.info.MDBShardInfo.{MDBShardInfo};
ghost use Rattle.xet_shards.specs.Ends.Ends.{HasHeaderAndFooter};
ghost use Rattle.xet_shards.specs.Content.SetOperations.{IsDifference};
ghost use Rattle.xet_core_structures.specs.TwoShards.ByteResults.{keyed_layout, key_of, HaveResult, UnitesBytes};
ghost use Rattle.xet_core_structures.specs.Records.ByteUnion.{IsByteUnion};
ghost use Rattle.xet_core_structures.specs.Trees.MergeTrees.{leaves, HasUnion, TreeWrites};
ghost use Rattle.xet_core_structures.specs.Records.Sizes.{rows_of_shard, bytes_at};

/// A union has at most the rows of both shards, and as bytes, also of a tree, at most 344 more than
/// 8/3 of its inputs'. An input united with itself counts once; of a difference only the second
/// counts.
pub fn results_are_bounded()
    ensures rows { (a b c : Shard) → IsByteUnion a b c
        → rows_of_shard c ≤ rows_of_shard a + rows_of_shard b }
    ensures bytes { (inputs : List (List ℕ)) → (plan : MergePlan) → (out : List ℕ) → HasUnion plan
        → TreeWrites inputs plan out
        → 3 * length out ≤ 3 * 344 + 8 * bytes_at inputs (leaves plan) }
    ensures union { (x y out : List ℕ) → UnitesBytes x y out
        → 3 * length out ≤ 3 * 344 + 8 * (length x + length y) }
    ensures difference { (x y : List ℕ) → (i j : MDBShardInfo) → (c : Shard) → HasHeaderAndFooter x i
        → HasHeaderAndFooter y j → HaveResult IsDifference x i y j c
        → 3 * length (keyed_layout c (key_of i)) ≤ 3 * 344 + 8 * length y }
    ensures repetition { (x out : List ℕ) → UnitesBytes x x out
        → 3 * length out ≤ 3 * 344 + 8 * length x }
{}
