//! The union of shards.

ghost use Rattle.std.specs.Prelude.{◌≡◌, List, map, length, IfOk, MatchResult};
ghost use Rattle.placed_shards.specs.MergedLists.{IsMergeOf, MergeRefusal, IsMergeOfList, shard_content};
ghost use Rattle.placed_shards.specs.MergeSizes.{IsResultSize};
ghost use Rattle.xet_core_structures.specs.declared.merklehash.DataHash.{DataHash};
ghost use Rattle.xet_core_structures.specs.Shard.{Shard};
ghost use Rattle.xet_core_structures.specs.Trees.MergeTrees.{MergeRefused};
ghost use Rattle.shard_bytes.specs.Versions.{IsWrittenIn, NotWrittenIn};

use bumpalo::Bump;
use placed_shards::merge::merge;
use placed_shards::selection::Selection;
use std::alloc::Global;
use xet_core_structures::error::Result;
use xet_core_structures::record_reader::FormatVersion;

/// The bytes of the union of the records in a range: at most 344 and 8/3 of the inputs'. Of shards
/// that agree pairwise it is the join, in any order of the list.
///
/// Fails as [`merge`] does; `InvalidArguments` for an auxiliary row of the union in version 2.
pub fn merge_bytes<'a>(
    alloc: Global,
    shards: &[&'a [u8]],
    selection: &Selection,
    version: FormatVersion,
) -> Result<Vec<u8>>
    ensures merged { MatchResult result
        (λ bytes. IsWrittenIn version (IsMergeOf selection.now (map (λ x. x.now) shards.now))
        bytes.items)
        (NotWrittenIn version (IsMergeOf selection.now (map (λ x. x.now) shards.now))
        (MergeRefusal selection.now (map (λ x. x.now) shards.now))) }
    ensures one_byte_string { (key : DataHash) → (parts : List Shard) → (join : Shard)
        → IsMergeOfList selection.now key (map (λ x. x.now) shards.now) parts join
        → MatchResult result
        (λ bytes. IsWrittenIn version (λ made. made ≡ shard_content key join) bytes.items)
        (NotWrittenIn version (λ made. made ≡ shard_content key join) (MergeRefused join)) }
    ensures size { IfOk result
        (λ bytes. IsResultSize (map (λ x. x.now) shards.now) (length bytes.items)) }
{
    let arena = Bump::new(alloc);
    merge(alloc, &arena, shards, selection)?.to_bytes(alloc, version)
}
