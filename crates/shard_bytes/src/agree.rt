//! The union of shards that have to agree.

ghost use Rattle.std.specs.Prelude.{map, IfOk, MatchResult};
ghost use Rattle.placed_shards.specs.MergedLists.{MergeRefusal};
ghost use Rattle.placed_shards.specs.Strict.{IsAgreedOr, AgreedRefusal, IsJoinedMerge};
ghost use Rattle.shard_bytes.specs.ResultSizes.{HasResultSize};
ghost use Rattle.shard_bytes.specs.Versions.{IsWrittenIn, NotWrittenIn};

use bumpalo::Bump;
use placed_shards::selection::Selection;
use placed_shards::strict::{Agreed, merge_agreeing};
use std::alloc::Global;
use xet_core_structures::error::Result;
use xet_core_structures::record_reader::FormatVersion;

/// As [`merge_bytes`](crate::merge::merge_bytes), but only if the records in the range are
/// well-formed and agree pairwise.
///
/// Fails as [`merge_agreeing`] does; `InvalidArguments` for an auxiliary row of the union in
/// version 2.
pub fn merge_agreeing_bytes<'a>(
    alloc: Global,
    shards: &[&'a [u8]],
    selection: &Selection,
    version: FormatVersion,
) -> Result<Agreed<Vec<u8>>>
    ensures merged { MatchResult result
        (IsAgreedOr selection.now (map (λ x. x.now) shards.now)
        (λ bytes. IsWrittenIn version (IsJoinedMerge selection.now (map (λ x. x.now) shards.now))
        bytes.items))
        (AgreedRefusal selection.now (map (λ x. x.now) shards.now)
        (NotWrittenIn version (IsJoinedMerge selection.now (map (λ x. x.now) shards.now))
        (MergeRefusal selection.now (map (λ x. x.now) shards.now)))) }
    ensures size { IfOk result (HasResultSize (map (λ x. x.now) shards.now)) }
{
    let arena = Bump::new(alloc);
    match merge_agreeing(alloc, &arena, shards, selection)? {
        Agreed::Made(made) => Ok(Agreed::Made(made.to_bytes(alloc, version)?)),
        Agreed::Disagreements(found) => Ok(Agreed::Disagreements(found)),
        Agreed::Malformed(record) => Ok(Agreed::Malformed(record)),
    }
}
