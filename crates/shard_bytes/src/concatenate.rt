//! One shard made of many whose records follow one another.

ghost use Rattle.std.specs.Prelude.{map};
ghost use Rattle.placed_shards.specs.Filling.{FillsWith};
ghost use Rattle.shard_bytes.specs.Concatenations.{Concatenates, FillsSpanWith};

use crate::memory::in_memory;
use shard_concatenation::{concatenate_shards_into, concatenated_span_into};
use std::alloc::Global;
use xet_core_structures::error::Result;

/// Puts the shard that has all records of `shards`, in their order, at the front of `out`, and
/// returns its size in bytes. If it does not fit, and after any error, `out` stays as it is. The
/// result has the shards' key and latest version, all tables, creation 0 and no expiry. Records are
/// not checked. Errors and memory are those of [`concatenate_shards_into`].
///
/// Results of [`merge_bytes`](crate::merge::merge_bytes) in one version, for ranges that follow one
/// another without a gap, give the bytes of the one merge if its shards are well-formed, have one
/// key and agree pairwise.
pub fn concatenate_into(alloc: Global, shards: &[&[u8]], out: &mut [u8]) -> Result<usize>
    ensures { Concatenates (map (λ x. x.now) shards.now)
        (λ IsMade IsCause. FillsWith IsMade IsCause out.old out.new result) }
{
    match concatenate_shards_into(alloc, shards, out) {
        Ok(size) => Ok(size),
        Err(error) => Err(in_memory(error)),
    }
}

/// Fills `out` with what [`concatenate_into`] makes from the offset `from` on, and returns the size
/// of the whole. `out` stays as it is if it would pass the end, and after any error. Threads can
/// write spans side by side (`shard_concatenation::laws::spans_are_the_whole`). Errors and memory
/// are those of [`concatenated_span_into`].
pub fn concatenate_span_into(
    alloc: Global,
    shards: &[&[u8]],
    from: usize,
    out: &mut [u8],
) -> Result<usize>
    ensures { Concatenates (map (λ x. x.now) shards.now)
        (λ IsMade IsCause. FillsSpanWith IsMade IsCause from out.old out.new result) }
{
    match concatenated_span_into(alloc, shards, from, out) {
        Ok(size) => Ok(size),
        Err(error) => Err(in_memory(error)),
    }
}
