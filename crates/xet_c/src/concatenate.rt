//! Concatenation of shards.

ghost use Rattle.std.specs.Prelude.{◌≡◌, MatchResult, map};
ghost use Rattle.shard_bytes.specs.Concatenations.{Concatenates};
ghost use Rattle.xet_core_structures.specs.Errors.{variant_number};
ghost use Rattle.xet_c.specs.Output.{Outcome, AnswersSpan, SpanOutcome};

use crate::output::{answer, error_number};
use shard_bytes::concatenate::{concatenate_into, concatenate_span_into};
use std::alloc::Global;
use xet_core_structures::error::{CoreError, Result};

/// Puts the shard of all records of these shards, in their order, to the front of `out`: of version
/// 2 if all are, else 3. Hashes of files, and of xorbs, have to ascend from shard to shard. The
/// errors are those of [`concatenate_into`].
#[unsafe(no_mangle)]
pub extern "C" fn xet_concatenate(
    alloc: Global,
    shards: &[&[u8]],
    out: &mut [u8],
    written: &mut usize,
) -> u32
    ensures { Concatenates (map (λ x. x.now) shards.now)
        (λ IsMade IsCause. Outcome IsMade IsCause out.old out.new written.new result) }
{
    let filled = concatenate_into(alloc, shards, out);
    answer(filled, out.len(), written)
}

/// Fills `out` with the bytes from offset `from` on of what [`xet_concatenate`] writes. `size` is
/// that of the whole. `InvalidArguments` if they pass its end, where `size` is set too; with the
/// other errors, those of [`concatenate_span_into`], it is 0. After any, `out` stays.
#[unsafe(no_mangle)]
pub extern "C" fn xet_concatenate_span(
    alloc: Global,
    shards: &[&[u8]],
    from: usize,
    out: &mut [u8],
    size: &mut usize,
) -> u32
    ensures { Concatenates (map (λ x. x.now) shards.now)
        (λ IsMade IsCause. SpanOutcome IsMade IsCause from out.old out.new size.new result) }
{
    let filled = concatenate_span_into(alloc, shards, from, out);
    answer_span(filled, from, out.len(), size)
}

// `InvalidArguments` if `count` bytes from `from` on pass the end.
fn answer_span(filled: Result<usize>, from: usize, count: usize, size: &mut usize) -> u32
    ensures { MatchResult filled (AnswersSpan from count size.new result)
        (λ error. (result ≡ variant_number error) × (size.new ≡ 0)) }
{
    match filled {
        Ok(whole) => {
            *size = whole;
            if from <= whole && count <= whole - from {
                0
            } else {
                error_number(&CoreError::InvalidArguments)
            }
        }
        Err(error) => {
            *size = 0;
            error_number(&error)
        }
    }
}
