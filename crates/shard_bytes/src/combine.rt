//! Union and difference of two shards.

ghost use Rattle.std.specs.Prelude.{length, IfOk, MatchResult};
ghost use Rattle.placed_shards.specs.Content.{content};
ghost use Rattle.shard_bytes.specs.Combining.{CombinesTo, RefusesCombining};
ghost use Rattle.placed_shards.specs.MergeSizes.{IsResultSize};
ghost use Rattle.shard_bytes.specs.ResultSizes.{sources_of};
ghost use Rattle.shard_bytes.specs.Versions.{IsWrittenIn, NotWrittenIn};

use bumpalo::Bump;
use placed_shards::open::open;
use placed_shards::placed_shard::PlacedShard;
use placed_shards::unions::{difference, union};
use std::alloc::Global;
use xet_core_structures::error::Result;
use xet_core_structures::record_reader::FormatVersion;

/// The union of two shards, or the second's records whose hashes the first lacks.
#[derive(Clone, Copy)]
pub enum Operation {
    Union,
    Difference,
}

/// The bytes of [`combined`]: at most 344 and 8/3 of both inputs', or of the second's for a
/// difference.
///
/// Fails as it does; `InvalidArguments` for an auxiliary row of the result in version 2.
pub fn combine_bytes<'a>(
    alloc: Global,
    operation: Operation,
    first: &'a [u8],
    second: &'a [u8],
    version: FormatVersion,
) -> Result<Vec<u8>>
    ensures combined { MatchResult result
        (λ bytes. IsWrittenIn version (CombinesTo operation first.now second.now) bytes.items)
        (NotWrittenIn version (CombinesTo operation first.now second.now)
        (RefusesCombining operation first.now second.now)) }
    ensures size { IfOk result
        (λ bytes. IsResultSize (sources_of operation first.now second.now) (length bytes.items)) }
{
    let arena = Bump::new(alloc);
    combined(alloc, &arena, operation, first, second)?.to_bytes(alloc, version)
}

/// The result of an operation on two shards, the first of which is read first.
///
/// Fails as [`open`] does, and as [`union`] or [`difference`].
pub fn combined<'a>(
    alloc: Global,
    arena: &'a Bump,
    operation: Operation,
    first: &'a [u8],
    second: &'a [u8],
) -> Result<PlacedShard<'a>>
    ensures { MatchResult result
        (λ shard. CombinesTo operation first.now second.now (content shard))
        (RefusesCombining operation first.now second.now) }
{
    let one = open(alloc, first)?;
    let other = open(alloc, second)?;
    match operation {
        Operation::Union => union(alloc, arena, &one, &other),
        Operation::Difference => difference(alloc, &one, &other),
    }
}
