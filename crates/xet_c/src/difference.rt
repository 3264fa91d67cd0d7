//! The difference of two shards.

ghost use Rattle.std.specs.Prelude.{[], ◌∷◌, IfOk};
ghost use Rattle.placed_shards.specs.Filling.{FillsWith};
ghost use Rattle.placed_shards.specs.MergeSizes.{IsResultSize};
ghost use Rattle.shard_bytes.specs.declared.combine.Operation.TheVariants.{Difference};
ghost use Rattle.shard_bytes.specs.Combining.{CombinesTo, RefusesCombining};
ghost use Rattle.shard_bytes.specs.Versions.{IsWrittenIn, NotWrittenIn};
ghost use Rattle.xet_c.specs.Output.{Outcome};
ghost use Rattle.xet_c.specs.NumberedVersions.{InNumber, NotInNumber};

use crate::output::answer;
use crate::version::version_of;
use bumpalo::Bump;
use shard_bytes::combine::{Operation, combined};
use std::alloc::Global;
use xet_core_structures::error::{CoreError, Result};

/// Puts the records of the second shard whose hashes the first does not have to the front of `out`.
/// Errors of `version` are as in `xet_convert`, others as in [`combined`].
#[unsafe(no_mangle)]
pub extern "C" fn xet_difference(
    alloc: Global,
    first: &[u8],
    second: &[u8],
    version: u64,
    out: &mut [u8],
    written: &mut usize,
) -> u32
    ensures combined { Outcome
        (InNumber version (λ v. IsWrittenIn v (CombinesTo Difference first.now second.now)))
        (NotInNumber version
        (λ v. NotWrittenIn v (CombinesTo Difference first.now second.now)
        (RefusesCombining Difference first.now second.now))) out.old out.new written.new result }
    ensures size { IsResultSize (second.now ∷ []) written.new }
{
    let filled = fill(alloc, first, second, version, out);
    answer(filled, out.len(), written)
}

fn fill<'a>(
    alloc: Global,
    first: &'a [u8],
    second: &'a [u8],
    version: u64,
    out: &mut [u8],
) -> Result<usize>
    ensures combined { FillsWith
        (InNumber version (λ v. IsWrittenIn v (CombinesTo Difference first.now second.now)))
        (NotInNumber version
        (λ v. NotWrittenIn v (CombinesTo Difference first.now second.now)
        (RefusesCombining Difference first.now second.now))) out.old out.new result }
    ensures size { IfOk result (IsResultSize (second.now ∷ [])) }
{
    let version = version_of(version)?;
    let arena = Bump::new(alloc);
    combined(alloc, &arena, Operation::Difference, first, second)?.write_into(alloc, version, out)
}
