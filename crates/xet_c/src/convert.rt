//! Conversion between versions of the format.

ghost use Rattle.std.specs.Prelude.{IfOk};
ghost use Rattle.placed_shards.specs.Filling.{FillsWith};
ghost use Rattle.shard_bytes.specs.ResultSizes.{IsRewriteSize};
ghost use Rattle.shard_bytes.specs.Versions.{IsInVersion, RefusesVersion};
ghost use Rattle.xet_c.specs.Output.{Outcome};
ghost use Rattle.xet_c.specs.NumberedVersions.{InNumber, NotInNumber};

use crate::output::answer;
use crate::version::version_of;
use shard_bytes::version::same_shard;
use std::alloc::Global;
use xet_core_structures::error::{CoreError, Result};

/// Puts the same shard in a version of the format to the front of `out`. `InvalidArguments` if the
/// number is that of no version, or the version is 2, which has no auxiliary rows, and a file has
/// one; else the errors are those of [`same_shard`].
#[unsafe(no_mangle)]
pub extern "C" fn xet_convert(
    alloc: Global,
    shard: &[u8],
    version: u64,
    out: &mut [u8],
    written: &mut usize,
) -> u32
    ensures written { Outcome (InNumber version (λ v. IsInVersion v shard.now))
        (NotInNumber version (λ v. RefusesVersion v shard.now)) out.old out.new written.new result }
    ensures size { IsRewriteSize shard.now written.new }
{
    let filled = fill(alloc, shard, version, out);
    answer(filled, out.len(), written)
}

fn fill(alloc: Global, shard: &[u8], version: u64, out: &mut [u8]) -> Result<usize>
    ensures written { FillsWith (InNumber version (λ v. IsInVersion v shard.now))
        (NotInNumber version (λ v. RefusesVersion v shard.now)) out.old out.new result }
    ensures size { IfOk result (IsRewriteSize shard.now) }
{
    let version = version_of(version)?;
    same_shard(alloc, shard)?.write_into(alloc, version, out)
}
