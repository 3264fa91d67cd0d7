//! The shard of bytes that may end before its tables do.

ghost use Rattle.std.specs.Prelude.{◌≡◌, IfOk};
ghost use Rattle.placed_shards.specs.Filling.{FillsWith};
ghost use Rattle.xet_core_structures.specs.declared.error.CoreError.{CoreError};
ghost use Rattle.xet_core_structures.specs.declared.merklehash.DataHash.{DataHash};
ghost use Rattle.xet_core_structures.specs.Records.ShardContents.{HoldsShard};
ghost use Rattle.xet_core_structures.specs.Shard.{Shard, IsShard};
ghost use Rattle.shard_bytes.specs.Completing.{Completes, RefusesCompletion};
ghost use Rattle.shard_bytes.specs.Exporting.{FollowsHeader};
ghost use Rattle.shard_bytes.specs.ResultSizes.{IsRewriteSize};
ghost use Rattle.shard_bytes.specs.Versions.{LaidOutIn, NotLaidOutIn};
ghost use Rattle.xet_c.specs.Arguments.{c_hash};
ghost use Rattle.xet_c.specs.Output.{Outcome};
ghost use Rattle.xet_c.specs.NumberedVersions.{InNumber, NotInNumber};

use crate::hash::XetHash;
use crate::output::answer;
use crate::version::version_of;
use shard_bytes::complete::completed;
use std::alloc::Global;
use xet_core_structures::error::{CoreError, Result};
use xet_core_structures::merklehash::{HMACKey, MerkleHash};

/// Puts the shard of which these bytes have the header and both sections to the front of `out`.
/// Errors of `version` are as in `xet_convert`, others as in [`completed`].
#[unsafe(no_mangle)]
pub extern "C" fn xet_complete(
    alloc: Global,
    shard: &[u8],
    key: &XetHash,
    version: u64,
    out: &mut [u8],
    written: &mut usize,
) -> u32
    ensures completed { (k : DataHash) × (c_hash k ≡ key.now)
        × Outcome (InNumber version (λ v. LaidOutIn v (Completes k shard.now)))
        (NotInNumber version
        (λ v. NotLaidOutIn v (Completes k shard.now) (RefusesCompletion shard.now))) out.old
        out.new written.new result }
    ensures of_shard { (s : Shard) → IsShard s → FollowsHeader s shard.now
        → (k : DataHash) × (c_hash k ≡ key.now)
        × Outcome (InNumber version (λ v. LaidOutIn v (HoldsShard k s)))
        (NotInNumber version (λ v. NotLaidOutIn v (HoldsShard k s) (λ e. e ≡ CoreError.OutOfMemory)))
        out.old out.new written.new result }
    ensures size { IsRewriteSize shard.now written.new }
{
    let filled = fill(alloc, shard, MerkleHash::from(key.words), version, out);
    answer(filled, out.len(), written)
}

fn fill(alloc: Global, shard: &[u8], key: HMACKey, version: u64, out: &mut [u8]) -> Result<usize>
    ensures completed { FillsWith (InNumber version (λ v. LaidOutIn v (Completes key shard.now)))
        (NotInNumber version
        (λ v. NotLaidOutIn v (Completes key shard.now) (RefusesCompletion shard.now))) out.old
        out.new result }
    ensures of_shard { (s : Shard) → IsShard s → FollowsHeader s shard.now
        → FillsWith (InNumber version (λ v. LaidOutIn v (HoldsShard key s)))
        (NotInNumber version (λ v. NotLaidOutIn v (HoldsShard key s) (λ e. e ≡ CoreError.OutOfMemory)))
        out.old out.new result }
    ensures size { IfOk result (IsRewriteSize shard.now) }
{
    let version = version_of(version)?;
    completed(alloc, shard, key)?.write_into(alloc, version, out)
}
