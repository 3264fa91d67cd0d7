//! The bytes of a shard, in a version of the format.

ghost use Rattle.std.specs.Prelude.{◌≡◌, ◌⊎◌, IfOk, IfErr, IsErrOf};
ghost use Rattle.xet_core_structures.specs.Errors.{IsWriteError};
ghost use Rattle.xet_core_structures.specs.Layout.{layout_in};
ghost use Rattle.shardtool.specs.WrittenVersions.{HasNoLayout};

use std::alloc::Global;
use xet_core_structures::error::{CoreError, Result};
use xet_core_structures::record_reader::FormatVersion;
use xet_core_structures::shard_format::MDBShardInfo;
use xet_core_structures::shard_in_memory::MDBInMemoryShard;

/// The bytes of a shard in a version. The expiry is a timestamp in seconds, or none.
///
/// `InvalidArguments` if a file has a row that the version does not have. The other errors are
/// those of [`MDBShardInfo::serialize_from`].
pub fn written_bytes(
    alloc: Global,
    version: FormatVersion,
    shard: &MDBInMemoryShard,
    expiry: Option<u64>,
) -> Result<Vec<u8>>
    ensures bytes { IfOk result
        (λ bytes. bytes.items ≡ layout_in version shard.now.content expiry) }
    ensures refused { HasNoLayout version shard.now.content
        → IsErrOf result CoreError.InvalidArguments }
    ensures causes { IfErr result
        (λ e. IsWriteError e
        ⊎ ((e ≡ CoreError.InvalidArguments) × HasNoLayout version shard.now.content)) }
{
    let mut bytes = Vec::new(alloc);
    match version {
        FormatVersion::V2 => MDBShardInfo::serialize_from_v2(alloc, &mut bytes, shard, expiry)?,
        FormatVersion::V3 => MDBShardInfo::serialize_from(alloc, &mut bytes, shard, expiry)?,
    };
    Ok(bytes)
}
