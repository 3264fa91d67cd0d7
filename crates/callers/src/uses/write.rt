//! Making a shard and writing it.

ghost use Rattle.std.specs.Prelude.{◌≡◌, ◌⊎◌, IfOk, IfErr};
ghost use Rattle.xet_core_structures.specs.Shard.{CanAddFile, CanAddXorb, add_file, add_xorb, empty_shard};
ghost use Rattle.xet_core_structures.specs.WrittenShard.{IsBytesOf, IsBytesWithoutExpiry};

use std::alloc::Global;
use xet_core_structures::error::{CoreError, Result};
use xet_core_structures::file_structs::MDBFileInfo;
use xet_core_structures::shard_in_memory::MDBInMemoryShard;
use xet_core_structures::xorb_structs::MDBXorbInfo;

/// The bytes of a shard of one file and one xorb, in version 3 and without expiry.
///
/// `InvalidArguments` if a record is ill-formed or has more than 4294967295 rows, `OutOfMemory` if
/// an allocation fails.
pub fn write_shard(alloc: Global, file: MDBFileInfo, xorb: MDBXorbInfo) -> Result<Vec<u8>>
    ensures written { IfOk result (λ bytes.
        IsBytesWithoutExpiry (add_xorb (add_file empty_shard file) xorb) bytes.items) }
    ensures readable { IfOk result (λ bytes.
        IsBytesOf (add_xorb (add_file empty_shard file) xorb) bytes.items) }
    ensures refused { IfErr result (λ e. (e ≡ CoreError.OutOfMemory)
        ⊎ ((e ≡ CoreError.InvalidArguments)
        × ((¬ CanAddFile empty_shard file) ⊎ (¬ CanAddXorb (add_file empty_shard file) xorb)))) }
{
    let mut shard = MDBInMemoryShard::new(alloc);
    shard.add_file_reconstruction_info(alloc, file)?;
    shard.add_xorb_block(alloc, xorb)?;
    shard.to_bytes(alloc)
}
