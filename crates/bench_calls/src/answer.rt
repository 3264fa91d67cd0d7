//! What an operation returns, and its bytes for the caller.

ghost use Rattle.std.specs.Prelude.{◌≡◌, IfOk};
ghost use Rattle.std.specs.Int.{to_le_bytes, w64};
ghost use Rattle.bench_calls.specs.Answers.{AreBytesOf, AreBytesOfSome};

use std::alloc::Global;
use xet_core_structures::error::Result;
use xet_core_structures::shard_in_memory::MDBInMemoryShard;

/// What an operation returns.
#[derive(Drop)]
pub enum Answer {
    /// How much it read or found.
    Count(u64),
    /// The bytes of a shard.
    Bytes(Vec<u8>),
    /// A shard in memory.
    Shard(MDBInMemoryShard),
}

impl Answer {
    /// The eight bytes of a number, lowest first, or those of the shard.
    pub fn into_bytes(self, alloc: Global) -> Result<Vec<u8>>
        ensures { IfOk result (λ bytes. AreBytesOf self bytes.items) }
    {
        match self {
            Answer::Count(count) => count_bytes(alloc, count),
            Answer::Bytes(bytes) => Ok(bytes),
            Answer::Shard(shard) => shard_to_bytes(alloc, &shard),
        }
    }
}

/// The eight bytes of a number, lowest first.
pub fn count_bytes(alloc: Global, count: u64) -> Result<Vec<u8>>
    ensures { IfOk result (λ bytes. bytes.items ≡ to_le_bytes w64 count) }
{
    let mut bytes = Vec::new(alloc);
    bytes.extend_from_slice(&count.to_le_bytes())?;
    Ok(bytes)
}

/// The bytes of a shard that is in memory.
pub fn shard_to_bytes(alloc: Global, shard: &MDBInMemoryShard) -> Result<Vec<u8>>
    ensures { IfOk result (λ bytes. AreBytesOfSome bytes.items) }
{
    shard.to_bytes(alloc)
}
