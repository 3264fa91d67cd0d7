//! What operations start from, which is read once.

use crate::operation::Operation;
use shard_bytes::load::load_bytes;
use std::alloc::Global;
use xet_core_structures::error::Result;
use xet_core_structures::file_structs::MDBFileInfo;
use xet_core_structures::shard_format::MDBShardInfo;
use xet_core_structures::shard_in_memory::MDBInMemoryShard;
use xet_core_structures::source::MemorySource;
use xet_core_structures::xorb_structs::MDBXorbInfo;

/// What an operation starts from.
#[derive(Drop)]
pub enum Start {
    /// The bytes of shards.
    Bytes,
    /// Header and footer of the first shard too.
    Loaded(MDBShardInfo),
    /// The first shard in memory.
    InMemory(MDBInMemoryShard),
    /// Both shards in memory.
    BothInMemory(MDBInMemoryShard, MDBInMemoryShard),
}

impl Start {
    /// Reads from the bytes of shards what an operation starts from.
    pub fn of(alloc: Global, operation: Operation, first: &[u8], second: &[u8]) -> Result<Start> {
        Ok(match operation {
            Operation::FindFiles | Operation::SearchFiles | Operation::QueryChunks => {
                Start::Loaded(load_bytes(alloc, first)?)
            }
            Operation::Serialize | Operation::QueryInMemory | Operation::CopyInMemory => {
                Start::InMemory(in_memory(alloc, first)?)
            }
            Operation::UniteInMemory | Operation::SubtractInMemory => {
                let first = in_memory(alloc, first)?;
                Start::BothInMemory(first, in_memory(alloc, second)?)
            }
            _ => Start::Bytes,
        })
    }
}

fn in_memory(alloc: Global, shard: &[u8]) -> Result<MDBInMemoryShard> {
    let mut made = MDBInMemoryShard::new(alloc);
    add_files(alloc, shard, &mut made)?;
    add_xorbs(alloc, shard, &mut made)?;
    Ok(made)
}

/// Adds the files of a shard to one in memory.
pub fn add_files(alloc: Global, shard: &[u8], made: &mut MDBInMemoryShard) -> Result<()> {
    for file in files_of(alloc, shard)? {
        made.add_file_reconstruction_info(alloc, file)?;
    }
    Ok(())
}

/// Adds the xorbs of a shard to one in memory.
pub fn add_xorbs(alloc: Global, shard: &[u8], made: &mut MDBInMemoryShard) -> Result<()> {
    for xorb in xorbs_of(alloc, shard)? {
        made.add_xorb_block(alloc, xorb)?;
    }
    Ok(())
}

/// The files of a shard.
pub fn files_of(alloc: Global, shard: &[u8]) -> Result<Vec<MDBFileInfo>> {
    let info = load_bytes(alloc, shard)?;
    info.read_all_file_info_sections(alloc, &mut MemorySource::new(shard))
}

/// The xorbs of a shard.
pub fn xorbs_of(alloc: Global, shard: &[u8]) -> Result<Vec<MDBXorbInfo>> {
    let info = load_bytes(alloc, shard)?;
    info.read_all_xorb_blocks_full(alloc, &mut MemorySource::new(shard))
}
