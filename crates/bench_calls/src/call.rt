//! One call of an operation.

ghost use Rattle.std.specs.Prelude.{List, ℕ, IfOk};
ghost use Rattle.xet_core_structures.specs.declared.record_reader.FormatVersion.TheVariants.{V3};
ghost use Rattle.shard_bytes.specs.Combining.{CombinesTo};
ghost use Rattle.shard_bytes.specs.Versions.{IsWrittenIn};
ghost use Rattle.bench_calls.specs.Answers.{AreBytesOf, IsAnswerOf};

use crate::answer::{Answer, shard_to_bytes};
use crate::counts::{
    chunks_found, chunks_found_in_memory, files_added, files_found, minimal_records, rows_found,
    xorbs_added,
};
use crate::operation::Operation;
use crate::start::{Start, files_of, xorbs_of};
use shard_bytes::combine::{Operation as Combination, combine_bytes};
use shard_bytes::export::{Export, ExportParts, export_bytes};
use shard_bytes::minimal::minimal_bytes;
use std::alloc::Global;
use xet_core_structures::error::{CoreError, Result};
use xet_core_structures::file_structs::KeptParts;
use xet_core_structures::merklehash::{HMACKey, MerkleHash};
use xet_core_structures::record_reader::FormatVersion;
use xet_core_structures::shard_format::MDBShardInfo;
use xet_core_structures::shard_in_memory::MDBInMemoryShard;

/// What an operation is done on: the bytes of shards, and the files to look up, the chunks to query
/// or the key.
#[derive(Clone, Copy)]
pub struct Call<'a> {
    pub alloc: Global,
    pub first: &'a [u8],
    pub second: &'a [u8],
    pub hashes: &'a [MerkleHash],
    pub key: HMACKey,
}

impl Call<'_> {
    /// Does an operation once. `InvalidArguments` if it starts from something else, or has a loop of
    /// its own: `Load`, `FindFilesInBytes`, `Hmac`.
    pub fn make(&self, operation: Operation, start: &Start) -> Result<Answer>
        ensures { IfOk result
            (IsAnswerOf operation self.now.first.now self.now.second.now self.now.key) }
    {
        match start {
            Start::Bytes => self.on_bytes(operation),
            Start::Loaded(info) => self.look_up(operation, info),
            Start::InMemory(shard) => self.in_memory(operation, shard),
            Start::BothInMemory(first, second) => self.in_both(operation, first, second),
        }
    }

    fn on_bytes(&self, operation: Operation) -> Result<Answer>
        ensures { IfOk result
            (IsAnswerOf operation self.now.first.now self.now.second.now self.now.key) }
    {
        let alloc = self.alloc;
        let shard = self.first;
        match operation {
            Operation::ReadMinimal => Ok(Answer::Count(minimal_records(alloc, shard)?)),
            Operation::ReadFiles => Ok(Answer::Count(files_of(alloc, shard)?.len() as u64)),
            Operation::ReadXorbs => Ok(Answer::Count(xorbs_of(alloc, shard)?.len() as u64)),
            Operation::AddFiles => Ok(Answer::Count(files_added(alloc, shard)?)),
            Operation::AddXorbs => Ok(Answer::Count(xorbs_added(alloc, shard)?)),
            Operation::Union => self.combine(Combination::Union),
            Operation::Difference => self.combine(Combination::Difference),
            Operation::Export => self.export(),
            Operation::WriteMinimal => self.write_minimal(),
            _ => Err(CoreError::InvalidArguments),
        }
    }

    fn combine(&self, combination: Combination) -> Result<Answer>
        ensures { IfOk result (λ answer. (bytes : List ℕ) → AreBytesOf answer bytes
            → IsWrittenIn V3 (CombinesTo combination self.now.first.now self.now.second.now) bytes) }
    {
        let bytes = combine_bytes(
            self.alloc,
            combination,
            self.first,
            self.second,
            FormatVersion::V3,
        )?;
        Ok(Answer::Bytes(bytes))
    }

    // Writes the first shard with keyed chunk hashes, with files and all tables, created at 0.
    fn export(&self) -> Result<Answer>
        ensures { IfOk result
            (IsAnswerOf Operation.Export self.now.first.now self.now.second.now self.now.key) }
    {
        let export = Export {
            key: self.key,
            now: 0,
            valid_seconds: 1000,
            parts: ExportParts {
                files: true,
                aux_ext: true,
                xorb_table: true,
                chunk_table: true,
            },
        };
        Ok(Answer::Bytes(export_bytes(self.alloc, self.first, &export, FormatVersion::V3)?))
    }

    // Writes the first shard's minimal shard, with all rows, created at 0.
    fn write_minimal(&self) -> Result<Answer>
        ensures { IfOk result
            (IsAnswerOf Operation.WriteMinimal self.now.first.now self.now.second.now self.now.key) }
    {
        let kept = KeptParts {
            verification: true,
            aux_ext: true,
        };
        Ok(Answer::Bytes(minimal_bytes(self.alloc, self.first, 0, kept, FormatVersion::V3)?))
    }

    fn look_up(&self, operation: Operation, info: &MDBShardInfo) -> Result<Answer>
        ensures { IfOk result
            (IsAnswerOf operation self.now.first.now self.now.second.now self.now.key) }
    {
        let alloc = self.alloc;
        let shard = self.first;
        match operation {
            Operation::FindFiles => {
                Ok(Answer::Count(files_found(alloc, info, shard, self.hashes)?))
            }
            Operation::SearchFiles => {
                Ok(Answer::Count(rows_found(alloc, info, shard, self.hashes)?))
            }
            Operation::QueryChunks => {
                Ok(Answer::Count(chunks_found(alloc, info, shard, self.hashes)?))
            }
            _ => Err(CoreError::InvalidArguments),
        }
    }

    fn in_memory(&self, operation: Operation, shard: &MDBInMemoryShard) -> Result<Answer>
        ensures { IfOk result
            (IsAnswerOf operation self.now.first.now self.now.second.now self.now.key) }
    {
        match operation {
            Operation::Serialize => Ok(Answer::Bytes(shard_to_bytes(self.alloc, shard)?)),
            Operation::CopyInMemory => Ok(Answer::Shard(shard.try_clone(self.alloc)?)),
            Operation::QueryInMemory => {
                Ok(Answer::Count(chunks_found_in_memory(shard, self.hashes)))
            }
            _ => Err(CoreError::InvalidArguments),
        }
    }

    fn in_both(
        &self,
        operation: Operation,
        first: &MDBInMemoryShard,
        second: &MDBInMemoryShard,
    ) -> Result<Answer>
        ensures { IfOk result
            (IsAnswerOf operation self.now.first.now self.now.second.now self.now.key) }
    {
        match operation {
            Operation::UniteInMemory => Ok(Answer::Shard(first.union(self.alloc, second)?)),
            Operation::SubtractInMemory => Ok(Answer::Shard(first.difference(self.alloc, second)?)),
            _ => Err(CoreError::InvalidArguments),
        }
    }
}
