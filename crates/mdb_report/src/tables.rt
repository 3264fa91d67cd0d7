//! Whether a shard has the tables for lookups.

ghost use Rattle.std.specs.Prelude.{◌≡◌, true, false, All, IfOk, IfErr};
ghost use Rattle.mdb_report.specs.FileReports.{FilesNotRead};
ghost use Rattle.mdb_report.specs.LookupTables.{LacksFileTable, HasFileTable, LacksChunkTable, HasChunkTable, XorbsNotRead, HaveChunks, HasNoChunks};

use crate::files::read_files;
use shard_bytes::load::load_bytes;
use std::alloc::Global;
use std::fmt;
use xet_core_structures::error::Result;
use xet_core_structures::shard_format::MDBShardInfo;
use xet_core_structures::source::MemorySource;
use xet_core_structures::xorb_structs::XorbChunkSequenceHeader;

/// A table of a shard.
#[derive(Clone, Copy)]
pub enum Table {
    Files,
    Xorbs,
    Chunks,
}

impl fmt::Display for Table {
    fn fmt<W: fmt::Write>(&self, f: &mut fmt::Formatter<W>) -> fmt::Result {
        f.write_str(match self {
            Table::Files => "file table",
            Table::Xorbs => "xorb table",
            Table::Chunks => "chunk table",
        })
    }
}

/// Whether a shard has files, but no rows in its file table.
///
/// Fails as [`load_bytes`], or as reading the file section.
pub fn lacks_file_table(alloc: Global, bytes: &[u8]) -> Result<bool>
    ensures lacks { IfOk result (λ lacks. lacks ≡ true → LacksFileTable bytes.now) }
    ensures has { IfOk result (λ lacks. lacks ≡ false → HasFileTable bytes.now) }
    ensures refused { IfErr result (FilesNotRead bytes.now) }
{
    let info = load_bytes(alloc, bytes)?;
    if info.metadata.file_lookup_num_entry != 0 {
        return Ok(false);
    }
    let files = read_files(alloc, bytes)?;
    Ok(!files.is_empty())
}

/// Whether a shard has chunks, but no rows in its chunk table.
///
/// Fails as [`load_bytes`], or as reading the xorb section.
pub fn lacks_chunk_table(alloc: Global, bytes: &[u8]) -> Result<bool>
    ensures lacks { IfOk result (λ lacks. lacks ≡ true → LacksChunkTable bytes.now) }
    ensures has { IfOk result (λ lacks. lacks ≡ false → HasChunkTable bytes.now) }
    ensures refused { IfErr result (XorbsNotRead bytes.now) }
{
    let mut source = MemorySource::new(bytes);
    let info = MDBShardInfo::load_from_reader(alloc, &mut source)?;
    if info.metadata.chunk_lookup_num_entry != 0 {
        return Ok(false);
    }
    let xorbs = info.read_all_xorb_blocks(alloc, &mut source)?;
    Ok(any_has_chunks(xorbs.as_slice()))
}

fn any_has_chunks(xorbs: &[(XorbChunkSequenceHeader, u64)]) -> bool
    ensures some { result ≡ true → HaveChunks xorbs.now }
    ensures none { result ≡ false → All HasNoChunks xorbs.now }
{
    for (header, _) in xorbs {
        if header.num_entries != 0 {
            return true;
        }
    }
    false
}
