//! Where the chunks of a shard are.

ghost use Rattle.std.specs.Prelude.{◌≡◌, map, IfOk, IfErr, MatchResult};
ghost use Rattle.xet_core_structures.specs.declared.error.CoreError.{CoreError};
ghost use Rattle.xet_c.specs.Output.{Outcome};
ghost use Rattle.xet_c.specs.ShownParts.{c_chunk_row, AreChunkRows, RefusesRowsOf};

use crate::output::deliver;
use shard_bytes::chunk_rows::chunk_rows;
use std::alloc::Global;
use xet_core_structures::error::{CoreError, Result};

/// A row of a chunk table: the first word of a chunk's hash, the row of the xorb section at which
/// its xorb starts, and its index there.
#[repr(C)]
#[derive(Clone, Copy, Drop)]
pub struct XetChunkRow {
    pub word: u64,
    pub row: u32,
    pub index: u32,
}

/// Puts the rows of the chunk table, or, without one, those of the chunks in the order of the xorb
/// section, to the front of `out`.
#[unsafe(no_mangle)]
pub extern "C" fn xet_chunk_rows(
    alloc: Global,
    shard: &[u8],
    out: &mut [XetChunkRow],
    written: &mut usize,
) -> u32
    ensures { Outcome (AreChunkRows shard.now) (RefusesRowsOf shard.now) out.old out.new
        written.new result }
{
    let rows = rows(alloc, shard);
    deliver(rows, out, written)
}

fn rows(alloc: Global, shard: &[u8]) -> Result<Vec<XetChunkRow>>
    ensures { MatchResult result (λ rows. AreChunkRows shard.now rows.items)
        (RefusesRowsOf shard.now) }
{
    let found = chunk_rows(alloc, shard)?;
    rows_of(alloc, found.as_slice())
}

fn rows_of(alloc: Global, found: &[(u64, (u32, u32))]) -> Result<Vec<XetChunkRow>>
    ensures ok { IfOk result (λ rows. rows.items ≡ map c_chunk_row found.now) }
    ensures causes { IfErr result (λ e. e ≡ CoreError.OutOfMemory) }
{
    let mut rows = Vec::with_capacity(alloc, found.len())?;
    for entry in found {
        rows.push(XetChunkRow {
            word: entry.0,
            row: entry.1.0,
            index: entry.1.1,
        })?;
    }
    Ok(rows)
}
