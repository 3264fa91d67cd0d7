//! Chunk tables with rows of the same first word in any order.

ghost use Rattle.std.specs.Prelude.{◌≡◌, ◌≤◌, ◌+◌, ◌++◌, ◌↔◌, IsTrue, IfOk, IfErr, MatchResult, length};
ghost use Rattle.xet_core_structures.specs.declared.error.CoreError.{CoreError};
ghost use Rattle.xet_shards.specs.Read.TableReading.{FitsTriple, triple_of};
ghost use Rattle.xet_shards.specs.Write.Tables.{chunk_table_row_bytes};
ghost use Rattle.shard_bytes.specs.Checking.{IsReorderedTable, WordsAscend};
ghost use Rattle.shard_bytes.specs.Steps.CheckingSteps.{IsWrittenTable, ReadsRows, IsSortedOf};

use std::alloc::Global;
use xet_core_structures::error::{CoreError, Result};
use xet_core_structures::fields::{split_u32, split_u64};
use xet_core_structures::shard_format::CHUNK_ROW_SIZE;
use xet_core_structures::shard_writer::ChunkTableRow;

/// Whether `found` has the same rows, in any order in which their first words ascend.
pub fn is_reordered(alloc: Global, written: &[u8], found: &[u8]) -> Result<bool>
    requires { IsWrittenTable written.now }
    ensures { MatchResult result
        (λ yes. IsTrue yes ↔ IsReorderedTable written.now found.now)
        (λ e. e ≡ CoreError.OutOfMemory) }
{
    if found.len() != written.len() {
        return Ok(false);
    }
    let found = rows_of(alloc, found)?;
    if !words_ascend(found.as_slice()) {
        return Ok(false);
    }
    let written = rows_of(alloc, written)?;
    let sorted = sort_rows(found);
    Ok(are_equal(sorted.as_slice(), written.as_slice()))
}

// A cut row at the end is left out.
fn rows_of(alloc: Global, table: &[u8]) -> Result<Vec<ChunkTableRow>>
    ensures ok { IfOk result (λ rows. ReadsRows table.now rows.items) }
    ensures causes { IfErr result (λ e. e ≡ CoreError.OutOfMemory) }
{
    let mut rows = Vec::with_capacity(alloc, table.len() / CHUNK_ROW_SIZE)?;
    let mut rest = table;
    while rest.len() >= CHUNK_ROW_SIZE {
        let (row, after) = split_row(rest);
        rows.push(row)?;
        rest = after;
    }
    Ok(rows)
}

fn split_row(bytes: &[u8]) -> (ChunkTableRow, &[u8])
    requires { 16 ≤ length bytes.now }
    ensures bytes { bytes.now ≡ chunk_table_row_bytes result.0 ++ result.1.now }
    ensures len { length result.1.now + 16 ≡ length bytes.now }
    ensures widths { FitsTriple (triple_of result.0) }
{
    let (word, rest) = split_u64(bytes);
    let (row, rest) = split_u32(rest);
    let (index, rest) = split_u32(rest);
    (ChunkTableRow { word, row, index }, rest)
}

fn words_ascend(rows: &[ChunkTableRow]) -> bool
    ensures { IsTrue result ↔ WordsAscend rows.now }
{
    for next in 1..rows.len() {
        if rows[next].word < rows[next - 1].word {
            return false;
        }
    }
    true
}

fn sort_rows(mut rows: Vec<ChunkTableRow>) -> Vec<ChunkTableRow>
    ensures { IsSortedOf rows.items result.items }
{
    rows.sort_unstable();
    rows
}

fn are_equal(first: &[ChunkTableRow], second: &[ChunkTableRow]) -> bool
    ensures { IsTrue result ↔ (first.now ≡ second.now) }
{
    first == second
}
