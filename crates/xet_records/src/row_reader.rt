//! Reading rows from any input, reader or source.

ghost use Rattle.std.specs.Prelude.{◌*◌, List, MatchResult, IfOk, IfErr, IsTrue, if◌then◌else◌};
ghost use Rattle.xet_records.specs.Rows.{ReadsRow, ReadsRows, ReadsOptional};

use crate::rows::{ROW_SIZE, ROWS_AT_FIRST, Row, Rows};
use std::alloc::Global;
use std::io;
use xet_base::error::Result;
use xet_base::input::ByteInput;

/// Reads a row. `UnexpectedEof` if fewer than 48 bytes are left.
#[inline(always)]
pub fn read_input_row<T: Row, M, I: ByteInput<M>>(input: &mut I) -> io::Result<T>
    ensures { MatchResult result
        (ReadsRow T.row_bytes T.Fits T.as_read (I.reads input.old input.new))
        (I.fill_fails input.old input.new 48) }
{
    let mut bytes = [0u8; ROW_SIZE];
    input.fill(&mut bytes)?;
    Ok(T::from_bytes(&bytes))
}

/// Reads `count` rows. Memory is first taken for as many as `before`, which is how many rows were
/// read of the section before these, or for 16. `UnexpectedEof` if fewer are left. May fail with
/// `OutOfMemory`.
pub fn read_rows<T: Row + Drop, M, I: ByteInput<M>>(
    alloc: Global,
    input: &mut I,
    count: u32,
    before: u64,
) -> Result<Rows<T>>
    ensures { MatchResult result
        (ReadsRows T.row_bytes T.Fits T.as_read (I.reads input.old input.new) count)
        (I.fails input.old input.new (48 * count)) }
{
    let first = before.max(ROWS_AT_FIRST).min(u64::from(count));
    let mut rows = Rows::with_capacity(alloc, first as usize)?;
    for _row in 0..count {
        rows.push(read_input_row(input)?)?;
    }
    Ok(rows)
}

/// Reads past `count` rows. Does not allocate. `UnexpectedEof` if fewer are left.
pub fn skip_rows<T: Row, M, I: ByteInput<M>>(input: &mut I, count: u32) -> Result<()>
    ensures { MatchResult result
        (λ _. (rows : List T)
        × ReadsRows T.row_bytes T.Fits T.as_read (I.reads input.old input.new) count rows)
        (I.fails input.old input.new (48 * count)) }
{
    input.skip(ROW_SIZE as u64 * u64::from(count))
}

/// Reads a row if it is `wanted`. `UnexpectedEof` if it is and fewer than 48 bytes are left.
pub fn read_optional<T: Row, M, I: ByteInput<M>>(
    input: &mut I,
    wanted: bool,
) -> io::Result<Option<T>>
    ensures value { IfOk result
        (ReadsOptional T.row_bytes T.Fits T.as_read (I.reads input.old input.new) wanted) }
    ensures fails { IfErr result
        (I.fill_fails input.old input.new (if wanted then 48 else 0)) }
    ensures touched { IfErr result (λ _. IsTrue wanted) }
{
    if wanted {
        Ok(Some(read_input_row(input)?))
    } else {
        Ok(None)
    }
}
