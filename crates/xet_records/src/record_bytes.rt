//! What views of files and xorbs share: the bytes of one record, and the rows in them.

ghost use Rattle.std.specs.Prelude.{◌≡◌, ◌+◌, ◌*◌, ◌<◌, ◌≤◌, List, length, take, drop, MatchResult, IfOk, IfErr, IsTrue, ◌↔◌};
ghost use Rattle.std.specs.IoError.{error_kind};
ghost use Rattle.xet_records.specs.Rows.{ReadsRow, ReadsRows};

use crate::rows::{ROW_SIZE, Row, Rows};
use bytes::Bytes;
use std::alloc::Global;
use std::io;
use std::io::ErrorKind;
use xet_base::error::{CoreError, Result};

/// Cuts bytes to a header and `rows_after` rows. `UnexpectedEof` if there are fewer bytes.
pub fn cut(mut bytes: Bytes, rows_after: u32) -> io::Result<Bytes>
    ensures { MatchResult result
        (λ cut. (48 + 48 * rows_after ≤ length bytes) × (cut ≡ take (48 + 48 * rows_after) bytes))
        (λ e. (error_kind e ≡ ErrorKind.UnexpectedEof) × (length bytes < 48 + 48 * rows_after)) }
{
    let size = ROW_SIZE + ROW_SIZE * rows_after as usize;
    if bytes.len() < size {
        return Err(io::Error::from(ErrorKind::UnexpectedEof));
    }
    bytes.truncate(size);
    Ok(bytes)
}

/// The row that bytes begin with. `UnexpectedEof` if there are fewer than 48.
pub fn first_row<T: Row>(bytes: &[u8]) -> io::Result<T>
    ensures { MatchResult result
        (ReadsRow T.row_bytes T.Fits T.as_read
        (λ row. (48 ≤ length bytes.now) × (row ≡ take 48 bytes.now)))
        (λ e. (error_kind e ≡ ErrorKind.UnexpectedEof) × (length bytes.now < 48)) }
{
    if bytes.len() < ROW_SIZE {
        return Err(io::Error::from(ErrorKind::UnexpectedEof));
    }
    Ok(row(bytes, 0))
}

/// Whether bytes begin with this row. `UnexpectedEof` if there are fewer than 48.
pub fn begins_with<T: Row>(bytes: &[u8], row: &T) -> io::Result<bool>
    ensures { MatchResult result
        (λ begins. (48 ≤ length bytes.now)
        × (IsTrue begins ↔ (take 48 bytes.now ≡ T.row_bytes row.now)))
        (λ e. (error_kind e ≡ ErrorKind.UnexpectedEof) × (length bytes.now < 48)) }
{
    if bytes.len() < ROW_SIZE {
        return Err(io::Error::from(ErrorKind::UnexpectedEof));
    }
    let row = row.to_bytes();
    Ok(part(bytes, 0, 1) == row.as_slice())
}

/// The row at an index, counted from the header on. Requires that it is there.
pub fn row<T: Row>(bytes: &[u8], index: usize) -> T
    requires { 48 * index + 48 ≤ length bytes.now }
    ensures { ReadsRow T.row_bytes T.Fits T.as_read
        (λ row. row ≡ take 48 (drop (48 * index) bytes.now)) result }
{
    let mut row = [0u8; ROW_SIZE];
    row.copy_from_slice(part(bytes, index, 1));
    T::from_bytes(&row)
}

/// The bytes of `count` rows from row `start` on. Requires that they are there.
pub fn part(bytes: &[u8], start: usize, count: usize) -> &[u8]
    requires { 48 * start + 48 * count ≤ length bytes.now }
    ensures bytes { result.now ≡ take (48 * count) (drop (48 * start) bytes.now) }
    ensures len { length result.now ≡ 48 * count }
{
    let start = ROW_SIZE * start;
    let end = start + ROW_SIZE * count;
    &bytes[start..end]
}

/// `count` rows from row `start` on. Requires that they are there. `OutOfMemory` is the only error.
pub fn rows<T: Row + Drop>(
    alloc: Global,
    bytes: &[u8],
    start: usize,
    count: usize,
) -> Result<Rows<T>>
    requires { 48 * start + 48 * count ≤ length bytes.now }
    ensures ok { IfOk result
        (ReadsRows T.row_bytes T.Fits T.as_read
        (λ rows. rows ≡ take (48 * count) (drop (48 * start) bytes.now)) count) }
    ensures causes { IfErr result (λ e. e ≡ CoreError.OutOfMemory) }
{
    let mut rows = Rows::new(alloc);
    for i in 0..count {
        rows.push(row(bytes, start + i))?;
    }
    Ok(rows)
}
