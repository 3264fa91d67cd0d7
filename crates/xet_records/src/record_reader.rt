//! Reading headers, records and sections from any input, reader or source.
//!
//! The version is a value, `FormatVersion`, beside the input, since the inputs of a union may have
//! different versions. Xorbs are alike in both versions and are read as of version 3.

ghost use Rattle.std.specs.Prelude.{◌≡◌, ◌≤◌, ◌<◌, ◌*◌, ◌-◌, ◌^◌, ◌↔◌, IsTrue, MatchResult, MatchOption};
ghost use Rattle.xet_base.specs.Hash.{all_ones};
ghost use Rattle.xet_records.specs.Limits.{MAX_ROWS};
ghost use Rattle.xet_records.specs.RecordKind.{RecordKind, in_version, KindLaws, IsHeaderRow};
ghost use Rattle.xet_records.specs.Version.{number_of, IsVersion, version_of};
ghost use Rattle.xet_records.specs.Reading.{ReadsRowsAfter, ReadsNextHeader, ReadsNextRecord, NextRecordNotRead, ReadsRecords, StopsAfter};

use crate::row_reader;
use crate::rows::{ROW_LIMIT, Row};
use std::alloc::Global;
use xet_base::error::{CoreError, Result};
use xet_base::input::ByteInput;
use xet_base::merklehash::MerkleHash;

/// The most rows that a record read by itself may have, its header included: the rows after it fit
/// `u32`.
pub const MAX_ROWS_OF_RECORD: u64 = 1 << 32;

/// A version of the format that is read. Xorb sections are alike in both.
#[derive(Clone, Copy, Debug, PartialEq, Eq)]
pub enum FormatVersion {
    /// Files have no auxiliary row.
    V2,
    /// Files may have an auxiliary row.
    V3,
}

impl FormatVersion {
    /// The version with this number, or `None` if it is not read.
    pub fn of_number(number: u64) -> Option<FormatVersion>
        ensures { MatchOption result (¬ IsVersion number) (λ version. number ≡ number_of version) }
    {
        match number {
            2 => Some(FormatVersion::V2),
            3 => Some(FormatVersion::V3),
            _ => None,
        }
    }

    /// The version in which sections are read under a header with this number: 2, or else 3. A
    /// header that was read has one of the two; any other number is that of a header made by hand.
    pub fn of_header(number: u64) -> FormatVersion
        ensures { result ≡ version_of number }
    {
        if number == 2 {
            FormatVersion::V2
        } else {
            FormatVersion::V3
        }
    }

    /// The number of the version.
    pub fn number(self) -> u64
        ensures { result ≡ number_of self }
    {
        match self {
            FormatVersion::V2 => 2,
            FormatVersion::V3 => 3,
        }
    }
}

/// A record of a section, of files or of xorbs: a header row, and the rows that it announces.
pub trait SectionRecord {
    type Header: Row;

    /// What reading past a record keeps of the rows after its header.
    type SkipValue: Copy;

    ghost kind: { RecordKind Self.Header Self };

    ghost kept: { Self → Self.SkipValue };

    /// The hash of the file or xorb.
    fn hash(header: &Self::Header) -> MerkleHash
        ensures { result ≡ kind.hash_of header.now };

    /// Whether the header ends a section.
    fn is_bookend(header: &Self::Header) -> bool
        ensures { IsTrue result ↔ (kind.hash_of header.now ≡ all_ones) };

    /// The number of rows after the header.
    fn rows_after(header: &Self::Header) -> u64
        ensures rows { result ≡ kind.rows_after header.now }
        ensures bound { result ≤ 2 ^ 33 };

    /// Whether the header is new in version 3, so that a reader of version 2 refuses it.
    fn is_new(header: &Self::Header) -> bool
        ensures { result ≡ kind.is_new header.now };

    /// Reads the rows that the header announces. Memory is first taken for as many as `before`,
    /// which is how many rows were read of the section before the record, or for 16.
    /// `UnexpectedEof` if fewer are left. May fail with `OutOfMemory`.
    fn read_rows_after<M, I: ByteInput<M>>(
        alloc: Global,
        input: &mut I,
        header: Self::Header,
        before: u64,
    ) -> Result<Self>
        ensures { MatchResult result (ReadsRowsAfter kind header (I.reads input.old input.new))
            (I.fails input.old input.new (48 * kind.rows_after header)) };

    /// Reads past the rows that the header announces. Does not allocate. `UnexpectedEof` if fewer
    /// are left.
    fn skip_rows_after<M, I: ByteInput<M>>(
        input: &mut I,
        header: Self::Header,
    ) -> Result<Self::SkipValue>
        ensures { MatchResult result
            (λ value. (skipped : Self) × (kept skipped ≡ value)
            × ReadsRowsAfter kind header (I.reads input.old input.new) skipped)
            (I.fails input.old input.new (48 * kind.rows_after header)) };

    /// Does nothing. It says what holds of every kind of records.
    fn laws()
        ensures { KindLaws kind };

    ghost header_row: { IsHeaderRow kind Self.Header.row_bytes Self.Header.Fits
        Self.Header.as_read };
}

/// Reads the header of the next record of a section, or `None` at its bookend, and counts the
/// record's rows down from `rows_left`.
///
/// `UnexpectedEof` if fewer than 48 bytes are left, `InvalidShard` if the version does not have
/// such a header, or the record has more rows than `rows_left`.
#[inline(always)]
pub fn read_header<R: SectionRecord, M, I: ByteInput<M>>(
    alloc: Global,
    input: &mut I,
    version: FormatVersion,
    rows_left: &mut u64,
) -> Result<Option<R::Header>>
    ensures { MatchResult result
        (ReadsNextHeader (in_version R.kind version) (I.reads input.old input.new) rows_left.old
        rows_left.new)
        (NextRecordNotRead (in_version R.kind version) I.reads I.fails rows_left.old input.old input.new) }
{
    let header: R::Header = row_reader::read_input_row(input)?;
    if R::is_bookend(&header) {
        return Ok(None);
    }
    if refuses::<R>(version, &header) {
        return Err(CoreError::InvalidShard(String::new(alloc)));
    }
    let rows = 1 + R::rows_after(&header);
    if rows > *rows_left {
        return Err(CoreError::InvalidShard(String::new(alloc)));
    }
    *rows_left -= rows;
    Ok(Some(header))
}

// Whether a reader of this version refuses the header.
#[inline(always)]
fn refuses<R: SectionRecord>(version: FormatVersion, header: &R::Header) -> bool
    ensures { result ≡ (in_version R.kind version).refuses header.now }
{
    match version {
        FormatVersion::V2 => R::is_new(header),
        FormatVersion::V3 => false,
    }
}

/// Reads the next record of a section, or `None` at its bookend, and counts the record's rows down
/// from `rows_left`.
///
/// `UnexpectedEof` if too few bytes are left, `InvalidShard` if the version does not have such a
/// header, or the record has more rows than `rows_left`. May fail with `OutOfMemory`.
#[inline(always)]
pub fn read_record<R: SectionRecord, M, I: ByteInput<M>>(
    alloc: Global,
    input: &mut I,
    version: FormatVersion,
    rows_left: &mut u64,
) -> Result<Option<R>>
    requires { rows_left.old ≤ 4294967296 }
    ensures { MatchResult result
        (ReadsNextRecord (in_version R.kind version) (I.reads input.old input.new) rows_left.old
        rows_left.new)
        (NextRecordNotRead (in_version R.kind version) I.reads I.fails rows_left.old input.old input.new) }
{
    R::laws();
    let before = rows_before(*rows_left);
    let Some(header) = read_header::<R, M, I>(alloc, input, version, rows_left)? else {
        return Ok(None);
    };
    Ok(Some(R::read_rows_after(alloc, input, header, before)?))
}

/// How many rows were read of a section that may still have `rows_left`; 0 for a record that is
/// read by itself.
pub fn rows_before(rows_left: u64) -> u64
    ensures { result ≡ MAX_ROWS - rows_left }
{
    ROW_LIMIT.saturating_sub(rows_left)
}

/// Reads the records of a section up to its bookend.
///
/// `UnexpectedEof` if the input ends before the bookend, `InvalidShard` if the version does not
/// have a header, or the rows pass 4294967295. May fail with `OutOfMemory`.
pub fn read_section<R: SectionRecord + Drop, M, I: ByteInput<M>>(
    alloc: Global,
    input: &mut I,
    version: FormatVersion,
) -> Result<Vec<R>>
    ensures { MatchResult result
        (λ found. ReadsRecords (in_version R.kind version) I.reads input.old input.new found.items)
        (StopsAfter (in_version R.kind version) I.reads I.fails input.old input.new) }
{
    R::laws();
    let mut records = Vec::new(alloc);
    let mut rows_left = ROW_LIMIT;
    while let Some(next) = read_record(alloc, input, version, &mut rows_left)? {
        records.push(next)?;
    }
    Ok(records)
}
