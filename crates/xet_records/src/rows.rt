//! Lists of rows, and what all rows share: 48 bytes, written and read as a whole.

ghost use Rattle.std.specs.Prelude.{◌≡◌, ℕ, ◌+◌, ◌*◌, ◌<◌, ◌≤◌, List, [], ◌∷◌, ◌++◌, length, map, flat_map, All, OnOk, OnErr, IfOk, IfErr, IsTrue, ◌↔◌, Option, is_some, IfSome, option_map, option_to_list, if◌then◌else◌};
ghost use Rattle.std.specs.Io.KnownBytes.{Appends, Consumes};
ghost use Rattle.xet_records.specs.Rows.{Spells, ReadsRow, ReadsRows, ReadsOptional};
ghost use Rattle.xet_base.specs.Bytes.{HasBytes, LacksBytes, AreBytes};
ghost use Rattle.xet_base.specs.Input.{ReaderLacks};
ghost use Rattle.xet_base.specs.Errors.{IsEndOfInput, IsDeviceError, IsNoEnd};

use crate::row_reader;
use std::alloc::{AllocError, AllocFailed, Global};
use std::io;
use std::io::{Read, Write};
use std::marker::Model;
use std::ops::DerefSlice;
use xet_base::error::Result;
use xet_base::input::OfReader;
use xet_base::serialization_utils::write_bytes;

/// The size of a row in bytes.
pub const ROW_SIZE: usize = 48;

/// The size of a row of the file table or the xorb table, in bytes.
pub const START_ROW_SIZE: usize = 12;

/// The size of a row of the chunk table, in bytes.
pub const CHUNK_ROW_SIZE: usize = 16;

/// The size of a shard without records, in bytes: a header, two bookends and a footer.
pub const EMPTY_SIZE: u64 = 344;

/// The most rows that a section may have.
pub const ROW_LIMIT: u64 = u32::MAX as u64;

/// The most rows that memory is taken for before any is read, whatever a header announces. Lists
/// grow by what was read.
pub const ROWS_AT_FIRST: u64 = 16;

/// A list of rows, which contracts see as a list. Converting from and into a `Vec` does not
/// allocate.
#[derive(Debug, Drop)]
pub struct Rows<T> {
    items: Vec<T>,
}

impl<T> Model for Rows<T> {
    ghost use Rattle.std.specs.Prelude.{List};
    ghost use Rattle.std.specs.Coded.{coded_list};

    ghost Value = { List T };

    ghost coded = { coded_list T.code };

    ghost view = { λ rows. rows.items.items };
}

impl<T> From<Vec<T>> for Rows<T> {
    ghost from_gives = { λ items rows. rows ≡ items.items };

    fn from(items: Vec<T>) -> Rows<T> {
        Rows { items }
    }
}

/// The rows as a slice: `rows[i]`, `rows.iter()`, `for row in &*rows`.
impl<T> DerefSlice for Rows<T> {
    type Elem = T;

    ghost deref_gives = { λ rows items. items ≡ rows };

    fn deref(&self) -> &[T] {
        self.items.as_slice()
    }
}

impl<T> Rows<T> {
    /// The empty list. Does not allocate.
    pub fn new(alloc: Global) -> Rows<T>
        ensures { result ≡ [] }
    {
        Rows {
            items: Vec::new(alloc),
        }
    }

    /// The empty list, with memory for so many rows. `AllocError` if there are any, and it fails to
    /// allocate.
    pub fn with_capacity(alloc: Global, rows: usize) -> std::result::Result<Rows<T>, AllocError>
        ensures empty { IfOk result (λ made. made ≡ []) }
        ensures some { IfErr result (λ _. 0 < rows) }
    {
        let items = Vec::with_capacity(alloc, rows)?;
        Ok(Rows { items })
    }

    /// The number of rows.
    pub fn len(&self) -> usize
        ensures { result ≡ length self.now }
    {
        self.items.len()
    }

    /// Whether there is no row.
    pub fn is_empty(&self) -> bool
        ensures { IsTrue result ↔ (self.now ≡ []) }
    {
        self.items.is_empty()
    }

    /// The rows in order.
    pub fn as_slice(&self) -> &[T]
        ensures { result.now ≡ self.now }
    {
        self.items.as_slice()
    }

    /// The rows as the `Vec` that they were made from.
    pub fn into_vec(self) -> Vec<T>
        ensures { result.items ≡ self }
    {
        self.items
    }

    /// Appends a row. If the allocation fails, the row is handed back and the list is unchanged.
    pub fn push(&mut self, row: T) -> std::result::Result<(), AllocFailed<T>>
        ensures ok { OnOk result (self.new ≡ self.old ++ row ∷ []) }
        ensures err { OnErr result (self.new ≡ self.old) }
    {
        self.items.push(row)
    }
}

impl<T: Copy> Rows<T> {
    /// A copy of the list, or `AllocError` if it fails to allocate.
    pub fn try_clone(&self, alloc: Global) -> std::result::Result<Rows<T>, AllocError>
        ensures { IfOk result (λ copy. copy ≡ self.now) }
    {
        let items = Vec::from_slice(alloc, self.items.as_slice())?;
        Ok(Rows { items })
    }
}

impl<T: Copy> Clone for Rows<T> {
    ghost is_clone = { λ rows copy. copy ≡ rows };

    fn clone(&self) -> std::result::Result<Rows<T>, AllocError> {
        self.try_clone(*self.items.allocator())
    }
}

impl<T: PartialEq> PartialEq for Rows<T> {
    ghost use Rattle.std.specs.Cmp.Lexicographic.{pointwise, lists_per};

    ghost eq = { pointwise T.eq };

    ghost laws = { lists_per T.laws };

    fn eq(&self, other: &Rows<T>) -> bool {
        self.items == other.items
    }
}

/// A row of a shard. What a row stores and what reading returns differ in the reserved words that
/// reading drops.
pub trait Row: Copy {
    ghost row_bytes: { Self → List ℕ };

    ghost Fits: { Self → Type 0 };

    ghost as_read: { Self → Self };

    // the row that bytes begin with
    ghost row_at: { List ℕ → Self };

    /// The bytes of the row.
    fn to_bytes(&self) -> [u8; ROW_SIZE]
        ensures { result ≡ row_bytes self.now };

    /// The row with these bytes, as reading returns it.
    fn from_bytes(bytes: &[u8; ROW_SIZE]) -> Self
        ensures { (stored : Self) × Fits stored × (row_bytes stored ≡ bytes.now) ×
            (as_read stored ≡ result) };

    /// Does nothing. It says that the numbers of a row in memory fit their widths.
    fn widths(self)
        ensures { Fits self };

    ghost spelled: { (bytes : List ℕ) → AreBytes bytes → 48 ≤ length bytes
        → Spells row_bytes Fits bytes (row_at bytes) };
}

/// Does nothing. It says that the numbers of rows in memory fit their widths.
pub fn all_widths<T: Row>(rows: &Rows<T>)
    ensures { All T.Fits rows.now }
{
    for row in rows.as_slice() {
        (*row).widths();
    }
}

/// Appends a row. The error is the writer's.
#[inline(always)]
pub fn write_row<T: Row, W: Write>(row: &T, writer: &mut W) -> io::Result<()>
    ensures bytes { OnOk result
        (Appends (W.contents writer.old) (W.contents writer.new) (T.row_bytes row.now)) }
    ensures causes { IfErr result IsNoEnd }
{
    write_bytes(writer, &row.to_bytes())
}

/// Appends rows in order. The error is the writer's.
pub fn write_rows<T: Row, W: Write>(rows: &Rows<T>, writer: &mut W) -> io::Result<()>
    ensures bytes { OnOk result
        (Appends (W.contents writer.old) (W.contents writer.new) (flat_map T.row_bytes rows.now)) }
    ensures causes { IfErr result IsNoEnd }
{
    for row in rows.as_slice() {
        write_row(row, writer)?;
    }
    Ok(())
}

/// Appends the row, if there is one. The error is the writer's.
pub fn write_optional<T: Row, W: Write>(row: &Option<T>, writer: &mut W) -> io::Result<()>
    ensures bytes { OnOk result
        (Appends (W.contents writer.old) (W.contents writer.new)
        (flat_map T.row_bytes (option_to_list row.now))) }
    ensures touched { IfErr result (λ _. IsTrue (is_some row.now)) }
    ensures causes { IfErr result IsNoEnd }
{
    if let Some(row) = row {
        write_row(row, writer)?;
    }
    Ok(())
}

/// Reads a row. `UnexpectedEof` if fewer than 48 bytes are left.
pub fn read_row<T: Row, R: Read>(reader: &mut R) -> io::Result<T>
    ensures value { IfOk result
        (ReadsRow T.row_bytes T.Fits T.as_read
        (Consumes (R.remaining reader.old) (R.remaining reader.new))) }
    ensures enough { OnOk result (HasBytes (R.remaining reader.old) 48) }
    ensures end { IfErr result
        (ReaderLacks (R.remaining reader.old) 48) }
{
    row_reader::read_input_row::<T, OfReader, R>(reader)
}
