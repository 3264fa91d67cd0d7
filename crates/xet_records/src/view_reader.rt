//! Reading views of the records of a section from any input, reader or source.

ghost use Rattle.std.specs.Prelude.{◌≡◌, ◌⊎◌, ℕ, ◌+◌, ◌*◌, ◌≤◌, List, ◌++◌, length, MatchResult};
ghost use Rattle.xet_base.specs.declared.error.CoreError.TheVariants.{OutOfMemory};
ghost use Rattle.xet_records.specs.Processing.{ProcessesSection, RefusesRecord, StopsReading};
ghost use Rattle.xet_records.specs.Reading.{NextRecordNotRead};
ghost use Rattle.xet_records.specs.RecordKind.{in_version};
ghost use Rattle.xet_records.specs.View.{BeginsWithHeaderRow, ShowsRecord};
ghost use Rattle.xet_records.specs.ViewReading.{ReadsNextView};
ghost use Rattle.xet_records.specs.Steps.ViewReadingSteps.{AddsRows, LacksMemory};
ghost use Rattle.xet_records.specs.Limits.{MAX_ROWS};

use crate::record_reader::{FormatVersion, SectionRecord, read_header, rows_before};
use crate::rows::{ROW_LIMIT, ROW_SIZE, ROWS_AT_FIRST, Row};
use bytes::{Bytes, BytesMut};
use std::alloc::Global;
use xet_base::error::Result;
use xet_base::input::ByteInput;

// The most rows that are read at once.
const ROWS_AT_ONCE: u64 = 1024;

/// A view of a record of a section.
pub trait RecordView<R: SectionRecord> {
    ghost shown: { Self → R };

    /// The view of the record with this header that the bytes are, no more and no fewer.
    fn of_bytes(header: R::Header, bytes: Bytes) -> Self
        requires begins { BeginsWithHeaderRow R.kind bytes header }
        requires few { R.kind.rows_after header ≤ MAX_ROWS }
        requires size { length bytes ≡ 48 + 48 * R.kind.rows_after header }
        ensures { ShowsRecord R.kind header bytes (shown result) };
}

/// Reads a view of the next record of a section, or `None` at its bookend, and counts the record's
/// rows down from `rows_left`. The bytes are read into `buffer`, whose own bytes are dropped: views
/// that are read with one buffer share its blocks, and a block whose views are gone is used again.
///
/// `UnexpectedEof` if too few bytes are left, `InvalidShard` if the version does not have such a
/// header, or the record has more rows than `rows_left`. May fail with `OutOfMemory`.
pub fn read_view<R: SectionRecord, V: RecordView<R>, M, I: ByteInput<M>>(
    alloc: Global,
    buffer: &mut BytesMut,
    input: &mut I,
    version: FormatVersion,
    rows_left: &mut u64,
) -> Result<Option<V>>
    requires { rows_left.old ≤ 4294967296 }
    ensures { MatchResult result
        (ReadsNextView (in_version R.kind version) V.shown (I.reads input.old input.new)
        rows_left.old rows_left.new)
        (NextRecordNotRead (in_version R.kind version) I.reads I.fails rows_left.old input.old input.new) }
{
    R::laws();
    let before = rows_before(*rows_left);
    let Some(header) = read_header::<R, M, I>(alloc, input, version, rows_left)? else {
        return Ok(None);
    };
    let count = R::rows_after(&header);
    let bytes = read_row_bytes(buffer, input, &header.to_bytes(), count, before)?;
    Ok(Some(V::of_bytes(header, bytes)))
}

// These 48 bytes, and those of `count` rows that are read after them. Of these as many are read at
// once, and have memory reserved, as `before` and the rows so far are, or 16.
fn read_row_bytes<M, I: ByteInput<M>>(
    buffer: &mut BytesMut,
    input: &mut I,
    first: &[u8],
    count: u64,
    before: u64,
) -> Result<Bytes>
    ensures { MatchResult result
        (λ bytes. AddsRows (I.reads input.old input.new) count first.now bytes)
        (λ e. I.fails input.old input.new (48 * count) e
        ⊎ LacksMemory (I.reads input.old input.new) count e) }
{
    buffer.clear();
    buffer.reserve(ROW_SIZE)?;
    buffer.extend_from_slice(first)?;
    let mut done = 0;
    while done < count {
        let most = before.saturating_add(done).max(ROWS_AT_FIRST);
        let rows = (count - done).min(most).min(ROWS_AT_ONCE);
        append_rows(buffer, input, rows)?;
        done += rows;
    }
    let size = buffer.len();
    Ok(buffer.freeze_to(size)?)
}

// Appends the bytes of rows that are read at once. Memory is reserved before they are read.
fn append_rows<M, I: ByteInput<M>>(buffer: &mut BytesMut, input: &mut I, rows: u64) -> Result<()>
    requires { rows ≤ 1024 }
    ensures { MatchResult result
        (λ _. AddsRows (I.reads input.old input.new) rows buffer.old.items buffer.new.items)
        (λ e. I.fails input.old input.new (48 * rows) e
        ⊎ LacksMemory (I.reads input.old input.new) rows e) }
{
    let start = buffer.len();
    let size = ROW_SIZE * rows as usize;
    buffer.reserve(size)?;
    buffer.advance_mut(size);
    input.fill(&mut buffer.as_mut_slice()[start..])?;
    Ok(())
}

/// Calls `callback` with a view of each record of a section, in order, until a call fails or the
/// bookend is read. The error is that of the call, or of reading: `UnexpectedEof` if the input ends
/// before the bookend, `InvalidShard` if the version does not have a header, or the rows pass
/// 4294967295, `OutOfMemory`.
pub fn process_section<
    R: SectionRecord,
    V: RecordView<R>,
    M,
    I: ByteInput<M>,
    F: FnMut(V) -> Result<()>,
>(alloc: Global, input: &mut I, version: FormatVersion, callback: &mut F) -> Result<()>
    requires { F.IsAlwaysCallable callback.old }
    ensures calls { MatchResult result
        (λ _. ProcessesSection (in_version R.kind version) V.shown I.reads I.fails F.step input.old
        input.new callback.old callback.new)
        (λ e. RefusesRecord (in_version R.kind version) V.shown I.reads I.fails F.step input.old
        input.new callback.old callback.new e
        ⊎ StopsReading (in_version R.kind version) V.shown I.reads I.fails F.step input.old
        input.new callback.old callback.new e) }
    ensures callable { F.IsAlwaysCallable callback.new }
{
    R::laws();
    let mut buffer = BytesMut::new(alloc);
    let mut rows_left = ROW_LIMIT;
    while let Some(view) = read_view::<R, V, M, I>(
        alloc,
        &mut buffer,
        input,
        version,
        &mut rows_left,
    )? {
        callback(view)?;
    }
    Ok(())
}
