//! The next record of a section in memory.

ghost use Rattle.std.specs.Prelude.{◌≡◌, ◌*◌, ◌<◌, ◌≤◌, MatchOption, MatchResult};
ghost use Rattle.xet_base.specs.Errors.{IsEndOfInput, IsBareInvalidShard};
ghost use Rattle.xet_records.specs.Limits.{MAX_ROWS};
ghost use Rattle.xet_records.specs.Reading.{BeginsWithBookend};
ghost use Rattle.xet_records.specs.RecordKind.{in_version};
ghost use Rattle.placed_shards.specs.TakenRecords.{TakesRecord, StopsBefore};

use crate::placed_record::PlacedRecord;
use std::alloc::Global;
use std::io;
use std::io::ErrorKind;
use xet_base::error::{CoreError, Result};
use xet_base::fields::all_bytes;
use xet_records::record_bytes::row;
use xet_records::record_reader::FormatVersion;
use xet_records::rows::ROW_SIZE;

/// A record at the front of bytes, and the bytes after it.
#[derive(Drop)]
pub struct NextRecord<'a, P> {
    pub record: P,
    pub rest: &'a [u8],
}

/// The next record of a section, or `None` at the bookend. Its rows are counted down from
/// `rows_left`.
///
/// `UnexpectedEof` if the bytes end before the record does; `InvalidShard` if the version does not
/// have such a header, or the record has more than `rows_left` rows.
pub fn next_record<'a, P: PlacedRecord<'a>>(
    alloc: Global,
    bytes: &'a [u8],
    version: FormatVersion,
    rows_left: &mut u64,
) -> Result<Option<NextRecord<'a, P>>>
    requires { rows_left.old ≤ MAX_ROWS }
    ensures { MatchResult result
        (λ next. MatchOption next (BeginsWithBookend (in_version P.kind version) bytes.now)
        (λ n. TakesRecord (in_version P.kind version) bytes.now rows_left.old rows_left.new n.record
        n.rest.now))
        (StopsBefore (in_version P.kind version) bytes.now rows_left.old) }
{
    P::laws();
    if bytes.len() < ROW_SIZE {
        return Err(end_of_input());
    }
    all_bytes(bytes);
    let header: P::Header = row(bytes, 0);
    if P::is_bookend(&header) {
        return Ok(None);
    }
    if refuses::<P>(version, &header) {
        return Err(CoreError::InvalidShard(String::new(alloc)));
    }
    let rows = 1 + P::rows_after(&header);
    if rows > *rows_left {
        return Err(CoreError::InvalidShard(String::new(alloc)));
    }
    let size = ROW_SIZE * rows as usize;
    if bytes.len() < size {
        return Err(end_of_input());
    }
    *rows_left -= rows;
    let (own, rest) = bytes.split_at(size);
    let record = P::under_header(&header, own);
    Ok(Some(NextRecord { record, rest }))
}

/// `UnexpectedEof`.
pub fn end_of_input() -> CoreError
    ensures { IsEndOfInput result }
{
    CoreError::Io(io::Error::from(ErrorKind::UnexpectedEof))
}

// Whether a version does not have a header.
fn refuses<'a, P: PlacedRecord<'a>>(version: FormatVersion, header: &P::Header) -> bool
    ensures { result ≡ (in_version P.kind version).refuses header.now }
{
    match version {
        FormatVersion::V2 => P::is_new(header),
        FormatVersion::V3 => false,
    }
}
