//! Copying the rows of a file's record from an input to a writer.

ghost use Rattle.std.specs.Prelude.{◌≡◌, ◌*◌, ◌≤◌, List, sum_by, MatchResult, IfOk, if◌then◌else◌};
ghost use Rattle.xet_records.specs.declared.file_structs.rows.FileDataSequenceEntry.{FileDataSequenceEntry};
ghost use Rattle.xet_records.specs.Copying.{CopiesRows, CopiesFile, CopyFails};
ghost use Rattle.xet_records.specs.FileRow.{segment_row, FitsSegment};
ghost use Rattle.xet_records.specs.FileRecord.{rows_after};

use crate::file_structs::{FileDataSequenceEntry, FileDataSequenceHeader, HashRow};
use crate::row_copier::{CopyResult, copy_row, copy_rows};
use std::io::Write;
use xet_base::input::ByteInput;

/// Copies the rows that a file's header announces, and returns the size of the file in bytes.
/// Reserved words of the rows of optional parts are written as zero. `UnexpectedEof` of the
/// input if fewer rows are left.
pub fn copy_file_rows<M, I: ByteInput<M>, W: Write>(
    input: &mut I,
    writer: &mut W,
    header: FileDataSequenceHeader,
) -> CopyResult<u64>
    ensures copied { MatchResult result
        (CopiesFile (I.reads input.old input.new) (W.contents writer.old) (W.contents writer.new)
        header)
        (CopyFails I.reads I.fails input.old input.new (48 * rows_after header)) }
    ensures bound { IfOk result (λ size. size ≤ 4294967295 * header.num_entries) }
{
    let size = copy_segments::<M, I, W>(input, writer, header.num_entries)?;
    copy_rows::<HashRow, M, I, W>(input, writer, header.optional_rows())?;
    Ok(size)
}

/// Copies `count` segments, and returns the sum of their bytes. `UnexpectedEof` of the input if
/// fewer are left.
pub fn copy_segments<M, I: ByteInput<M>, W: Write>(
    input: &mut I,
    writer: &mut W,
    count: u32,
) -> CopyResult<u64>
    ensures copied { MatchResult result
        (λ bytes. (segments : List FileDataSequenceEntry)
        × CopiesRows segment_row FitsSegment (λ s. s) (I.reads input.old input.new)
        (W.contents writer.old) (W.contents writer.new) count segments
        × (bytes ≡ sum_by (λ s. s.unpacked_segment_bytes) segments))
        (CopyFails I.reads I.fails input.old input.new (48 * count)) }
    ensures bound { IfOk result (λ bytes. bytes ≤ 4294967295 * count) }
{
    let mut bytes = 0;
    for _row in 0..count {
        let segment = copy_row::<FileDataSequenceEntry, M, I, W>(input, writer)?;
        bytes += u64::from(segment.unpacked_segment_bytes);
    }
    Ok(bytes)
}
