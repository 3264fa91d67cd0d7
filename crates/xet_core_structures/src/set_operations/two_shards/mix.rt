//! A mix of two records of one file.

ghost use Rattle.std.specs.Prelude.{◌≡◌, ◌*◌, ◌≤◌, IfOk};
ghost use Rattle.xet_records.specs.FileRow.{hash_row, FitsHashRow, clear};
ghost use Rattle.xet_records.specs.Part.{part_rows};
ghost use Rattle.xet_records.specs.FileRecord.{file_records};
ghost use Rattle.xet_shards.specs.Write.Written.{HasWritten};
ghost use Rattle.xet_core_structures.specs.Steps.MergeJoin.{IsRecordHeader};
ghost use Rattle.xet_core_structures.specs.Steps.MixedFiles.{MixesFiles, MixesRows, CopiesEither};
ghost use Rattle.xet_core_structures.specs.TwoShards.Streams.{streams};

use super::record_operation::refuse;
use std::alloc::Global;
use std::io::Write;
use xet_base::input::OfSource;
use xet_base::source::ShardSource;
use xet_records::file_copier::copy_segments;
use xet_records::file_structs::{
    FileDataSequenceEntry, FileDataSequenceHeader, HashRow, MDBFileInfo, OptionalPart,
};
use xet_records::row_copier::{CopyFailure, CopyResult, copy_rows, write_copied_row};
use xet_records::row_reader::skip_rows;
use xet_records::rows::Row;
use xet_shards::shard_writer::{WrittenFiles, WrittenSection};

/// Writes the first's segments, and each optional part from the first if it has it, else from the
/// second. `InvalidShard` if its rows do not fit the section; then both are read past.
pub fn mix<S: ShardSource, T: ShardSource, W: Write>(
    alloc: Global,
    first: FileDataSequenceHeader,
    r1: &mut S,
    second: FileDataSequenceHeader,
    r2: &mut T,
    written: &mut WrittenFiles,
    out: &mut W,
) -> CopyResult<()>
    requires first { IsRecordHeader file_records first }
    requires second { IsRecordHeader file_records second }
    requires hash { first.file_hash ≡ second.file_hash }
    requires count { first.num_entries ≡ second.num_entries }
    ensures { MixesFiles first second
        (streams (S.meaning r1.old) (T.meaning r2.old) (W.contents out.old))
        (streams (S.meaning r1.new) (T.meaning r2.new) (W.contents out.new)) written.old.table.rows
        (HasWritten written.old) (HasWritten written.new) result }
{
    let header = first.mix_with(&second);
    let rows = 1 + header.rows_after();
    if !written.has_room(rows) {
        return refuse::<MDBFileInfo, S, T>(alloc, Some(first), r1, Some(second), r2);
    }
    write_copied_row(&header, out)?;
    let size = mix_rows::<S, T, W>(&first, r1, &second, r2, out)?;
    match written.add(first.file_hash.word0, rows, size) {
        Ok(()) => Ok(()),
        Err(error) => Err(CopyFailure::Output(error)),
    }
}

/// Writes the rows after a mix's header, and returns the size of the file in bytes.
pub fn mix_rows<S: ShardSource, T: ShardSource, W: Write>(
    first: &FileDataSequenceHeader,
    r1: &mut S,
    second: &FileDataSequenceHeader,
    r2: &mut T,
    out: &mut W,
) -> CopyResult<u64>
    ensures rows { MixesRows first.now second.now
        (streams (S.meaning r1.old) (T.meaning r2.old) (W.contents out.old))
        (streams (S.meaning r1.new) (T.meaning r2.new) (W.contents out.new)) result }
    ensures bound { IfOk result (λ size. size ≤ 4294967295 * first.now.num_entries) }
{
    let size = copy_segments::<OfSource, S, W>(r1, out, first.num_entries)?;
    skip_rows::<FileDataSequenceEntry, OfSource, T>(r2, second.num_entries)?;
    for part in OptionalPart::ALL {
        copy_part::<S, T, W>(first, r1, second, r2, part, out)?;
    }
    Ok(size)
}

fn copy_part<S: ShardSource, T: ShardSource, W: Write>(
    first: &FileDataSequenceHeader,
    r1: &mut S,
    second: &FileDataSequenceHeader,
    r2: &mut T,
    part: OptionalPart,
    out: &mut W,
) -> CopyResult<()>
    ensures { CopiesEither hash_row FitsHashRow clear
        (streams (S.meaning r1.old) (T.meaning r2.old) (W.contents out.old))
        (streams (S.meaning r1.new) (T.meaning r2.new) (W.contents out.new))
        (part_rows part first.now) (part_rows part second.now) result }
{
    copy_either::<HashRow, S, T, W>(r1, first.part_rows(part), r2, second.part_rows(part), out)
}

// Copies the first's rows, or if it has none, the second's, and reads past the others.
fn copy_either<R: Row, S: ShardSource, T: ShardSource, W: Write>(
    r1: &mut S,
    count_1: u32,
    r2: &mut T,
    count_2: u32,
    out: &mut W,
) -> CopyResult<()>
    ensures { CopiesEither R.row_bytes R.Fits R.as_read
        (streams (S.meaning r1.old) (T.meaning r2.old) (W.contents out.old))
        (streams (S.meaning r1.new) (T.meaning r2.new) (W.contents out.new)) count_1 count_2
        result }
{
    if count_1 == 0 {
        copy_rows::<R, OfSource, T, W>(r2, out, u64::from(count_2))?;
        return Ok(());
    }
    copy_rows::<R, OfSource, S, W>(r1, out, u64::from(count_1))?;
    skip_rows::<R, OfSource, T>(r2, count_2)?;
    Ok(())
}
