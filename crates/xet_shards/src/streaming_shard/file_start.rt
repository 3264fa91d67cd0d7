//! The chunks at which files start.

ghost use Rattle.std.specs.Prelude.{◌≡◌, ◌++◌, ◌<◌, ◌^◌, List, MatchResult, OnOk, IfOk, IfErr};
ghost use Rattle.std.specs.Io.KnownBytes.{Appends};
ghost use Rattle.std.specs.List.Sorted.{IsSorted};
ghost use Rattle.std.specs.Ordering.{is_lt};
ghost use Rattle.xet_base.specs.Errors.{IsWriteError};
ghost use Rattle.xet_records.specs.declared.file_structs.MDBFileInfo.{MDBFileInfo};
ghost use Rattle.xet_records.specs.FileRecord.{file_records_in};
ghost use Rattle.xet_records.specs.XorbRecord.{xorb_record_bytes, IsStoredXorb};
ghost use Rattle.xet_shards.specs.StreamingShard.MinimalShard.{start_cmp, start_of_file, has_start, is_start, chunk_of, mark_starts};
ghost use Rattle.xet_shards.specs.StreamingShard.MinimalReading.{ReadsViews, StopsAfterViews};
ghost use Rattle.xet_shards.specs.Steps.MinimalWriting.{AreStartsFrom};

use bytes::BytesMut;
use std::alloc::Global;
use std::io::Write;
use xet_base::error::{CoreError, Result};
use xet_base::input::ByteInput;
use xet_base::merklehash::MerkleHash;
use xet_records::file_structs::{MDBFileInfo, MDBFileInfoView};
use xet_records::record_reader::FormatVersion;
use xet_records::rows::{ROW_LIMIT, write_row};
use xet_records::view_reader::read_view;
use xet_records::xorb_structs::MDBXorbInfoView;

/// A chunk of a xorb. A file starts at the first chunk of its first segment.
#[derive(Clone, Copy, Debug, PartialEq, Eq, PartialOrd, Ord)]
pub struct FileStart {
    pub xorb_hash: MerkleHash,
    pub chunk_index: u32,
}

impl FileStart {
    pub(super) fn of_chunk(xorb: &MDBXorbInfoView, index: usize) -> FileStart
        requires { index < 2 ^ 32 }
        ensures { result ≡ chunk_of xorb.now index }
    {
        FileStart {
            xorb_hash: xorb.xorb_hash(),
            chunk_index: index as u32,
        }
    }
}

/// Where these files start, ascending. A file without segments starts nowhere.
pub(super) fn starts_of(alloc: Global, files: &[MDBFileInfoView]) -> Result<Vec<FileStart>>
    ensures ok { IfOk result (λ starts. has_start starts.items ≡ is_start files.now) }
    ensures sorted { IfOk result (λ starts. IsSorted start_cmp starts.items) }
    ensures causes { IfErr result (λ e. e ≡ CoreError.OutOfMemory) }
{
    let mut starts = Vec::new(alloc);
    for file in files {
        push_start(&mut starts, file)?;
    }
    starts.sort_unstable();
    Ok(starts)
}

/// As [`starts_of`], of a file section that is read.
pub(super) fn read_starts<M, I: ByteInput<M>>(
    alloc: Global,
    input: &mut I,
    version: FormatVersion,
) -> Result<Vec<FileStart>>
    ensures { MatchResult result
        (λ starts. (files : List MDBFileInfo)
        × ReadsViews (file_records_in version) (λ r. r) I.reads input.old input.new files
        × (has_start starts.items ≡ is_start files) × IsSorted start_cmp starts.items)
        (StopsAfterViews (file_records_in version) (λ r. r) I.reads I.fails input.old input.new) }
{
    let mut starts = Vec::new(alloc);
    let mut buffer = BytesMut::new(alloc);
    let mut rows_left = ROW_LIMIT;
    while let Some(file) = read_view::<MDBFileInfo, MDBFileInfoView, M, I>(
        alloc,
        &mut buffer,
        input,
        version,
        &mut rows_left,
    )? {
        push_start(&mut starts, &file)?;
    }
    starts.sort_unstable();
    Ok(starts)
}

fn push_start(starts: &mut Vec<FileStart>, file: &MDBFileInfoView) -> Result<()>
    ensures ok { OnOk result (starts.new.items ≡ starts.old.items ++ start_of_file file.now) }
    ensures causes { IfErr result (λ e. e ≡ CoreError.OutOfMemory) }
{
    if file.num_entries() == 0 {
        return Ok(());
    }
    let segment = file.entry(0);
    starts.push(FileStart {
        xorb_hash: segment.xorb_hash,
        chunk_index: segment.chunk_index_start,
    })?;
    Ok(())
}

pub(super) fn is_start(starts: &[FileStart], chunk: &FileStart) -> bool
    requires { IsSorted start_cmp starts.now }
    ensures { result ≡ has_start starts.now chunk.now }
{
    starts.binary_search(chunk).is_ok()
}

// They may repeat.
fn starts_from<'a>(starts: &'a [FileStart], first: FileStart) -> &'a [FileStart]
    requires { IsSorted start_cmp starts.now }
    ensures { AreStartsFrom first starts.now result.now }
{
    let place = starts.partition_point(
        |start: &FileStart| -> bool
            ensures { result ≡ is_lt (start_cmp start.now first) }
        { *start < first },
    );
    &starts[place..]
}

/// Writes a xorb with a mark on each start, and all else as it is stored. The error is the
/// writer's.
pub(super) fn write_marked<W: Write>(
    writer: &mut W,
    xorb: &MDBXorbInfoView,
    starts: &[FileStart],
) -> Result<()>
    requires sorted { IsSorted start_cmp starts.now }
    requires stored { IsStoredXorb xorb.now }
    ensures appended { OnOk result
        (Appends (W.contents writer.old) (W.contents writer.new)
        (xorb_record_bytes (mark_starts (has_start starts.now) xorb.now))) }
    ensures causes { IfErr result IsWriteError }
{
    write_row(xorb.header(), writer)?;
    let rest = starts_from(starts, FileStart::of_chunk(xorb, 0));
    let end = FileStart::of_chunk(xorb, xorb.num_entries());
    let mut done = 0;
    for start in rest {
        if *start >= end {
            break;
        }
        let index = start.chunk_index as usize;
        // A start that repeats.
        if index < done {
            continue;
        }
        xorb.serialize_chunks(writer, done, index)?;
        let marked = xorb.chunk(index).with_global_dedup_flag(true);
        write_row(&marked, writer)?;
        done = index + 1;
    }
    xorb.serialize_chunks(writer, done, xorb.num_entries())
}
