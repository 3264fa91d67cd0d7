//! Writing a minimal shard, or some of its xorbs.

ghost use Rattle.std.specs.Prelude.{◌≡◌, ◌+◌, ◌*◌, ◌≤◌, ◌++◌, false, List, [], map, flat_map, None, IsTrue, IsErrAnd, OnOk, IfOk, IfErr};
ghost use Rattle.std.specs.Fn.{FnReturnsAt};
ghost use Rattle.std.specs.Io.KnownBytes.{Appends};
ghost use Rattle.std.specs.List.{Any, All, list_all};
ghost use Rattle.std.specs.List.Sorted.{IsSorted};
ghost use Rattle.xet_base.specs.Errors.{IsWriteError};
ghost use Rattle.xet_records.specs.FileRecord.{file_records, has_verification};
ghost use Rattle.xet_records.specs.declared.xorb_structs.MDBXorbInfo.{MDBXorbInfo};
ghost use Rattle.xet_records.specs.XorbRecord.{xorb_records, xorb_record_bytes, xorb_row_count, IsStoredXorb};
ghost use Rattle.xet_records.specs.Limits.{MAX_ROWS};
ghost use Rattle.xet_records.specs.View.{as_kept, LacksVerification, IsIoOther};
ghost use Rattle.xet_shards.specs.Write.WithOptions.{FitsSection};
ghost use Rattle.xet_shards.specs.Write.Section.{section_bytes};
ghost use Rattle.xet_shards.specs.Write.Written.{HasWritten, HasWrittenFor};
ghost use Rattle.xet_shards.specs.StreamingShard.MinimalShard.{start_cmp, has_start, minimal_options, WritesMinimal, WritesMinimalKept, WritesKept, FiltersAt};
ghost use Rattle.xet_shards.specs.Steps.MinimalShardSteps.{HasNoTables};
ghost use Rattle.xet_shards.specs.Steps.MinimalWriting.{WritesMarked, marked_if_wanted};

use super::file_start::{FileStart, starts_of, write_marked};
use super::minimal_shard::MDBMinimalShard;
use crate::shard_format::write::view_writer::write_file_view;
use crate::shard_format::{MDBShardFileHeader, MDBShardInfo};
use crate::shard_writer::{LayoutOptions, WrittenFiles, WrittenSection, WrittenXorbs, write_end};
use std::alloc::Global;
use std::io;
use std::io::{ErrorKind, Write};
use xet_base::error::{CoreError, Result};
use xet_records::file_structs::{KeptParts, MDBFileInfoView};
use xet_records::rows::ROW_SIZE;
use xet_records::xorb_structs::MDBXorbInfoView;

impl MDBMinimalShard {
    /// Writes the shard without tables, created at `now`, a timestamp in seconds, with expiry 0,
    /// and returns the number of bytes. Each chunk at which a file starts is marked. Verification
    /// rows are left out if they are not wanted.
    ///
    /// `Io` of kind `Other` if they are wanted and a file has none, and then nothing is written;
    /// else the writer's error or `OutOfMemory`.
    pub fn serialize<W: Write>(
        &self,
        alloc: Global,
        writer: &mut W,
        now: u64,
        with_verification: bool,
    ) -> Result<usize>
        ensures written { IfOk result
            (WritesMinimal (W.contents writer.old) (W.contents writer.new) with_verification now
            self.now) }
        ensures missing { Any (LacksVerification with_verification) self.now.files
            → IsErrAnd result IsIoOther × (writer.new ≡ writer.old) }
        ensures causes { IfErr result IsWriteError }
    {
        let kept = KeptParts {
            verification: with_verification,
            ..KeptParts::ALL
        };
        self.serialize_kept(alloc, writer, now, kept)
    }

    /// As [`MDBMinimalShard::serialize`], without auxiliary rows. The header of a file that has one
    /// has bit 29 cleared, or where verification rows are left out too, the flag of a metadata row
    /// alone.
    pub fn serialize_without_aux<W: Write>(
        &self,
        alloc: Global,
        writer: &mut W,
        now: u64,
        with_verification: bool,
    ) -> Result<usize>
        ensures written { IfOk result
            (WritesMinimalKept (W.contents writer.old) (W.contents writer.new)
            (record { verification = with_verification; aux_ext = false }) now self.now) }
        ensures missing { Any (LacksVerification with_verification) self.now.files
            → IsErrAnd result IsIoOther × (writer.new ≡ writer.old) }
        ensures causes { IfErr result IsWriteError }
    {
        let kept = KeptParts {
            verification: with_verification,
            aux_ext: false,
        };
        self.serialize_kept(alloc, writer, now, kept)
    }

    fn serialize_kept<W: Write>(
        &self,
        alloc: Global,
        writer: &mut W,
        now: u64,
        kept: KeptParts,
    ) -> Result<usize>
        ensures written { IfOk result
            (WritesMinimalKept (W.contents writer.old) (W.contents writer.new) kept now self.now) }
        ensures missing { Any (LacksVerification kept.verification) self.now.files
            → IsErrAnd result IsIoOther × (writer.new ≡ writer.old) }
        ensures causes { IfErr result IsWriteError }
    {
        let files = self.files();
        if kept.verification && !all_have_verification(files) {
            return Err(CoreError::Io(io::Error::from(ErrorKind::Other)));
        }
        let options = LayoutOptions::minimal(now, None);
        let all = |_xorb: &MDBXorbInfoView| -> bool
            ensures { IsTrue result }
        { true };
        self.write(alloc, writer, files, kept, &options, all)
    }

    /// Writes the xorbs that `filter`, called once with each in order, accepts, and no files,
    /// created at `now`, a timestamp in seconds, with expiry 0, and returns the number of bytes.
    /// Each chunk at which a file of this shard starts is marked. The error is the writer's or
    /// `OutOfMemory`.
    pub fn serialize_xorb_subset_only<W: Write, F: Fn(&MDBXorbInfoView) -> bool>(
        &self,
        alloc: Global,
        writer: &mut W,
        now: u64,
        filter: F,
    ) -> Result<usize>
        requires { All (FiltersAt F.Fn filter) self.now.xorbs }
        ensures written { IfOk result
            (WritesKept (FnReturnsAt F.Fn filter) (W.contents writer.old) (W.contents writer.new) []
            self.now (minimal_options now None)) }
        ensures causes { IfErr result IsWriteError }
    {
        self.serialize_xorb_subset_with_expiry(alloc, writer, now, None, filter)
    }

    /// As [`MDBMinimalShard::serialize_xorb_subset_only`], with an expiry in seconds; `None` is
    /// written as 0.
    pub fn serialize_xorb_subset_with_expiry<W: Write, F: Fn(&MDBXorbInfoView) -> bool>(
        &self,
        alloc: Global,
        writer: &mut W,
        now: u64,
        expiry: Option<u64>,
        filter: F,
    ) -> Result<usize>
        requires { All (FiltersAt F.Fn filter) self.now.xorbs }
        ensures written { IfOk result
            (WritesKept (FnReturnsAt F.Fn filter) (W.contents writer.old) (W.contents writer.new) []
            self.now (minimal_options now expiry)) }
        ensures causes { IfErr result IsWriteError }
    {
        let options = LayoutOptions::minimal(now, expiry);
        let kept = KeptParts {
            verification: false,
            ..KeptParts::ALL
        };
        self.write(alloc, writer, &[], kept, &options, filter)
    }

    // Writes these parts of files and the accepted xorbs, with marks at the starts of all files.
    fn write<W: Write, F: Fn(&MDBXorbInfoView) -> bool>(
        &self,
        alloc: Global,
        writer: &mut W,
        files: &[MDBFileInfoView],
        kept: KeptParts,
        options: &LayoutOptions,
        filter: F,
    ) -> Result<usize>
        requires callable { All (FiltersAt F.Fn filter) self.now.xorbs }
        requires files { FitsSection file_records files.now }
        requires options { HasNoTables options.now }
        ensures written { IfOk result
            (WritesKept (FnReturnsAt F.Fn filter) (W.contents writer.old) (W.contents writer.new)
            (map (as_kept kept) files.now) self.now options.now) }
        ensures causes { IfErr result IsWriteError }
    {
        let starts = starts_of(alloc, self.files())?;
        MDBShardFileHeader::of_version(options.version).serialize(writer)?;
        let files = write_files(alloc, writer, files, kept)?;
        let xorbs = write_xorbs(alloc, writer, self.xorbs(), starts.as_slice(), filter)?;
        let size = size_of(&files, &xorbs);
        write_end(writer, &files, xorbs, options)?;
        Ok(size)
    }
}

fn all_have_verification(files: &[MDBFileInfoView]) -> bool
    ensures { result ≡ list_all (λ r. has_verification r.metadata.file_flags) files.now }
{
    for file in files {
        if !file.contains_verification() {
            return false;
        }
    }
    true
}

#[tactic(auto, unfolding(crate::specs::Write::Section::section_bytes))]
fn write_files<W: Write>(
    alloc: Global,
    writer: &mut W,
    files: &[MDBFileInfoView],
    kept: KeptParts,
) -> Result<WrittenFiles>
    requires { FitsSection file_records files.now }
    ensures bytes { OnOk result
        (Appends (W.contents writer.old) (W.contents writer.new)
        (section_bytes file_records (map (as_kept kept) files.now))) }
    ensures written { IfOk result
        (λ written. HasWritten written (map (as_kept kept) files.now)) }
    ensures causes { IfErr result IsWriteError }
{
    let mut written = WrittenFiles::new(alloc);
    for file in files {
        write_file_view(writer, &mut written, file, kept)?;
    }
    WrittenFiles::write_bookend(writer)?;
    Ok(written)
}

fn write_xorbs<W: Write, F: Fn(&MDBXorbInfoView) -> bool>(
    alloc: Global,
    writer: &mut W,
    xorbs: &[MDBXorbInfoView],
    starts: &[FileStart],
    filter: F,
) -> Result<WrittenXorbs>
    requires sorted { IsSorted start_cmp starts.now }
    requires callable { All (FiltersAt F.Fn filter) xorbs.now }
    requires fit { FitsSection xorb_records xorbs.now }
    ensures written { IfOk result
        (WritesMarked (FnReturnsAt F.Fn filter) (has_start starts.now)
        (W.contents writer.old) (W.contents writer.new) xorbs.now) }
    ensures causes { IfErr result IsWriteError }
{
    let mut written = WrittenXorbs::new(alloc);
    for xorb in xorbs {
        add_if(filter(xorb), writer, &mut written, xorb, starts)?;
    }
    WrittenXorbs::write_bookend(writer)?;
    Ok(written)
}

// Rows of a chunk table are not collected.
fn add_if<W: Write>(
    wanted: bool,
    writer: &mut W,
    written: &mut WrittenXorbs,
    xorb: &MDBXorbInfoView,
    starts: &[FileStart],
) -> Result<()>
    requires sorted { IsSorted start_cmp starts.now }
    requires stored { IsStoredXorb xorb.now }
    requires rows { written.old.table.rows + xorb_row_count xorb.now ≤ MAX_ROWS }
    ensures appended { OnOk result
        (Appends (W.contents writer.old) (W.contents writer.new)
        (flat_map xorb_record_bytes (marked_if_wanted wanted starts.now xorb.now))) }
    ensures written { OnOk result
        ((before : List MDBXorbInfo) → HasWrittenFor false written.old before
        → HasWrittenFor false written.new (before ++ marked_if_wanted wanted starts.now xorb.now)) }
    ensures causes { IfErr result IsWriteError }
{
    if wanted {
        written.add(xorb.header())?;
        write_marked(writer, xorb, starts)?;
    }
    Ok(())
}

// The bytes of a shard without tables.
fn size_of(files: &WrittenFiles, xorbs: &WrittenXorbs) -> usize
    ensures { result ≡ 344 + 48 * files.now.table.rows + 48 * xorbs.now.table.rows }
{
    let rows = (files.table.rows + xorbs.table.rows) as usize;
    MDBShardInfo::non_content_byte_size() as usize + ROW_SIZE * rows
}
