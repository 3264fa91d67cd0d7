//! Writing a shard again, as it is read, with its chunk hashes under a key.

ghost use Rattle.std.specs.Prelude.{◌≡◌, ◌+◌, ◌≤◌, ◌++◌, Bool, true, false, List, [], flat_map, MatchOption, MatchResult, OnOk, IfErr};
ghost use Rattle.std.specs.Io.KnownBytes.{Appends};
ghost use Rattle.xet_base.specs.Errors.{IsWriteError};
ghost use Rattle.xet_base.specs.Source.{ReadsBytes};
ghost use Rattle.xet_records.specs.RecordKind.{KindLaws, in_version};
ghost use Rattle.xet_records.specs.ViewReading.{ReadsNextView};
ghost use Rattle.xet_records.proofs.RecordKinds.{file_laws, xorb_laws};
ghost use Rattle.xet_shards.specs.declared.shard_format.ends.options.LayoutOptions.{LayoutOptions};
ghost use Rattle.xet_shards.specs.Write.Section.{section_bytes, total_rows};
ghost use Rattle.xet_shards.specs.Write.Written.{HasWritten, HasWrittenFor};
ghost use Rattle.xet_shards.specs.Write.WrittenLaws.{written_for};
ghost use Rattle.xet_shards.specs.Steps.SectionReadingSteps.{RecordFails};
ghost use Rattle.xet_shards.specs.Export.KeyedExport.{ExportsWith, ExportFails, OutcomeOfExport, CannotExport, ExpiresTooLate, export_options};
ghost use Rattle.xet_shards.specs.Steps.KeyedExportSteps.{ExportsSection, ExportsNoSection, exported_file, exported_xorb};
ghost use Rattle.xet_shards.specs.Export.ExportLaws.{file_rows, xorb_rows};
ghost use Rattle.xet_records.specs.Limits.{MAX_ROWS};

use super::keyed_chunks::with_keyed_hashes;
use crate::shard_format::FOOTER_SIZE;
use crate::shard_format::ends::header::MDBShardFileHeader;
use crate::shard_format::ends::info::{MDBShardInfo, read_header};
use crate::shard_format::ends::options::LayoutOptions;
use crate::shard_format::write::shard_end::write_end;
use crate::shard_format::write::view_writer::write_file_view;
use crate::shard_format::write::written::{WrittenFiles, WrittenSection, WrittenXorbs};
use bytes::BytesMut;
use std::alloc::Global;
use std::io::Write;
use xet_base::error::{CoreError, Result};
use xet_base::input::OfSource;
use xet_base::merklehash::HMACKey;
use xet_base::source::ShardSource;
use xet_records::file_structs::{KeptParts, MDBFileInfo, MDBFileInfoView};
use xet_records::record_reader::{FormatVersion, read_record};
use xet_records::rows::ROW_LIMIT;
use xet_records::view_reader::read_view;
use xet_records::xorb_structs::MDBXorbInfo;

impl MDBShardInfo {
    /// Writes the shard from the source's position on again, in version 3, its chunk hashes under
    /// `key` unless that is zero, created at `now` and expiring `valid_seconds` later, both in
    /// seconds. Without files, their section and table are empty. Does not read the footer. Returns
    /// the number of bytes written.
    ///
    /// `InvalidArguments`, with nothing read or written, if this shard's chunk hashes are keyed or
    /// the expiry exceeds `u64`; `ShardVersion` if the source's header is unsupported;
    /// `InvalidShard` if its version does not have a file's header, or past 4294967295 rows of a
    /// section; `UnexpectedEof` if the source ends before both sections do; `OutOfMemory`; or the
    /// error of source or writer.
    pub fn export_as_keyed_shard<S: ShardSource, W: Write>(
        &self,
        alloc: Global,
        source: &mut S,
        writer: &mut W,
        key: HMACKey,
        now: u64,
        valid_seconds: u64,
        include_file_info: bool,
        include_xorb_lookup_table: bool,
        include_chunk_lookup_table: bool,
    ) -> Result<usize>
        ensures { OutcomeOfExport (CannotExport self.now now valid_seconds) true
            (export_options key now valid_seconds include_file_info include_xorb_lookup_table
            include_chunk_lookup_table)
            S.meaning W.contents source.old source.new writer.old writer.new result }
    {
        if self.chunk_hashes_protected() {
            return Err(CoreError::InvalidArguments);
        }
        MDBShardInfo::export_as_keyed_shard_streaming(
            alloc,
            source,
            writer,
            key,
            now,
            valid_seconds,
            include_file_info,
            include_xorb_lookup_table,
            include_chunk_lookup_table,
        )
    }

    /// As [`MDBShardInfo::export_as_keyed_shard`], but of a shard with an unknown footer: keyed
    /// hashes are hashed again.
    pub fn export_as_keyed_shard_streaming<S: ShardSource, W: Write>(
        alloc: Global,
        source: &mut S,
        writer: &mut W,
        key: HMACKey,
        now: u64,
        valid_seconds: u64,
        include_file_info: bool,
        include_xorb_lookup_table: bool,
        include_chunk_lookup_table: bool,
    ) -> Result<usize>
        ensures { OutcomeOfExport (ExpiresTooLate now valid_seconds) true
            (export_options key now valid_seconds include_file_info include_xorb_lookup_table
            include_chunk_lookup_table)
            S.meaning W.contents source.old source.new writer.old writer.new result }
    {
        let Some(options) = export_options(
            key,
            now,
            valid_seconds,
            include_file_info,
            include_xorb_lookup_table,
            include_chunk_lookup_table,
        ) else {
            return Err(CoreError::InvalidArguments);
        };
        export(alloc, source, writer, true, &options)
    }

    /// As [`MDBShardInfo::export_as_keyed_shard`], but without auxiliary rows and with bit 29 of
    /// their files' headers cleared.
    pub fn export_as_keyed_shard_without_aux<S: ShardSource, W: Write>(
        &self,
        alloc: Global,
        source: &mut S,
        writer: &mut W,
        key: HMACKey,
        now: u64,
        valid_seconds: u64,
        include_file_info: bool,
        include_xorb_lookup_table: bool,
        include_chunk_lookup_table: bool,
    ) -> Result<usize>
        ensures { OutcomeOfExport (CannotExport self.now now valid_seconds) false
            (export_options key now valid_seconds include_file_info include_xorb_lookup_table
            include_chunk_lookup_table)
            S.meaning W.contents source.old source.new writer.old writer.new result }
    {
        let keyed = self.chunk_hashes_protected();
        if keyed {
            return Err(CoreError::InvalidArguments);
        }
        MDBShardInfo::export_as_keyed_shard_streaming_without_aux(
            alloc,
            source,
            writer,
            key,
            now,
            valid_seconds,
            include_file_info,
            include_xorb_lookup_table,
            include_chunk_lookup_table,
        )
    }

    /// As [`MDBShardInfo::export_as_keyed_shard_without_aux`], but as
    /// [`MDBShardInfo::export_as_keyed_shard_streaming`].
    pub fn export_as_keyed_shard_streaming_without_aux<S: ShardSource, W: Write>(
        alloc: Global,
        source: &mut S,
        writer: &mut W,
        key: HMACKey,
        now: u64,
        valid_seconds: u64,
        include_file_info: bool,
        include_xorb_lookup_table: bool,
        include_chunk_lookup_table: bool,
    ) -> Result<usize>
        ensures { OutcomeOfExport (ExpiresTooLate now valid_seconds) false
            (export_options key now valid_seconds include_file_info include_xorb_lookup_table
            include_chunk_lookup_table)
            S.meaning W.contents source.old source.new writer.old writer.new result }
    {
        let Some(options) = export_options(
            key,
            now,
            valid_seconds,
            include_file_info,
            include_xorb_lookup_table,
            include_chunk_lookup_table,
        ) else {
            return Err(CoreError::InvalidArguments);
        };
        export(alloc, source, writer, false, &options)
    }
}

// `None` if the expiry exceeds `u64`.
fn export_options(
    key: HMACKey,
    now: u64,
    valid_seconds: u64,
    file_table: bool,
    xorb_table: bool,
    chunk_table: bool,
) -> Option<LayoutOptions>
    ensures { MatchOption result (ExpiresTooLate now valid_seconds)
        (λ options. (options ≡ export_options key now valid_seconds file_table xorb_table chunk_table)
        × (¬ ExpiresTooLate now valid_seconds)) }
{
    let expiry = now.checked_add(valid_seconds)?;
    Some(LayoutOptions {
        version: FormatVersion::V3,
        file_table,
        xorb_table,
        chunk_table,
        key,
        creation: now,
        expiry,
    })
}

// Version 3 can store the files of either version.
fn export<S: ShardSource, W: Write>(
    alloc: Global,
    source: &mut S,
    writer: &mut W,
    aux_ext: bool,
    options: &LayoutOptions,
) -> Result<usize>
    requires { options.now.version ≡ FormatVersion.V3 }
    ensures { MatchResult result
        (ExportsWith aux_ext options.now (S.meaning source.old) (S.meaning source.new)
        (W.contents writer.old) (W.contents writer.new))
        (ExportFails (S.meaning source.old) (S.meaning source.new)) }
{
    let version = read_header(alloc, source)?.format_version();
    MDBShardFileHeader::of_version(options.version).serialize(writer)?;
    let files = export_section::<MDBFileInfoView, S, W>(
        alloc, source, version, writer, aux_ext, options,
    )?;
    let newest = FormatVersion::V3;
    let xorbs = export_section::<MDBXorbInfo, S, W>(
        alloc, source, newest, writer, aux_ext, options,
    )?;
    let footer = write_end(writer, &files, xorbs, options)?;
    let size = footer.footer_offset + FOOTER_SIZE;
    Ok(size as usize)
}

trait ExportedRecord {
    type Section: WrittenSection + Drop;

    ghost stored: { Self → Self.Section.Record };

    // what is written of it: a record, or none
    ghost exports: { Bool → LayoutOptions → Self.Section.Record → List Self.Section.Record };

    ghost has_written: { LayoutOptions → Self.Section → List Self.Section.Record → Type 0 };

    // `None` at the bookend. A view is read into `buffer`.
    fn read<S: ShardSource>(
        alloc: Global,
        buffer: &mut BytesMut,
        source: &mut S,
        version: FormatVersion,
        left: &mut u64,
    ) -> Result<Option<Self>>
        requires { left.old ≤ 4294967296 }
        ensures { MatchResult result
            (ReadsNextView (in_version Self.Section.Record.kind version) stored
            (ReadsBytes (S.meaning source.old) (S.meaning source.new)) left.old left.new)
            (RecordFails (in_version Self.Section.Record.kind version) left.old
            (S.meaning source.old) (S.meaning source.new)) };

    fn export<W: Write>(
        self,
        writer: &mut W,
        written: &mut Self::Section,
        aux_ext: bool,
        options: &LayoutOptions,
    ) -> Result<()>
        requires stored { Self.Section.Record.kind.IsStored (stored self) }
        requires rows { Self.Section.rows written.old
            + Self.Section.Record.kind.row_count (stored self)
            ≤ MAX_ROWS }
        ensures appended { OnOk result
            (Appends (W.contents writer.old) (W.contents writer.new)
            (flat_map Self.Section.Record.kind.record_bytes
            (exports aux_ext options.now (stored self)))) }
        ensures written { OnOk result
            ((before : List Self.Section.Record) → has_written options.now written.old before
            → has_written options.now written.new
            (before ++ exports aux_ext options.now (stored self))) }
        ensures causes { IfErr result IsWriteError };

    ghost laws: { KindLaws Self.Section.Record.kind };

    ghost no_more_rows: { (aux : Bool) (options : LayoutOptions) (r : Self.Section.Record)
        → total_rows Self.Section.Record.kind (exports aux options r)
        ≤ Self.Section.Record.kind.row_count r };

    ghost begins: { (options : LayoutOptions) (written : Self.Section)
        → Self.Section.has_written written [] → has_written options written [] };

    ghost counts_rows: { (options : LayoutOptions) (written : Self.Section) (records : List Self.Section.Record)
        → has_written options written records
        → Self.Section.rows written ≡ total_rows Self.Section.Record.kind records };
}

impl ExportedRecord for MDBFileInfoView {
    type Section = WrittenFiles;

    ghost stored = { λ view. view };

    ghost exports = { exported_file };

    ghost has_written = { λ options. HasWritten };

    ghost laws = { file_laws };

    ghost no_more_rows = { file_rows };

    ghost begins = { λ options written have. have };

    ghost counts_rows = { λ options written files have. have.table.rows };

    fn read<S: ShardSource>(
        alloc: Global,
        buffer: &mut BytesMut,
        source: &mut S,
        version: FormatVersion,
        left: &mut u64,
    ) -> Result<Option<Self>> {
        read_view::<MDBFileInfo, MDBFileInfoView, OfSource, S>(alloc, buffer, source, version, left)
    }

    fn export<W: Write>(
        self,
        writer: &mut W,
        written: &mut WrittenFiles,
        aux_ext: bool,
        options: &LayoutOptions,
    ) -> Result<()> {
        if !options.file_table {
            return Ok(());
        }
        let kept = KeptParts {
            aux_ext,
            ..KeptParts::ALL
        };
        write_file_view(writer, written, &self, kept)
    }
}

impl ExportedRecord for MDBXorbInfo {
    type Section = WrittenXorbs;

    ghost stored = { λ xorb. xorb };

    ghost exports = { exported_xorb };

    ghost has_written = { λ options. HasWrittenFor options.chunk_table };

    ghost laws = { xorb_laws };

    ghost no_more_rows = { xorb_rows };

    ghost begins = { λ options written have. written_for options.chunk_table written [] have };

    ghost counts_rows = { λ options written xorbs have. have.table.rows };

    fn read<S: ShardSource>(
        alloc: Global,
        _buffer: &mut BytesMut,
        source: &mut S,
        version: FormatVersion,
        left: &mut u64,
    ) -> Result<Option<Self>> {
        read_record::<MDBXorbInfo, OfSource, S>(alloc, source, version, left)
    }

    fn export<W: Write>(
        self,
        writer: &mut W,
        written: &mut WrittenXorbs,
        _aux_ext: bool,
        options: &LayoutOptions,
    ) -> Result<()> {
        let xorb = with_keyed_hashes(self, options.key);
        written.write_for(writer, &xorb, options.chunk_table)
    }
}

#[tactic(auto, unfolding(crate::specs::Write::Section::section_bytes))]
fn export_section<E: ExportedRecord + Drop, S: ShardSource, W: Write>(
    alloc: Global,
    source: &mut S,
    version: FormatVersion,
    writer: &mut W,
    aux_ext: bool,
    options: &LayoutOptions,
) -> Result<E::Section>
    ensures { MatchResult result
        (λ written. ExportsSection E.Section.Record.kind version (E.exports aux_ext options.now)
        (E.has_written options.now written) (S.meaning source.old) (S.meaning source.new)
        (W.contents writer.old) (W.contents writer.new))
        (ExportsNoSection E.Section.Record.kind version (S.meaning source.old)
        (S.meaning source.new)) }
{
    let mut written = E::Section::new(alloc);
    let mut buffer = BytesMut::new(alloc);
    let mut rows_left = ROW_LIMIT;
    while let Some(next) = E::read(alloc, &mut buffer, source, version, &mut rows_left)? {
        next.export(writer, &mut written, aux_ext, options)?;
    }
    E::Section::write_bookend(writer)?;
    Ok(written)
}
