//! The bytes of a shard. All that may fail comes before the first byte.

ghost use Rattle.std.specs.Prelude.{◌≡◌, ◌⊎◌, ◌≤◌, ◌↔◌, ◌++◌, drop, length, IsTrue, if◌then◌else◌, MatchResult};
ghost use Rattle.std.specs.List.{list_any};
ghost use Rattle.xet_base.specs.declared.error.CoreError.TheVariants.{InvalidArguments, OutOfMemory};
ghost use Rattle.xet_records.specs.declared.record_reader.FormatVersion.{FormatVersion};
ghost use Rattle.xet_records.specs.FileRecord.{has_aux_ext};
ghost use Rattle.xet_records.specs.Limits.{MAX_ROWS};
ghost use Rattle.xet_shards.specs.Write.Section.{total_rows};
ghost use Rattle.xet_shards.specs.Write.ShardEnd.{end_bytes};
ghost use Rattle.xet_shards.specs.Write.Written.{end_of_layout, HasWritten};
ghost use Rattle.placed_shards.specs.Content.{content, content_layout, options_in, HasFilesIn};
ghost use Rattle.placed_shards.specs.Filling.{FillsWith};

use crate::collecting::{collect_files, collect_xorbs};
use crate::placed_file::PlacedFile;
use crate::placed_record::{PlacedRecord, all_stored};
use crate::placed_shard::PlacedShard;
use crate::putting::{put_files, put_header, put_xorbs};
use std::alloc::Global;
use xet_base::error::{CoreError, Result};
use xet_records::record_reader::FormatVersion;
use xet_records::rows::{CHUNK_ROW_SIZE, EMPTY_SIZE, ROW_SIZE, START_ROW_SIZE};
use xet_shards::shard_writer::{LayoutOptions, ShardEnd, WrittenFiles};

impl PlacedShard<'_> {
    /// The number of bytes in a version. `InvalidArguments` for version 2, if a file has an
    /// auxiliary row.
    pub fn size(&self, version: FormatVersion) -> Result<usize>
        ensures { MatchResult result
            (λ size. HasFilesIn version (content self.now)
            × (size ≡ length (content_layout version (content self.now))))
            (λ e. (e ≡ InvalidArguments) × (¬ HasFilesIn version (content self.now))) }
    {
        if !self.has_files_in(version) {
            return Err(CoreError::InvalidArguments);
        }
        Ok(self.byte_count())
    }

    /// The bytes in a version. The errors are those of `size`, and `OutOfMemory`.
    pub fn to_bytes(&self, alloc: Global, version: FormatVersion) -> Result<Vec<u8>>
        ensures { MatchResult result
            (λ bytes. HasFilesIn version (content self.now)
            × (bytes.items ≡ content_layout version (content self.now)))
            (λ e. (e ≡ OutOfMemory)
            ⊎ ((e ≡ InvalidArguments) × (¬ HasFilesIn version (content self.now)))) }
    {
        let size = self.size(version)?;
        let files = self.collected_files(alloc)?;
        let end = self.end(alloc, version, &files)?;
        let mut bytes = vec![in alloc; 0; size]?;
        self.put_all(bytes.as_mut_slice(), version, &end);
        Ok(bytes)
    }

    /// Writes the bytes in a version to the front of a slice, if they fit, and returns their
    /// number. If they don't, nothing is allocated; then, and on the errors of `to_bytes`, the
    /// slice stays as it is.
    pub fn write_into(&self, alloc: Global, version: FormatVersion, out: &mut [u8]) -> Result<usize>
        ensures { FillsWith
            (λ bytes. HasFilesIn version (content self.now)
            × (bytes ≡ content_layout version (content self.now)))
            (λ e. (e ≡ OutOfMemory)
            ⊎ ((e ≡ InvalidArguments) × (¬ HasFilesIn version (content self.now)))) out.old out.new
            result }
    {
        let size = self.size(version)?;
        if size > out.len() {
            return Ok(size);
        }
        let files = self.collected_files(alloc)?;
        let end = self.end(alloc, version, &files)?;
        self.put_all(out, version, &end);
        Ok(size)
    }

    // Version 2 has no file with an auxiliary row.
    fn has_files_in(&self, version: FormatVersion) -> bool
        ensures { IsTrue result ↔ HasFilesIn version (content self.now) }
    {
        match version {
            FormatVersion::V2 => !have_new(self.files.as_slice()),
            FormatVersion::V3 => true,
        }
    }

    // It is the same in all versions.
    fn byte_count(&self) -> usize
        ensures { (version : FormatVersion)
            → result ≡ length (content_layout version (content self.now)) }
    {
        let files = self.files.as_slice();
        let xorbs = self.xorbs.as_slice();
        all_stored(files);
        let file_rows = rows_of(files);
        let xorb_rows = rows_of(xorbs);
        let file_starts = if_in(self.options.file_table, files.len());
        let xorb_starts = if_in(self.options.xorb_table, xorbs.len());
        // Each xorb row but a header is a chunk.
        let chunks = if_in(self.options.chunk_table, xorb_rows - xorbs.len());
        let sections = EMPTY_SIZE as usize + ROW_SIZE * (file_rows + xorb_rows);
        sections + START_ROW_SIZE * (file_starts + xorb_starts) + CHUNK_ROW_SIZE * chunks
    }

    fn collected_files(&self, alloc: Global) -> Result<WrittenFiles>
        ensures { MatchResult result (λ written. HasWritten written (content self.now).files)
            (λ e. e ≡ OutOfMemory) }
    {
        collect_files(alloc, self.files.as_slice())
    }

    // The tables and the footer.
    fn end<'w>(
        &self,
        alloc: Global,
        version: FormatVersion,
        files: &'w WrittenFiles,
    ) -> Result<ShardEnd<'w>>
        requires { HasWritten files.now (content self.now).files }
        ensures { MatchResult result
            (λ end. end_bytes end ≡ end_of_layout (content self.now).files (content self.now).xorbs
            (options_in version (content self.now)))
            (λ e. e ≡ OutOfMemory) }
    {
        all_stored(self.files.as_slice());
        let xorbs = collect_xorbs(alloc, self.xorbs.as_slice(), self.options.chunk_table)?;
        let options = LayoutOptions {
            version,
            ..self.options
        };
        ShardEnd::make(files, xorbs, &options)
    }

    // Puts the shard, of which this is the end.
    fn put_all(&self, out: &mut [u8], version: FormatVersion, end: &ShardEnd<'_>)
        requires end { end_bytes end.now ≡ end_of_layout (content self.now).files (content self.now).xorbs
            (options_in version (content self.now)) }
        requires room { length (content_layout version (content self.now)) ≤ length out.old }
        ensures { out.new ≡ content_layout version (content self.now)
            ++ drop (length (content_layout version (content self.now))) out.old }
    {
        all_stored(self.files.as_slice());
        let at = put_header(out, version);
        let at = put_files(out, at, self.files.as_slice(), self.as_read);
        let at = put_xorbs(out, at, self.xorbs.as_slice());
        end.put(out, at);
    }
}

// Whether a file has an auxiliary row.
fn have_new(files: &[PlacedFile<'_>]) -> bool
    ensures { result ≡ list_any (λ r. has_aux_ext r.metadata.file_flags) files.now }
{
    files.iter().any(|file| file.header().contains_aux_ext())
}

// The rows of records, headers included.
fn rows_of<'a, P: PlacedRecord<'a>>(records: &[P]) -> usize
    requires { total_rows P.kind records.now ≤ MAX_ROWS }
    ensures { result ≡ total_rows P.kind records.now }
{
    let mut size = 0;
    for record in records {
        size += record.bytes().len() / ROW_SIZE;
    }
    size
}

fn if_in(is_in: bool, rows: usize) -> usize
    ensures { result ≡ (if is_in then rows else 0) }
{
    if is_in { rows } else { 0 }
}
