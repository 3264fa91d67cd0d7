//! What the tables and the footer of records in memory need.

ghost use Rattle.std.specs.Prelude.{◌≡◌, ◌≤◌, Bool, true, false, MatchResult};
ghost use Rattle.xet_base.specs.declared.error.CoreError.TheVariants.{OutOfMemory};
ghost use Rattle.xet_records.specs.FileRecord.{file_records};
ghost use Rattle.xet_records.specs.Limits.{MAX_ROWS};
ghost use Rattle.xet_records.specs.XorbRecord.{xorb_records};
ghost use Rattle.xet_shards.specs.Read.PlacedRecord.{StoresRecord};
ghost use Rattle.xet_shards.specs.Write.Section.{total_rows};
ghost use Rattle.xet_shards.specs.Write.Written.{HasWritten, HasWrittenFor};
ghost use Rattle.placed_shards.specs.StoredFiles.{files_as};

use crate::placed_file::PlacedFile;
use crate::placed_record::PlacedRecord;
use crate::placed_xorb::PlacedXorb;
use std::alloc::Global;
use xet_base::error::Result;
use xet_records::rows::ROW_SIZE;
use xet_shards::shard_writer::{
    PlacedRecord as HeaderAndRows, WrittenFiles, WrittenSection, WrittenXorbs,
};

/// What the table of files and the footer need, the same of files as stored and as read, or
/// `OutOfMemory`.
pub fn collect_files(alloc: Global, files: &[PlacedFile<'_>]) -> Result<WrittenFiles>
    requires { total_rows file_records files.now ≤ MAX_ROWS }
    ensures { MatchResult result
        (λ written. (is_read : Bool) → HasWritten written (files_as is_read files.now))
        (λ e. e ≡ OutOfMemory) }
{
    let mut written = WrittenFiles::new(alloc);
    for file in files {
        written.collect(&header_and_rows(file))?;
    }
    Ok(written)
}

/// As [`collect_files`], of xorbs, and of their chunks if `chunk_table` is set.
pub fn collect_xorbs(
    alloc: Global,
    xorbs: &[PlacedXorb<'_>],
    chunk_table: bool,
) -> Result<WrittenXorbs>
    requires { total_rows xorb_records xorbs.now ≤ MAX_ROWS }
    ensures { MatchResult result (λ written. HasWrittenFor chunk_table written xorbs.now)
        (λ e. e ≡ OutOfMemory) }
{
    if chunk_table {
        return collect_with_chunks(alloc, xorbs);
    }
    collect_headers(alloc, xorbs)
}

fn collect_with_chunks(alloc: Global, xorbs: &[PlacedXorb<'_>]) -> Result<WrittenXorbs>
    requires { total_rows xorb_records xorbs.now ≤ MAX_ROWS }
    ensures { MatchResult result (λ written. HasWrittenFor true written xorbs.now)
        (λ e. e ≡ OutOfMemory) }
{
    let mut written = WrittenXorbs::new(alloc);
    for xorb in xorbs {
        written.collect(&header_and_rows(xorb))?;
    }
    Ok(written)
}

fn collect_headers(alloc: Global, xorbs: &[PlacedXorb<'_>]) -> Result<WrittenXorbs>
    requires { total_rows xorb_records xorbs.now ≤ MAX_ROWS }
    ensures { MatchResult result (λ written. HasWrittenFor false written xorbs.now)
        (λ e. e ≡ OutOfMemory) }
{
    let mut written = WrittenXorbs::new(alloc);
    for xorb in xorbs {
        xorb.is_stored();
        written.add(&xorb.header())?;
    }
    Ok(written)
}

fn header_and_rows<'a, P: PlacedRecord<'a>>(placed: &P) -> HeaderAndRows<'a, P::Header>
    ensures { StoresRecord P.kind result placed.now }
{
    P::laws();
    placed.is_stored();
    let (_, rows) = placed.bytes().split_at(ROW_SIZE);
    HeaderAndRows {
        header: placed.header(),
        rows,
    }
}
