//! What is printed of a shard's files.

ghost use Rattle.std.specs.Prelude.{All, IfOk, MatchResult};
ghost use Rattle.xet_core_structures.specs.FileRecord.{FitsItsHeader};
ghost use Rattle.mdb_report.specs.FileReports.{ReportsFiles, HoldsFiles, FilesNotRead};

use mdb_records::records::FileReport;
use std::alloc::Global;
use xet_core_structures::error::CoreError;
use xet_core_structures::file_structs::MDBFileInfo;
use xet_core_structures::shard_format::MDBShardInfo;
use xet_core_structures::source::MemorySource;

/// The reports of a shard's files, in order.
///
/// Fails as [`MDBShardInfo::load_from_reader`] or [`MDBShardInfo::read_all_file_info_sections`].
pub fn file_reports(
    alloc: Global,
    bytes: &[u8],
    with_rows: bool,
) -> Result<Vec<FileReport>, CoreError>
    ensures { MatchResult result (λ reports. ReportsFiles bytes.now with_rows reports.items)
        (FilesNotRead bytes.now) }
{
    let files = read_files(alloc, bytes)?;
    let mut reports = Vec::new(alloc);
    for file in &files {
        reports.push(FileReport::of_file(alloc, file, with_rows)?)?;
    }
    Ok(reports)
}

pub(crate) fn read_files(alloc: Global, bytes: &[u8]) -> Result<Vec<MDBFileInfo>, CoreError>
    ensures read { MatchResult result (λ files. HoldsFiles bytes.now files.items)
        (FilesNotRead bytes.now) }
    ensures fits { IfOk result (λ files. All FitsItsHeader files.items) }
{
    let mut source = MemorySource::new(bytes);
    let info = MDBShardInfo::load_from_reader(alloc, &mut source)?;
    info.read_all_file_info_sections(alloc, &mut source)
}
