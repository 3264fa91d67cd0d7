//! Walking through a section.

ghost use Rattle.std.specs.Prelude.{◌≡◌, ◌↔◌, ◌+◌, ◌<◌, ◌^◌, ℕ, List, Option, Some, MatchResult, drop, length};
ghost use Rattle.std.specs.FinMap as finite;
ghost use Rattle.xet_core_structures.specs.declared.error.CoreError.{CoreError};
ghost use Rattle.xet_core_structures.specs.declared.file_structs.MDBFileInfo.{MDBFileInfo};
ghost use Rattle.xet_core_structures.specs.declared.shard_format.MDBShardInfo.{MDBShardInfo};
ghost use Rattle.xet_core_structures.specs.declared.xorb_structs.MDBXorbInfo.{MDBXorbInfo};
ghost use Rattle.xet_core_structures.specs.Ends.{HasHeaderAndFooter};
ghost use Rattle.xet_core_structures.specs.FileRecord.{row_count, rows_after};
ghost use Rattle.xet_core_structures.specs.Records.ShardContents.{HasShard};
ghost use Rattle.xet_core_structures.specs.SectionReading.{files_of};
ghost use Rattle.xet_core_structures.specs.Shard.{Shard};
ghost use Rattle.xet_core_structures.specs.XorbRecord.{xorb_records, xorb_row_count};
ghost use Rattle.shard_bytes.specs.Walking.{HasFileAt, RefusesFileAt, HasXorbAt, RefusesXorbAt};
ghost use Rattle.shard_bytes.specs.Walking.{WalksFiles, WalksXorbs, IsSectionReadAs};
ghost use Rattle.shard_bytes.specs.Steps.WalkingSteps.{IsRead};

use std::alloc::Global;
use xet_core_structures::error::{CoreError, Result};
use xet_core_structures::file_structs::MDBFileInfo;
use xet_core_structures::shard_format::MDBShardInfo;
use xet_core_structures::source::MemorySource;
use xet_core_structures::xorb_structs::MDBXorbInfo;

/// The record at a row of the file section, or `None` at its bookend. The first is at row 0, the
/// next as many rows later as a record has.
///
/// Fails as [`MDBShardInfo::load_from_reader`] and [`MDBShardInfo::read_file_info`] do.
pub fn file_at(alloc: Global, bytes: &[u8], row: u32) -> Result<Option<MDBFileInfo>>
    ensures { MatchResult result (HasFileAt bytes.now row) (RefusesFileAt bytes.now row) }
{
    let mut source = MemorySource::new(bytes);
    let info = MDBShardInfo::load_from_reader(alloc, &mut source)?;
    unless_bookend(info.read_file_info(alloc, &mut source, row))
}

/// As [`file_at`], but of the xorb section. Fails as [`MDBShardInfo::load_from_reader`] and
/// [`MDBShardInfo::read_xorb_info`] do.
pub fn xorb_at(alloc: Global, bytes: &[u8], row: u32) -> Result<Option<MDBXorbInfo>>
    ensures { MatchResult result (HasXorbAt bytes.now row) (RefusesXorbAt bytes.now row) }
{
    let mut source = MemorySource::new(bytes);
    let info = MDBShardInfo::load_from_reader(alloc, &mut source)?;
    unless_bookend(info.read_xorb_info(alloc, &mut source, row))
}

/// Does nothing: [`file_at`] and [`xorb_at`], from row 0 on until they give `None`, give all
/// records of their section in order.
pub fn walks_meet_all_records()
    ensures files { (bytes : List ℕ) → (info : MDBShardInfo) → (found : List MDBFileInfo)
        → HasHeaderAndFooter bytes info
        → WalksFiles bytes found
        ↔ IsSectionReadAs (files_of info) (drop info.metadata.file_info_offset bytes) found }
    ensures xorbs { (bytes : List ℕ) → (info : MDBShardInfo) → (found : List MDBXorbInfo)
        → HasHeaderAndFooter bytes info
        → WalksXorbs bytes found
        ↔ IsSectionReadAs xorb_records (drop info.metadata.xorb_info_offset bytes) found }
    ensures files_of_shard { (s : Shard) → (bytes : List ℕ) → (found : List MDBFileInfo)
        → HasShard s bytes → WalksFiles bytes found ↔ (found ≡ finite.values s.files) }
    ensures xorbs_of_shard { (s : Shard) → (bytes : List ℕ) → (found : List MDBXorbInfo)
        → HasShard s bytes → WalksXorbs bytes found ↔ (found ≡ finite.values s.xorbs) }
{}

/// Does nothing: a row has at most one record or the bookend, which [`file_at`] and [`xorb_at`]
/// fail to give only with `OutOfMemory`. A record has one row more than its header announces.
pub fn rows_have_one_record()
    ensures one_file { (bytes : List ℕ) → (row : ℕ) → (x y : Option MDBFileInfo)
        → HasFileAt bytes row x → HasFileAt bytes row y → x ≡ y }
    ensures one_xorb { (bytes : List ℕ) → (row : ℕ) → (x y : Option MDBXorbInfo)
        → HasXorbAt bytes row x → HasXorbAt bytes row y → x ≡ y }
    ensures file_refused { (bytes : List ℕ) → (row : ℕ) → (found : Option MDBFileInfo)
        → (e : CoreError) → length bytes < 2 ^ 64 → HasFileAt bytes row found
        → RefusesFileAt bytes row e → e ≡ CoreError.OutOfMemory }
    ensures xorb_refused { (bytes : List ℕ) → (row : ℕ) → (found : Option MDBXorbInfo)
        → (e : CoreError) → length bytes < 2 ^ 64 → HasXorbAt bytes row found
        → RefusesXorbAt bytes row e → e ≡ CoreError.OutOfMemory }
    ensures file_rows { (bytes : List ℕ) → (row : ℕ) → (r : MDBFileInfo)
        → HasFileAt bytes row (Some r) → row_count r ≡ 1 + rows_after r.metadata }
    ensures xorb_rows { (bytes : List ℕ) → (row : ℕ) → (r : MDBXorbInfo)
        → HasXorbAt bytes row (Some r) → xorb_row_count r ≡ 1 + r.metadata.num_entries }
{}

/// `None` for the error of a bookend, `InternalError`.
pub(crate) fn unless_bookend<R: Drop>(read: Result<R>) -> Result<Option<R>>
    ensures { IsRead read result }
{
    match read {
        Ok(record) => Ok(Some(record)),
        Err(CoreError::InternalError(_)) => Ok(None),
        Err(error) => Err(error),
    }
}
