//! Records as values, and values as records in an arena.

ghost use Rattle.std.specs.Prelude.{◌≡◌, ◌≤◌, MatchResult};
ghost use Rattle.xet_base.specs.declared.error.CoreError.{CoreError};
ghost use Rattle.xet_records.specs.FileRecord.{IsStored, rows_after};
ghost use Rattle.xet_records.specs.XorbRecord.{IsStoredXorb};
ghost use Rattle.xet_records.specs.Limits.{MAX_ROWS};

use crate::placed_file::PlacedFile;
use crate::placed_record::PlacedRecord;
use crate::placed_xorb::PlacedXorb;
use bumpalo::Bump;
use bumpalo::collections::into_bump_slice;
use std::alloc::Global;
use xet_base::error::{CoreError, Result};
use xet_records::file_structs::MDBFileInfo;
use xet_records::record_bytes::rows;
use xet_records::xorb_structs::MDBXorbInfo;

/// The record of a xorb, or `OutOfMemory`.
pub fn read_xorb(alloc: Global, xorb: &PlacedXorb<'_>) -> Result<MDBXorbInfo>
    ensures { MatchResult result (λ r. r ≡ xorb.now) (λ e. e ≡ CoreError.OutOfMemory) }
{
    xorb.is_stored();
    let metadata = xorb.header();
    let chunks = rows(alloc, xorb.bytes(), 1, metadata.num_entries as usize)?;
    Ok(MDBXorbInfo { metadata, chunks })
}

/// A xorb, as its bytes in the arena, or `OutOfMemory`.
pub fn place_xorb<'a>(arena: &'a Bump, xorb: &MDBXorbInfo) -> Result<PlacedXorb<'a>>
    requires { IsStoredXorb xorb.now }
    ensures { MatchResult result (λ placed. placed ≡ xorb.now) (λ e. e ≡ CoreError.OutOfMemory) }
{
    let mut bytes = Vec::with_capacity(arena, xorb.num_bytes() as usize)?;
    match xorb.serialize(&mut bytes) {
        Ok(_) => Ok(PlacedXorb::of_bytes(into_bump_slice(bytes))),
        // Writing to a vector fails only for memory.
        Err(_) => Err(CoreError::OutOfMemory),
    }
}

/// As [`place_xorb`], of a file.
pub fn place_file<'a>(arena: &'a Bump, file: &MDBFileInfo) -> Result<PlacedFile<'a>>
    requires stored { IsStored file.now }
    requires few { rows_after file.now.metadata ≤ MAX_ROWS }
    ensures { MatchResult result (λ placed. placed ≡ file.now) (λ e. e ≡ CoreError.OutOfMemory) }
{
    let mut bytes = Vec::with_capacity(arena, file.num_bytes() as usize)?;
    match file.serialize(&mut bytes) {
        Ok(_) => Ok(PlacedFile::of_bytes(into_bump_slice(bytes))),
        // Writing to a vector fails only for memory.
        Err(_) => Err(CoreError::OutOfMemory),
    }
}
