//! Files without some of their optional parts.

ghost use Rattle.std.specs.Prelude.{◌≡◌, map, IsTrue, MatchResult};
ghost use Rattle.xet_base.specs.declared.error.CoreError.{CoreError};
ghost use Rattle.xet_records.specs.declared.file_structs.MDBFileInfo.{MDBFileInfo};
ghost use Rattle.xet_records.specs.FileRecord.{file_record_bytes};
ghost use Rattle.xet_records.specs.View.{as_kept};
ghost use Rattle.xet_records.specs.Steps.ViewSteps.{keeps};

use crate::placed_file::PlacedFile;
use crate::placed_record::PlacedRecord;
use bumpalo::Bump;
use bumpalo::collections::into_bump_slice;
use xet_base::error::Result;
use xet_records::file_structs::{FileDataSequenceHeader, KeptParts, OptionalPart};
use xet_records::record_bytes::part as rows_at;
use xet_records::rows::{ROW_SIZE, Row};

/// The files with these of their parts, or `OutOfMemory`.
pub(crate) fn all_with_parts<'a>(
    arena: &'a Bump,
    mut files: Vec<PlacedFile<'a>>,
    kept: KeptParts,
) -> Result<Vec<PlacedFile<'a>>>
    ensures { MatchResult result (λ made. made.items ≡ map (as_kept kept) files.entry.items)
        (λ e. e ≡ CoreError.OutOfMemory) }
{
    for index in 0..files.len() {
        files[index] = with_parts(arena, &files[index], kept)?;
    }
    Ok(files)
}

// A file without other parts stays where it lies.
fn with_parts<'a>(arena: &'a Bump, file: &PlacedFile<'a>, kept: KeptParts) -> Result<PlacedFile<'a>>
    ensures { MatchResult result (λ made. made ≡ as_kept kept file.now)
        (λ e. e ≡ CoreError.OutOfMemory) }
{
    file.is_stored();
    if has_no_others(file, kept) {
        return Ok(file.copy());
    }
    Ok(PlacedFile::of_bytes(kept_bytes(arena, file, kept)?))
}

fn is_kept(kept: KeptParts, part: OptionalPart) -> bool
    ensures { result ≡ keeps kept part }
{
    match part {
        OptionalPart::Verification => kept.verification,
        OptionalPart::MetadataExt => true,
        OptionalPart::AuxExt => kept.aux_ext,
    }
}

fn has_no_others(file: &PlacedFile<'_>, kept: KeptParts) -> bool
    ensures { IsTrue result → as_kept kept file.now ≡ file.now }
{
    file.is_stored();
    let header = file.header();
    (kept.verification | !header.contains_verification())
        & (kept.aux_ext | !header.contains_aux_ext())
}

fn kept_header(file: &PlacedFile<'_>, kept: KeptParts) -> FileDataSequenceHeader
    ensures { result ≡ (as_kept kept file.now).metadata }
{
    let header = file.header();
    let header = if header.contains_verification() & !kept.verification {
        let metadata_ext = header.contains_metadata_ext();
        let others = FileDataSequenceHeader::new(
            header.file_hash,
            header.num_entries,
            false,
            metadata_ext,
        );
        others.with_aux_ext(header.contains_aux_ext())
    } else {
        header
    };
    if kept.aux_ext {
        header
    } else {
        header.with_aux_ext(false)
    }
}

fn kept_bytes<'a>(arena: &'a Bump, file: &PlacedFile<'_>, kept: KeptParts) -> Result<&'a [u8]>
    ensures { MatchResult result (λ bytes. bytes.now ≡ file_record_bytes (as_kept kept file.now))
        (λ e. e ≡ CoreError.OutOfMemory) }
{
    file.is_stored();
    let header = file.header();
    let segments = header.num_entries as usize;
    let mut bytes = Vec::with_capacity(arena, file.bytes().len())?;
    bytes.extend_from_slice(&kept_header(file, kept).to_bytes())?;
    bytes.extend_from_slice(rows_at(file.bytes(), 1, segments))?;
    let mut at = 1 + segments;
    for part in OptionalPart::ALL {
        let rows = header.part_rows(part) as usize;
        if is_kept(kept, part) {
            bytes.extend_from_slice(rows_at(file.bytes(), at, rows))?;
        }
        at += rows;
    }
    Ok(into_bump_slice(bytes))
}
