//! What the union of two shards makes of two records with one hash.

ghost use Rattle.std.specs.Prelude.{◌≡◌, Option, None, Some, MatchOption, MatchResult};
ghost use Rattle.xet_base.specs.declared.error.CoreError.TheVariants.{OutOfMemory};
ghost use Rattle.xet_records.specs.declared.file_structs.MDBFileInfo.{MDBFileInfo};
ghost use Rattle.xet_records.specs.declared.xorb_structs.MDBXorbInfo.{MDBXorbInfo};
ghost use Rattle.xet_records.specs.FileRecord.{as_read, file_record_bytes, file_records};
ghost use Rattle.xet_records.specs.Merging.{IncludesBits};
ghost use Rattle.xet_core_structures.specs.Records.ByteUnion.{IsEitherFile, IsEitherXorb, mixed_file};
ghost use Rattle.placed_shards.specs.Steps.SetsSteps.{MakesNone, MakesRecord};

use crate::placed_file::PlacedFile;
use crate::placed_record::PlacedRecord;
use crate::placed_xorb::PlacedXorb;
use crate::sets::Union;
use bumpalo::Bump;
use std::alloc::Global;
use xet_base::error::{CoreError, Result};
use xet_base::source::MemorySource;
use xet_core_structures::set_operations::mix_rows;
use xet_records::file_structs::{FileDataSequenceHeader, SupersetResult};
use xet_records::rows::{ROW_LIMIT, ROW_SIZE, Row};

/// Of two files the one whose flags include the other's, the first if they are equal; else a mix,
/// with each optional part from the first if it has it. Of two xorbs the first.
pub struct OfUnion {}

impl<'a> Union<'a, PlacedFile<'a>> for OfUnion {
    ghost makes = { IsEitherFile };

    fn make(
        alloc: Global,
        arena: &'a Bump,
        first: &PlacedFile<'a>,
        second: &PlacedFile<'a>,
    ) -> Result<Option<PlacedFile<'a>>> {
        match FileDataSequenceHeader::compare_flag_superset(&first.header(), &second.header()) {
            SupersetResult::Equal | SupersetResult::SuperA => Ok(Some(first.copy())),
            SupersetResult::SuperB => Ok(Some(second.copy())),
            SupersetResult::Neither => place_mix(alloc, arena, first, second),
        }
    }

    fn laws()
        ensures nothing { IsEitherFile None None None }
        ensures first_alone { (r : MDBFileInfo) → IsEitherFile (Some r) None (Some r) }
        ensures second_alone { (r : MDBFileInfo) → IsEitherFile None (Some r) (Some r) }
        ensures made_once { (a b c d : Option MDBFileInfo) → IsEitherFile a b c → IsEitherFile a b d → c ≡ d }
    {}
}

// A mix in the arena. `None` if the files differ in their count of segments, or it has too many
// rows for a section.
fn place_mix<'a>(
    alloc: Global,
    arena: &'a Bump,
    first: &PlacedFile<'a>,
    second: &PlacedFile<'a>,
) -> Result<Option<PlacedFile<'a>>>
    requires hash { first.now.metadata.file_hash ≡ second.now.metadata.file_hash }
    requires lacks { ¬ IncludesBits first.now.metadata.file_flags second.now.metadata.file_flags }
    requires wants { ¬ IncludesBits second.now.metadata.file_flags first.now.metadata.file_flags }
    ensures { MatchResult result
        (λ made. MatchOption made (MakesNone file_records IsEitherFile first.now second.now)
        (MakesRecord file_records IsEitherFile first.now second.now))
        (λ e. e ≡ OutOfMemory) }
{
    first.is_stored();
    second.is_stored();
    let one = first.header();
    let other = second.header();
    let header = one.mix_with(&other);
    if one.num_entries != other.num_entries || header.rows_after() > ROW_LIMIT {
        return Ok(None);
    }
    let bytes = mixed_bytes(alloc, first, second)?;
    let placed = arena.try_alloc_slice_copy(bytes.as_slice())?;
    Ok(Some(PlacedFile::of_bytes(placed)))
}

// Only an allocation may fail, since the rows are there.
fn mixed_bytes(alloc: Global, first: &PlacedFile<'_>, second: &PlacedFile<'_>) -> Result<Vec<u8>>
    requires { first.now.metadata.num_entries ≡ second.now.metadata.num_entries }
    ensures { MatchResult result
        (λ bytes. bytes.items
        ≡ file_record_bytes (mixed_file (as_read first.now) (as_read second.now)))
        (λ e. e ≡ OutOfMemory) }
{
    first.is_stored();
    second.is_stored();
    let one = first.header();
    let other = second.header();
    let mut r1 = MemorySource::new(&first.bytes()[ROW_SIZE..]);
    let mut r2 = MemorySource::new(&second.bytes()[ROW_SIZE..]);
    let mut bytes = Vec::new(alloc);
    bytes.extend_from_slice(&one.mix_with(&other).to_bytes())?;
    match mix_rows::<MemorySource<'_>, MemorySource<'_>, Vec<u8>>(
        &one, &mut r1, &other, &mut r2, &mut bytes,
    ) {
        Ok(_) => Ok(bytes),
        Err(_) => Err(CoreError::OutOfMemory),
    }
}

impl<'a> Union<'a, PlacedXorb<'a>> for OfUnion {
    ghost makes = { IsEitherXorb };

    fn make(
        _alloc: Global,
        _arena: &'a Bump,
        first: &PlacedXorb<'a>,
        _second: &PlacedXorb<'a>,
    ) -> Result<Option<PlacedXorb<'a>>> {
        Ok(Some(first.copy()))
    }

    fn laws()
        ensures nothing { IsEitherXorb None None None }
        ensures first_alone { (r : MDBXorbInfo) → IsEitherXorb (Some r) None (Some r) }
        ensures second_alone { (r : MDBXorbInfo) → IsEitherXorb None (Some r) (Some r) }
        ensures made_once { (a b c d : Option MDBXorbInfo) → IsEitherXorb a b c → IsEitherXorb a b d → c ≡ d }
    {}
}
