//! What the union of two shards that have to agree makes of two records with one hash.

ghost use Rattle.std.specs.Prelude.{◌≡◌, ◌↔◌, IsTrue, Option, None, Some, MatchResult};
ghost use Rattle.xet_base.specs.declared.error.CoreError.TheVariants.{OutOfMemory};
ghost use Rattle.xet_records.specs.declared.file_structs.MDBFileInfo.{MDBFileInfo};
ghost use Rattle.xet_records.specs.declared.xorb_structs.MDBXorbInfo.{MDBXorbInfo};
ghost use Rattle.xet_records.specs.FileRecord.{as_read};
ghost use Rattle.xet_records.specs.Merging.{Agree};
ghost use Rattle.xet_records.specs.Part.{rows_of};
ghost use Rattle.placed_shards.specs.Agreement.{AgreeOn, IsAgreedFile, IsAgreedXorb};

use crate::of_union::OfUnion;
use crate::placed_file::PlacedFile;
use crate::placed_record::PlacedRecord;
use crate::placed_xorb::PlacedXorb;
use crate::sets::Union;
use bumpalo::Bump;
use std::alloc::Global;
use xet_base::error::{CoreError, Result};
use xet_base::input::OfSource;
use xet_base::source::MemorySource;
use xet_records::file_structs::{MDBFileInfo, OptionalPart};
use xet_records::record_reader::SectionRecord;
use xet_records::rows::ROW_SIZE;

/// The union of two records that agree, as [`merge_agreeing`](crate::strict::merge_agreeing) says;
/// of others nothing is made.
pub struct OfAgreeing {}

impl<'a> Union<'a, PlacedFile<'a>> for OfAgreeing {
    ghost makes = { IsAgreedFile };

    fn make(
        alloc: Global,
        arena: &'a Bump,
        first: &PlacedFile<'a>,
        second: &PlacedFile<'a>,
    ) -> Result<Option<PlacedFile<'a>>> {
        if !files_agree(alloc, first, second)? {
            return Ok(None);
        }
        <OfUnion as Union<'a, PlacedFile<'a>>>::make(alloc, arena, first, second)
    }

    fn laws()
        ensures nothing { IsAgreedFile None None None }
        ensures first_alone { (r : MDBFileInfo) → IsAgreedFile (Some r) None (Some r) }
        ensures second_alone { (r : MDBFileInfo) → IsAgreedFile None (Some r) (Some r) }
        ensures made_once { (a b c d : Option MDBFileInfo) → IsAgreedFile a b c → IsAgreedFile a b d → c ≡ d }
    {}
}

// Whether two files agree, as reading returns them. Copies are not read.
pub(crate) fn files_agree(
    alloc: Global,
    first: &PlacedFile<'_>,
    second: &PlacedFile<'_>,
) -> Result<bool>
    ensures { MatchResult result
        (λ agreed. IsTrue agreed ↔ Agree (as_read first.now) (as_read second.now))
        (λ e. e ≡ OutOfMemory) }
{
    if are_copies::<PlacedFile<'_>>(first, second) {
        return Ok(true);
    }
    let one = read_file(alloc, first)?;
    let other = read_file(alloc, second)?;
    Ok(same_segments(&one, &other) && agree_on_parts(&one, &other))
}

pub(crate) fn are_copies<'a, P: PlacedRecord<'a>>(first: &P, second: &P) -> bool
    ensures { IsTrue result ↔ (first.now ≡ second.now) }
{
    P::laws();
    first.is_stored();
    second.is_stored();
    are_equal(first.bytes(), second.bytes())
}

fn are_equal(first: &[u8], second: &[u8]) -> bool
    ensures { IsTrue result ↔ (first.now ≡ second.now) }
{
    first == second
}

// Only an allocation may fail, since the rows are there.
fn read_file(alloc: Global, file: &PlacedFile<'_>) -> Result<MDBFileInfo>
    ensures { MatchResult result (λ found. found ≡ as_read file.now) (λ e. e ≡ OutOfMemory) }
{
    file.is_stored();
    let header = file.header();
    let bytes = file.bytes();
    let before = (bytes.len() / ROW_SIZE) as u64;
    let mut rows = MemorySource::new(&bytes[ROW_SIZE..]);
    match MDBFileInfo::read_rows_after::<OfSource, MemorySource<'_>>(
        alloc, &mut rows, header, before,
    ) {
        Ok(record) => Ok(record),
        Err(_) => Err(CoreError::OutOfMemory),
    }
}

fn same_segments(first: &MDBFileInfo, second: &MDBFileInfo) -> bool
    ensures { IsTrue result ↔ (first.now.segments ≡ second.now.segments) }
{
    first.segments == second.segments
}

fn agree_on_parts(first: &MDBFileInfo, second: &MDBFileInfo) -> bool
    ensures { IsTrue result ↔ ((part : OptionalPart) → AgreeOn part first.now second.now) }
{
    OptionalPart::ALL
        .iter()
        .all(|part| agree_on(first, second, *part))
}

// A part that one of two files lacks agrees.
fn agree_on(first: &MDBFileInfo, second: &MDBFileInfo, part: OptionalPart) -> bool
    ensures { IsTrue result ↔ AgreeOn part first.now second.now }
{
    !first.metadata.contains(part)
        || !second.metadata.contains(part)
        || same_part(first, second, part)
}

#[tactic(auto, using(crate::proofs::Equalities::row_agreed))]
fn same_part(first: &MDBFileInfo, second: &MDBFileInfo, part: OptionalPart) -> bool
    ensures { IsTrue result ↔ (rows_of part first.now ≡ rows_of part second.now) }
{
    match part {
        OptionalPart::Verification => same_verification(first, second),
        OptionalPart::MetadataExt => first.metadata_ext == second.metadata_ext,
        OptionalPart::AuxExt => first.aux_ext == second.aux_ext,
    }
}

fn same_verification(first: &MDBFileInfo, second: &MDBFileInfo) -> bool
    ensures { IsTrue result ↔ (first.now.verification ≡ second.now.verification) }
{
    first.verification == second.verification
}

impl<'a> Union<'a, PlacedXorb<'a>> for OfAgreeing {
    ghost makes = { IsAgreedXorb };

    fn make(
        _alloc: Global,
        _arena: &'a Bump,
        first: &PlacedXorb<'a>,
        second: &PlacedXorb<'a>,
    ) -> Result<Option<PlacedXorb<'a>>> {
        if !are_copies::<PlacedXorb<'a>>(first, second) {
            return Ok(None);
        }
        Ok(Some(first.copy()))
    }

    fn laws()
        ensures nothing { IsAgreedXorb None None None }
        ensures first_alone { (r : MDBXorbInfo) → IsAgreedXorb (Some r) None (Some r) }
        ensures second_alone { (r : MDBXorbInfo) → IsAgreedXorb None (Some r) (Some r) }
        ensures made_once { (a b c d : Option MDBXorbInfo) → IsAgreedXorb a b c → IsAgreedXorb a b d → c ≡ d }
    {}
}
