//! Adding findings to a list, or an error if memory lacks.

ghost use Rattle.std.specs.Prelude.{◌≡◌, ◌↔◌, Some, OnOk};
ghost use Rattle.xet_records.specs.XorbRecord.{HasItsChunks};
ghost use Rattle.mdb_garbage.specs.declared.finding.Misfit.{Misfit as AMisfit};
ghost use Rattle.mdb_garbage.specs.Garbage.{IsOfSegment};
ghost use Rattle.mdb_garbage.specs.Steps.{Adds, IsFound, IsOfXorbAmong, IsOneOf, IsUnnamed, IsLacking};

use crate::finding::{GarbageFinding, Misfit, Segment};
use crate::misfit::{segment_misfit, start_misfit, total_misfit};
use crate::sorted::SortedSegments;
use std::alloc::AllocError;
use xet_base::merklehash::MerkleHash;
use xet_base::sorted_hashes::SortedHashes;
use xet_records::xorb_structs::MDBXorbInfo;

/// Adds the misfits of a xorb, and of these segments, which name it.
pub(crate) fn add_xorb_misfits(
    found: &mut Vec<GarbageFinding>,
    segments: &[Segment],
    xorb: &MDBXorbInfo,
) -> Result<(), AllocError>
    requires { HasItsChunks xorb.now }
    ensures { OnOk result
        (Adds (IsOfXorbAmong segments.now xorb.now) found.old.items found.new.items) }
{
    let hash = xorb.metadata.xorb_hash;
    add_misfit(found, hash, total_misfit(xorb))?;
    add_misfit(found, hash, start_misfit(xorb))?;
    add_segment_misfits(found, segments, xorb)?;
    Ok(())
}

// Adds the misfits of segments that name a xorb.
fn add_segment_misfits(
    found: &mut Vec<GarbageFinding>,
    segments: &[Segment],
    xorb: &MDBXorbInfo,
) -> Result<(), AllocError>
    requires { HasItsChunks xorb.now }
    ensures { OnOk result
        (Adds (IsOneOf (λ s. xorb.now.metadata.xorb_hash) (λ s. IsOfSegment s xorb.now) segments.now)
        found.old.items found.new.items) }
{
    let mut index = 0;
    while index < segments.len() {
        let misfit = segment_misfit(&segments[index], xorb);
        add_misfit(found, xorb.metadata.xorb_hash, misfit)?;
        index += 1;
    }
    Ok(())
}

/// Adds the hashes that no segment names.
pub(crate) fn add_unnamed(
    found: &mut Vec<GarbageFinding>,
    hashes: &SortedHashes,
    segments: &SortedSegments,
) -> Result<(), AllocError>
    ensures { OnOk result
        (Adds (IsOneOf (λ h. h) (IsUnnamed segments.now.items.items) hashes.now.items.items)
        found.old.items found.new.items) }
{
    let items = hashes.items.as_slice();
    let mut index = 0;
    while index < items.len() {
        let misfit = unnamed_misfit(segments, items[index]);
        add_misfit(found, items[index], misfit)?;
        index += 1;
    }
    Ok(())
}

/// Adds the segments that name none of the hashes.
pub(crate) fn add_lacking(
    found: &mut Vec<GarbageFinding>,
    hashes: &SortedHashes,
    segments: &SortedSegments,
) -> Result<(), AllocError>
    ensures { OnOk result
        (Adds (IsOneOf (λ s. s.xorb) (IsLacking hashes.now.items.items) segments.now.items.items)
        found.old.items found.new.items) }
{
    let items = segments.items.as_slice();
    let mut index = 0;
    while index < items.len() {
        let misfit = lacking_misfit(hashes, &items[index]);
        add_misfit(found, items[index].xorb, misfit)?;
        index += 1;
    }
    Ok(())
}

// The misfit that no segment names a hash, if none does.
fn unnamed_misfit(segments: &SortedSegments, hash: MerkleHash) -> Option<Misfit>
    ensures { (misfit : AMisfit) → (result ≡ Some misfit)
        ↔ IsUnnamed segments.now.items.items hash misfit }
{
    if segments.naming_hash(hash).is_empty() {
        Some(Misfit::Unnamed)
    } else {
        None
    }
}

// The misfit that a segment names none of the hashes, if it names none.
fn lacking_misfit(hashes: &SortedHashes, segment: &Segment) -> Option<Misfit>
    ensures { (misfit : AMisfit) → (result ≡ Some misfit)
        ↔ IsLacking hashes.now.items.items segment.now misfit }
{
    if hashes.contains(&segment.xorb) {
        None
    } else {
        Some(Misfit::Lacking(*segment))
    }
}

// Adds a misfit, if there is one.
fn add_misfit(
    found: &mut Vec<GarbageFinding>,
    xorb: MerkleHash,
    misfit: Option<Misfit>,
) -> Result<(), AllocError>
    ensures { OnOk result (Adds (IsFound xorb misfit) found.old.items found.new.items) }
{
    match misfit {
        Some(misfit) => {
            found.push(GarbageFinding { xorb, misfit })?;
            Ok(())
        }
        None => Ok(()),
    }
}
