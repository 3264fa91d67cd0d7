//! Finding what does not fit together in files and xorbs.
//!
//! The segments of all files come first, and are sorted by the xorbs that they name. Then each xorb
//! is compared with those that name it. At the end it compares the hashes that segments name with
//! those of the xorbs.

ghost use Rattle.std.specs.Prelude.{◌≡◌, [], ◌∷◌, ◌++◌, List, OnOk, IfOk, All, Contains, None, true};
ghost use Rattle.std.specs.List.{Any};
ghost use Rattle.std.specs.List.Sorted.{IsStrictlySortedBy};
ghost use Rattle.xet_records.specs.XorbRecord.{HasItsChunks};
ghost use Rattle.xet_records.specs.declared.file_structs.MDBFileInfo.{MDBFileInfo as File};
ghost use Rattle.xet_records.specs.declared.xorb_structs.MDBXorbInfo.{MDBXorbInfo as Xorb};
ghost use Rattle.mdb_garbage.specs.CollectedRanges.{HoldsSegments, in_range};
ghost use Rattle.mdb_garbage.specs.Reports.{HasSeen, Reports, ReportsAll};
ghost use Rattle.mdb_garbage.specs.Steps.{KeepsInRange, IsInOrder};

use crate::adding::{add_lacking, add_unnamed, add_xorb_misfits};
use crate::finding::GarbageFinding;
use crate::range::HashRange;
use crate::segments::Segments;
use crate::sorted::SortedSegments;
use std::alloc::{AllocError, Global};
use xet_base::merklehash::MerkleHash;
use xet_base::sorted_hashes::SortedHashes;
use xet_records::file_structs::MDBFileInfo;
use xet_records::xorb_structs::MDBXorbInfo;

/// What was found so far in xorbs with hashes in a range, and the segments that name such.
#[derive(Drop)]
pub struct Garbage {
    pub range: HashRange,
    pub(crate) segments: SortedSegments,
    /// The hashes of the xorbs.
    pub(crate) xorbs: Vec<MerkleHash>,
    pub(crate) found: Vec<GarbageFinding>,
}

impl Garbage {
    /// Before any xorb, with the segments of all files.
    pub fn new(alloc: Global, segments: Segments) -> Garbage
        ensures range { result.range ≡ segments.range }
        ensures seen { (files : List File) → HoldsSegments files segments.range segments.items.items
            → HasSeen files [] result }
    {
        Garbage {
            range: segments.range,
            segments: SortedSegments::of(segments.items),
            xorbs: Vec::new(alloc),
            found: Vec::new(alloc),
        }
    }

    /// Adds a xorb. It fails only if memory is lacking.
    pub fn add_xorb(&mut self, xorb: &MDBXorbInfo) -> Result<(), AllocError>
        requires { HasItsChunks xorb.now }
        ensures range { self.new.range ≡ self.old.range }
        ensures seen { OnOk result ((files : List File) → (xorbs : List Xorb)
            → HasSeen files xorbs self.old → HasSeen files (xorbs ++ xorb.now ∷ []) self.new) }
    {
        let hash = xorb.metadata.xorb_hash;
        if !self.range.has(&hash) {
            return Ok(());
        }
        self.xorbs.push(hash)?;
        add_xorb_misfits(&mut self.found, self.segments.naming_hash(hash), xorb)?;
        Ok(())
    }

    /// How many hashes and findings are kept.
    pub fn len(&self) -> usize {
        self.xorbs.len().saturating_add(self.found.len())
    }

    /// Gives up about half of what is kept, by making the range smaller at its end, unless all is
    /// about the same hash.
    pub fn halve(&mut self)
        ensures { (files : List File) → (xorbs : List Xorb)
            → HasSeen files xorbs self.old → HasSeen files xorbs self.new }
    {
        self.xorbs.sort_unstable();
        if let Some(limit) = middle_of(self.xorbs.as_slice()) {
            self.range = self.range.below(limit);
            keep_hashes(&mut self.xorbs, self.range);
            keep_findings(&mut self.found, self.range);
        }
    }

    /// All that does not fit together and is about hashes in the range, in ascending order. It fails
    /// only if memory is lacking.
    pub fn finish(self) -> Result<Vec<GarbageFinding>, AllocError>
        ensures { IfOk result (λ found. (files : List File) → (xorbs : List Xorb)
            → HasSeen files xorbs self → Reports self.range files xorbs found.items) }
    {
        let Garbage {
            range,
            segments,
            xorbs,
            mut found,
        } = self;
        let xorbs = SortedHashes::of(xorbs);
        add_unnamed(&mut found, &xorbs, &segments)?;
        add_lacking(&mut found, &xorbs, &segments)?;
        Ok(in_order(found, range))
    }
}

/// All that does not fit together in these files and xorbs, in ascending order, first of the hashes
/// that it is about. It fails only if memory is lacking.
pub fn find_garbage(
    alloc: Global,
    files: &[MDBFileInfo],
    xorbs: &[MDBXorbInfo],
) -> Result<Vec<GarbageFinding>, AllocError>
    requires { All HasItsChunks xorbs.now }
    ensures { IfOk result (λ found. ReportsAll files.now xorbs.now found.items) }
{
    let mut garbage = Garbage::new(alloc, all_segments(alloc, files)?);
    for xorb in xorbs {
        garbage.add_xorb(xorb)?;
    }
    let found = garbage.finish()?;
    Ok(found)
}

fn all_segments(alloc: Global, files: &[MDBFileInfo]) -> Result<Segments, AllocError>
    ensures all { IfOk result (λ segments. segments.range ≡ record { from = None; to = None }) }
    ensures holds { IfOk result
        (λ segments. HoldsSegments files.now segments.range segments.items.items) }
{
    let mut segments = Segments::new(alloc, HashRange::all());
    for file in files {
        segments.add_file(file)?;
    }
    Ok(segments)
}

// The first hash in the later half of sorted hashes that is greater than the first one.
fn middle_of(hashes: &[MerkleHash]) -> Option<MerkleHash> {
    let first = *hashes.first()?;
    let later = &hashes[hashes.len() / 2..];
    for hash in later {
        if *hash > first {
            return Some(*hash);
        }
    }
    None
}

fn keep_hashes(hashes: &mut Vec<MerkleHash>, range: HashRange)
    ensures { KeepsInRange range (λ h. h) hashes.old.items hashes.new.items }
{
    hashes.retain(
        |hash: &MerkleHash| -> bool
            ensures { result ≡ in_range range hash.now }
        { range.has(hash) },
    );
}

fn keep_findings(found: &mut Vec<GarbageFinding>, range: HashRange)
    ensures { KeepsInRange range (λ f. f.xorb) found.old.items found.new.items }
{
    found.retain(
        |finding: &GarbageFinding| -> bool
            ensures { result ≡ in_range range finding.now.xorb }
        { range.has(&finding.xorb) },
    );
}

// The findings about hashes in a range, each once, in ascending order.
fn in_order(mut found: Vec<GarbageFinding>, range: HashRange) -> Vec<GarbageFinding>
    ensures { IsInOrder range found.items result.items }
{
    keep_findings(&mut found, range);
    sort_once(&mut found);
    found
}

// Sorts values, and leaves one of those that are equal.
fn sort_once<T: Ord + Drop>(items: &mut Vec<T>)
    ensures each { (x : T) → Contains items.new.items x → Contains items.old.items x }
    ensures all { (x : T) → Contains items.old.items x
        → Any (λ y. T.eq x y ≡ true) items.new.items }
    ensures ascend { IsStrictlySortedBy T.cmp items.new.items }
{
    items.sort_unstable();
    items.dedup();
}
