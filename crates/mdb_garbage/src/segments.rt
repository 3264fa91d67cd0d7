//! The segments of files by the xorbs that they name.

ghost use Rattle.std.specs.Prelude.{◌≡◌, [], ◌∷◌, ◌++◌, List, OnOk};
ghost use Rattle.xet_records.specs.declared.file_structs.MDBFileInfo.{MDBFileInfo as File};
ghost use Rattle.mdb_garbage.specs.Garbage.{segment_at};
ghost use Rattle.mdb_garbage.specs.CollectedRanges.{HoldsSegments, in_range};
ghost use Rattle.mdb_garbage.specs.Steps.{PushesSegment, AddsFile, KeepsInRange};

use crate::finding::Segment;
use crate::range::HashRange;
use std::alloc::{AllocError, Global};
use xet_base::merklehash::MerkleHash;
use xet_records::file_structs::{FileDataSequenceEntry, MDBFileInfo};

/// The segments of some files that name xorbs in a range of hashes.
#[derive(Drop)]
pub struct Segments {
    pub range: HashRange,
    pub items: Vec<Segment>,
}

impl Segments {
    /// The segments of no files.
    pub fn new(alloc: Global, range: HashRange) -> Segments
        ensures range { result.range ≡ range }
        ensures none { HoldsSegments [] result.range result.items.items }
    {
        Segments {
            range,
            items: Vec::new(alloc),
        }
    }

    /// Adds those of a file. It fails only if memory is lacking.
    pub fn add_file(&mut self, file: &MDBFileInfo) -> Result<(), AllocError>
        ensures range { self.new.range ≡ self.old.range }
        ensures holds { OnOk result ((files : List File)
            → HoldsSegments files self.old.range self.old.items.items
            → HoldsSegments (files ++ file.now ∷ []) self.new.range self.new.items.items) }
    {
        add_segments(&mut self.items, self.range, file)?;
        Ok(())
    }

    /// Gives up about half of the segments, by making the range smaller at its end, unless all name
    /// the same xorb.
    pub fn halve(&mut self)
        ensures { (files : List File) → HoldsSegments files self.old.range self.old.items.items
            → HoldsSegments files self.new.range self.new.items.items }
    {
        self.items.sort_unstable();
        if let Some(limit) = middle_of(self.items.as_slice()) {
            self.range = self.range.below(limit);
            keep_in_range(&mut self.items, self.range);
        }
    }
}

// The first hash in the later half of sorted segments that is greater than that of the first one.
fn middle_of(segments: &[Segment]) -> Option<MerkleHash> {
    let first = segments.first()?;
    let later = &segments[segments.len() / 2..];
    for segment in later {
        if segment.xorb > first.xorb {
            return Some(segment.xorb);
        }
    }
    None
}

fn keep_in_range(segments: &mut Vec<Segment>, range: HashRange)
    ensures { KeepsInRange range (λ s. s.xorb) segments.old.items segments.new.items }
{
    segments.retain(
        |segment: &Segment| -> bool
            ensures { result ≡ in_range range segment.now.xorb }
        { range.has(&segment.xorb) },
    );
}

// Adds the segments of a file that name xorbs in a range.
fn add_segments(
    items: &mut Vec<Segment>,
    range: HashRange,
    file: &MDBFileInfo,
) -> Result<(), AllocError>
    ensures { OnOk result (AddsFile range file.now items.old.items items.new.items) }
{
    let segments = file.segments.as_slice();
    let mut index = 0;
    while index < segments.len() {
        let segment = segment_of(file, index, &segments[index]);
        push_in_range(items, range, segment)?;
        index += 1;
    }
    Ok(())
}

fn segment_of(file: &MDBFileInfo, index: usize, row: &FileDataSequenceEntry) -> Segment
    ensures { result ≡ segment_at file.now index row.now }
{
    Segment {
        xorb: row.xorb_hash,
        file: file.metadata.file_hash,
        index,
        start: row.chunk_index_start,
        end: row.chunk_index_end,
        bytes: row.unpacked_segment_bytes,
    }
}

fn push_in_range(
    items: &mut Vec<Segment>,
    range: HashRange,
    segment: Segment,
) -> Result<(), AllocError>
    ensures { OnOk result (PushesSegment range segment items.old.items items.new.items) }
{
    if range.has(&segment.xorb) {
        items.push(segment)?;
    }
    Ok(())
}
