//! Segments that are sorted once, so that each search among them takes logarithmic time.

ghost use Rattle.std.specs.Prelude.{◌≡◌, ◌↔◌, ◌≤◌, true, false, length, Contains};
ghost use Rattle.std.specs.List.Sorted.{IsPartitionPoint, IsPermutation, IsSorted};
ghost use Rattle.std.proofs.Props.{props};
ghost use Rattle.mdb_garbage.specs.declared.finding.Segment.{Segment as Named};
ghost use Rattle.mdb_garbage.specs.Order.{segment_cmp, is_before, is_up_to};

use crate::finding::Segment;
use xet_base::merklehash::MerkleHash;

/// Segments in ascending order, first of the hashes that they name.
#[derive(Drop)]
pub(crate) struct SortedSegments {
    pub(crate) items: Vec<Segment>,
    ghost sorted: { IsSorted segment_cmp items.items } by { Prim.hlevel props },
}

impl SortedSegments {
    /// Sorts these segments.
    pub(crate) fn of(mut items: Vec<Segment>) -> SortedSegments
        ensures { IsPermutation items.items result.items.items }
    {
        items.sort_unstable();
        SortedSegments { items }
    }

    /// The segments that name a hash.
    pub(crate) fn naming_hash(&self, hash: MerkleHash) -> &[Segment]
        ensures { (s : Named) → Contains result.now s
            ↔ (Contains self.now.items.items s × (s.xorb ≡ hash)) }
    {
        let segments = self.items.as_slice();
        let start = start_of(segments, hash);
        let end = end_of(segments, hash);
        prove!(start <= end);
        &segments[start..end]
    }
}

// How many segments name lesser hashes.
fn start_of(segments: &[Segment], hash: MerkleHash) -> usize
    requires { IsSorted segment_cmp segments.now }
    ensures bound { result ≤ length segments.now }
    ensures point { IsPartitionPoint (λ s. is_before hash s ≡ true) (λ s. is_before hash s ≡ false)
        segments.now result }
{
    segments.partition_point(
        |segment: &Segment| -> bool
            ensures { result ≡ is_before hash segment.now }
        { segment.xorb < hash },
    )
}

// How many segments name hashes that are not greater.
fn end_of(segments: &[Segment], hash: MerkleHash) -> usize
    requires { IsSorted segment_cmp segments.now }
    ensures bound { result ≤ length segments.now }
    ensures point { IsPartitionPoint (λ s. is_up_to hash s ≡ true) (λ s. is_up_to hash s ≡ false)
        segments.now result }
{
    segments.partition_point(
        |segment: &Segment| -> bool
            ensures { result ≡ is_up_to hash segment.now }
        { !(hash < segment.xorb) },
    )
}
