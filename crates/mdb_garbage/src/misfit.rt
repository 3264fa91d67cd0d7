//! The misfits of a xorb, and of a segment beside its xorb.

ghost use Rattle.std.specs.Prelude.{◌≡◌, ◌↔◌, ◌<◌, Some, length};
ghost use Rattle.xet_records.specs.XorbRecord.{HasItsChunks, total_bytes};
ghost use Rattle.mdb_garbage.specs.declared.finding.Misfit.{Misfit};
ghost use Rattle.mdb_garbage.specs.Garbage.{IsTotal, IsStart, IsOfSegment};

use crate::finding::{Misfit, Segment};
use xet_records::xorb_structs::{MDBXorbInfo, XorbChunkSequenceEntry};

/// The misfit that a xorb's own number of bytes is not the sum of its chunks', if it is not.
pub fn total_misfit(xorb: &MDBXorbInfo) -> Option<Misfit>
    requires { HasItsChunks xorb.now }
    ensures { (misfit : Misfit) → (result ≡ Some misfit) ↔ IsTotal xorb.now misfit }
{
    prove!(xorb.chunks.len() as u64 == u64::from(xorb.metadata.num_entries));
    let said = xorb.metadata.num_bytes_in_xorb;
    let sum = sum_of_bytes(xorb.chunks.as_slice());
    if u64::from(said) == sum {
        None
    } else {
        Some(Misfit::Total { said, sum })
    }
}

/// The first chunk of a xorb whose start is not the sum of the bytes before it.
pub fn start_misfit(xorb: &MDBXorbInfo) -> Option<Misfit>
    requires { HasItsChunks xorb.now }
    ensures { (misfit : Misfit) → (result ≡ Some misfit) ↔ IsStart xorb.now misfit }
{
    prove!(xorb.chunks.len() as u64 == u64::from(xorb.metadata.num_entries));
    let chunks = xorb.chunks.as_slice();
    let mut sum = 0;
    let mut index = 0;
    while index < chunks.len() {
        let said = chunks[index].chunk_byte_range_start;
        if u64::from(said) != sum {
            return Some(Misfit::Start { index, said, sum });
        }
        sum += u64::from(chunks[index].unpacked_segment_bytes);
        index += 1;
    }
    None
}

/// What is wrong with a segment beside a xorb with the hash that it names.
pub fn segment_misfit(segment: &Segment, xorb: &MDBXorbInfo) -> Option<Misfit>
    requires { HasItsChunks xorb.now }
    ensures { (misfit : Misfit) → (result ≡ Some misfit) ↔ IsOfSegment segment.now xorb.now misfit }
{
    prove!(xorb.chunks.len() as u64 == u64::from(xorb.metadata.num_entries));
    let chunks = xorb.chunks.as_slice();
    let (start, end) = (segment.start as usize, segment.end as usize);
    if start >= end || end > chunks.len() {
        return Some(Misfit::Outside(*segment, chunks.len()));
    }
    let sum = sum_of_bytes(&chunks[start..end]);
    if sum == u64::from(segment.bytes) {
        None
    } else {
        Some(Misfit::Bytes(*segment, sum))
    }
}

// The bytes of chunks together, which are fewer than 2 ^ 32.
fn sum_of_bytes(chunks: &[XorbChunkSequenceEntry]) -> u64
    requires { length chunks.now < 4294967296 }
    ensures { result ≡ total_bytes chunks.now }
{
    let mut sum = 0;
    for chunk in chunks {
        sum += u64::from(chunk.unpacked_segment_bytes);
    }
    sum
}
