//! Whether a shard may have the chunks of a xorb, without a list of them.

ghost use Rattle.std.specs.Prelude.{◌≡◌, ◌↔◌, ◌≤◌, List, flat_map, length, All, IsTrue};
ghost use Rattle.xet_records.specs.declared.xorb_structs.XorbChunkSequenceEntry.{XorbChunkSequenceEntry};
ghost use Rattle.xet_records.specs.XorbRecord.{total_bytes};
ghost use Rattle.xet_records.specs.XorbRow.{FitsChunk, chunk_row};

use xet_records::record_bytes::row;
use xet_records::rows::ROW_SIZE;
use xet_records::xorb_structs::{MAX_XORB_BYTES, XorbChunkSequenceEntry};

/// Whether the chunks in these rows have at most 4294967295 bytes together.
pub fn have_few_bytes(rows: &[u8]) -> bool
    ensures { (chunks : List XorbChunkSequenceEntry) → All FitsChunk chunks
        → rows.now ≡ flat_map chunk_row chunks
        → IsTrue result ↔ (total_bytes chunks ≤ 4294967295) }
{
    let mut bytes = 0u64;
    let mut rest = rows;
    while rest.len() >= ROW_SIZE {
        let chunk: XorbChunkSequenceEntry = row(rest, 0);
        bytes += u64::from(chunk.unpacked_segment_bytes);
        if bytes > MAX_XORB_BYTES {
            return false;
        }
        let (_chunk, after) = rest.split_at(ROW_SIZE);
        rest = after;
    }
    true
}
