//! The search for a run of hashes in a shard in memory.

ghost use Rattle.std.specs.Prelude.{◌≡◌, ◌≤◌, ◌↔◌, None, length};
ghost use Rattle.xet_base.specs.KeyedHash.{no_key};
ghost use Rattle.xet_records.specs.XorbRecord.{IsXorb};
ghost use Rattle.xet_shards.specs.ShardInMemory.ChunkQuery.{run_length, run_at, query_answer, HasNoChunk};

use super::xorb_store::XorbStore;
use xet_base::merklehash::MerkleHash;
use xet_records::file_structs::FileDataSequenceEntry;
use xet_records::xorb_structs::{MDBXorbInfo, XorbChunkSequenceEntry};

/// See `MDBInMemoryShard::chunk_hash_dedup_query`.
pub fn chunk_hash_dedup_query(
    xorbs: &XorbStore,
    query_hashes: &[MerkleHash],
) -> Option<(usize, FileDataSequenceEntry)>
    ensures answer { result ≡ query_answer xorbs.now.locations query_hashes.now }
    ensures none { (result ≡ None) ↔ HasNoChunk xorbs.now.xorbs query_hashes.now }
{
    let (xorb, index) = xorbs.lookup().get(query_hashes.first()?)?;
    Some(run_at(xorb.as_ref(), *index, query_hashes))
}

fn run_at(
    xorb: &MDBXorbInfo,
    index: u64,
    query_hashes: &[MerkleHash],
) -> (usize, FileDataSequenceEntry)
    requires well_formed { IsXorb xorb.now }
    requires within { index ≤ length xorb.now.chunks }
    ensures { result ≡ run_at no_key (xorb.now, index) query_hashes.now }
{
    let start = index as usize;
    let chunks = &xorb.chunks.as_slice()[start..];
    let length = run_length(query_hashes, chunks);
    let end = start + length;
    let segment = FileDataSequenceEntry::from_xorb_entries(
        &xorb.metadata,
        &chunks[..length],
        start as u32,
        end as u32,
    );
    (length, segment)
}

// How many hashes equal those of the chunks, from the first on.
fn run_length(query_hashes: &[MerkleHash], chunks: &[XorbChunkSequenceEntry]) -> usize
    ensures count { result ≡ run_length no_key query_hashes.now chunks.now }
    ensures within { result ≤ length chunks.now }
{
    query_hashes
        .iter()
        .zip(chunks)
        .take_while(|(query_hash, chunk)| **query_hash == chunk.chunk_hash)
        .count()
}
