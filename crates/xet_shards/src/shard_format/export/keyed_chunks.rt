//! Keying chunk hashes in place.

ghost use Rattle.std.specs.Prelude.{◌≡◌, ◌<◌, ◌≤◌, ◌++◌, length, map, take, drop};
ghost use Rattle.xet_base.specs.KeyedHash.{under_key};
ghost use Rattle.xet_shards.specs.Export.KeyedExport.{keyed_chunk, keyed_xorb};

use crate::shard_format::ends::footer_facts::keyed_hash;
use xet_base::merklehash::{HMACKey, MerkleHash};
use xet_records::rows::Rows;
use xet_records::xorb_structs::{MDBXorbInfo, XorbChunkSequenceEntry};

/// The xorb with its chunk hashes under a key; the key of zeros is none.
pub fn with_keyed_hashes(xorb: MDBXorbInfo, key: HMACKey) -> MDBXorbInfo
    ensures { result ≡ keyed_xorb key xorb }
{
    let MDBXorbInfo { metadata, chunks } = xorb;
    let mut chunks = chunks.into_vec();
    key_chunks(&mut chunks, key);
    MDBXorbInfo {
        metadata,
        chunks: Rows::from(chunks),
    }
}

fn key_chunks(chunks: &mut [XorbChunkSequenceEntry], key: HMACKey)
    ensures { chunks.new ≡ map (keyed_chunk key) chunks.old }
{
    let mut done = 0;
    while done < chunks.len() {
        done += key_first(&mut chunks[done..], key);
    }
}

// Keys the first four chunks, or the first if there are fewer, and returns how many.
fn key_first(chunks: &mut [XorbChunkSequenceEntry], key: HMACKey) -> usize
    requires { 0 < length chunks.old }
    ensures some { 0 < result }
    ensures most { result ≤ length chunks.old }
    ensures keyed { chunks.new
        ≡ map (keyed_chunk key) (take result chunks.old) ++ drop result chunks.old }
{
    if chunks.len() < 4 {
        chunks[0].chunk_hash = keyed_hash(chunks[0].chunk_hash, key);
        return 1;
    }
    let hashes = [
        chunks[0].chunk_hash,
        chunks[1].chunk_hash,
        chunks[2].chunk_hash,
        chunks[3].chunk_hash,
    ];
    let [a, b, c, d] = keyed_four(&hashes, key);
    chunks[0].chunk_hash = a;
    chunks[1].chunk_hash = b;
    chunks[2].chunk_hash = c;
    chunks[3].chunk_hash = d;
    4
}

// As `keyed_hash`, of four.
fn keyed_four(hashes: &[MerkleHash; 4], key: HMACKey) -> [MerkleHash; 4]
    ensures { result ≡ map (under_key key) hashes.now }
{
    if key == HMACKey::default() {
        *hashes
    } else {
        MerkleHash::hmac_four(hashes, key)
    }
}
