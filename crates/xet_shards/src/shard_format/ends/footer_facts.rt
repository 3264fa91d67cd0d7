//! The values of a footer.

ghost use Rattle.std.specs.Prelude.{◌≡◌, ◌≢◌, ◌↔◌, IsTrue, None, Some, if◌then◌else◌};
ghost use Rattle.xet_base.specs.Hash.{hash_eq};
ghost use Rattle.xet_base.specs.KeyedHash.{no_key, under_key};

use super::info::MDBShardInfo;
use crate::shard_format::{FOOTER_SIZE, HEADER_SIZE};
use xet_base::merklehash::{HMACKey, MerkleHash};
use xet_records::rows::ROW_SIZE;

impl MDBShardInfo {
    /// The number of rows of the xorb table, 0 without one.
    pub fn num_xorb_entries(&self) -> u64
        ensures { result ≡ self.now.metadata.xorb_lookup_num_entry }
    {
        self.metadata.xorb_lookup_num_entry
    }

    /// The number of rows of the chunk table, 0 without one.
    pub fn total_num_chunks(&self) -> u64
        ensures { result ≡ self.now.metadata.chunk_lookup_num_entry }
    {
        self.metadata.chunk_lookup_num_entry
    }

    /// The size of the xorbs on disk, in bytes.
    pub fn stored_bytes_on_disk(&self) -> u64
        ensures { result ≡ self.now.metadata.stored_bytes_on_disk }
    {
        self.metadata.stored_bytes_on_disk
    }

    /// The size of the files, in bytes.
    pub fn materialized_bytes(&self) -> u64
        ensures { result ≡ self.now.metadata.materialized_bytes }
    {
        self.metadata.materialized_bytes
    }

    /// The unpacked size of the xorbs, in bytes.
    pub fn stored_bytes(&self) -> u64
        ensures { result ≡ self.now.metadata.stored_bytes }
    {
        self.metadata.stored_bytes
    }

    /// The offsets of the file section and of the next part, in bytes.
    pub fn file_info_byte_range(&self) -> (u64, u64)
        ensures { result
            ≡ (self.now.metadata.file_info_offset, self.now.metadata.xorb_info_offset) }
    {
        let footer = &self.metadata;
        (footer.file_info_offset, footer.xorb_info_offset)
    }

    /// The offsets of the xorb section and of the next part, in bytes.
    pub fn xorb_info_byte_range(&self) -> (u64, u64)
        ensures { result
            ≡ (self.now.metadata.xorb_info_offset, self.now.metadata.file_lookup_offset) }
    {
        let footer = &self.metadata;
        (footer.xorb_info_offset, footer.file_lookup_offset)
    }

    /// The offsets of the file table and of the next part, in bytes.
    pub fn file_lookup_byte_range(&self) -> (u64, u64)
        ensures { result
            ≡ (self.now.metadata.file_lookup_offset, self.now.metadata.xorb_lookup_offset) }
    {
        let footer = &self.metadata;
        (footer.file_lookup_offset, footer.xorb_lookup_offset)
    }

    /// The offsets of the xorb table and of the next part, in bytes.
    pub fn xorb_lookup_byte_range(&self) -> (u64, u64)
        ensures { result
            ≡ (self.now.metadata.xorb_lookup_offset, self.now.metadata.chunk_lookup_offset) }
    {
        let footer = &self.metadata;
        (footer.xorb_lookup_offset, footer.chunk_lookup_offset)
    }

    /// The offsets of the chunk table and of the next part, in bytes.
    pub fn chuck_lookup_byte_range(&self) -> (u64, u64)
        ensures { result
            ≡ (self.now.metadata.chunk_lookup_offset, self.now.metadata.footer_offset) }
    {
        let footer = &self.metadata;
        (footer.chunk_lookup_offset, footer.footer_offset)
    }

    /// The size of a shard without files and xorbs, in bytes.
    pub fn non_content_byte_size() -> u64
        ensures { result ≡ 344 }
    {
        HEADER_SIZE + FOOTER_SIZE + 2 * ROW_SIZE as u64
    }

    /// Whether the chunk hashes of the shard are keyed.
    pub fn chunk_hashes_protected(&self) -> bool
        ensures { IsTrue result ↔ (self.now.metadata.chunk_hash_hmac_key ≢ no_key) }
    {
        self.metadata.chunk_hash_hmac_key != HMACKey::default()
    }

    /// The key of the chunk hashes, or `None` if they are not keyed.
    pub fn chunk_hmac_key(&self) -> Option<HMACKey>
        ensures { result ≡ (if hash_eq self.now.metadata.chunk_hash_hmac_key no_key
            then None
            else Some self.now.metadata.chunk_hash_hmac_key) }
    {
        if self.metadata.chunk_hash_hmac_key == HMACKey::default() {
            None
        } else {
            Some(self.metadata.chunk_hash_hmac_key)
        }
    }

    /// A chunk's hash as the shard stores it: under its key, if it has one.
    pub fn keyed_chunk_hash(&self, hash: &MerkleHash) -> MerkleHash
        ensures { result ≡ under_key self.now.metadata.chunk_hash_hmac_key hash.now }
    {
        keyed_hash(*hash, self.metadata.chunk_hash_hmac_key)
    }
}

// The key of zeros leaves the hash as it is.
pub(in crate::shard_format) fn keyed_hash(hash: MerkleHash, key: HMACKey) -> MerkleHash
    ensures { result ≡ under_key key hash }
{
    if key == HMACKey::default() {
        hash
    } else {
        hash.hmac(key)
    }
}
