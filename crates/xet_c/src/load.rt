//! Header and footer.

ghost use Rattle.std.specs.Prelude.{◌≡◌, ◌⊎◌};
ghost use Rattle.xet_core_structures.specs.declared.error.CoreError.{CoreError};
ghost use Rattle.xet_core_structures.specs.declared.shard_format.MDBShardInfo.{MDBShardInfo};
ghost use Rattle.xet_core_structures.specs.Errors.{variant_number};
ghost use Rattle.xet_core_structures.specs.Ends.{HasHeaderAndFooter};
ghost use Rattle.xet_core_structures.specs.TwoShards.ByteResults.{LoadRefusal};
ghost use Rattle.xet_c.specs.Arguments.{c_info};

use crate::output::error_number;
use shard_bytes::load::load_bytes;
use std::alloc::Global;
use xet_core_structures::error::CoreError;
use xet_core_structures::shard_format::MDBShardInfo;

/// All numbers of header and footer: rows of the tables, times in seconds, sizes, offsets of the
/// parts in bytes, and the size of the footer by the header.
#[repr(C)]
#[derive(Clone, Copy, Drop)]
pub struct XetInfo {
    pub version: u64,
    pub files: u64,
    pub xorbs: u64,
    pub chunks: u64,
    pub key: [u64; 4],
    pub creation: u64,
    pub expiry: u64,
    pub stored_bytes_on_disk: u64,
    pub materialized_bytes: u64,
    pub stored_bytes: u64,
    pub file_section: u64,
    pub xorb_section: u64,
    pub file_table: u64,
    pub xorb_table: u64,
    pub chunk_table: u64,
    pub footer: u64,
    pub footer_size: u64,
    pub footer_version: u64,
    pub reserved: [u64; 6],
}

/// Reads header and footer of a shard, or of its first 48 and its last 200 bytes. After an error
/// `info` stays.
#[unsafe(no_mangle)]
pub extern "C" fn xet_load(alloc: Global, shard: &[u8], info: &mut XetInfo) -> u32
    ensures { ((i : MDBShardInfo) × HasHeaderAndFooter shard.now i × (info.new ≡ c_info i) × (result ≡ 0))
        ⊎ ((e : CoreError) × LoadRefusal shard.now e × (info.new ≡ info.old)
        × (result ≡ variant_number e)) }
{
    match load_bytes(alloc, shard) {
        Ok(loaded) => {
            *info = info_of(&loaded);
            0
        }
        Err(error) => error_number(&error),
    }
}

fn info_of(info: &MDBShardInfo) -> XetInfo
    ensures { result ≡ c_info info.now }
{
    let footer = &info.metadata;
    let key = footer.chunk_hash_hmac_key;
    XetInfo {
        version: info.header.version,
        files: footer.file_lookup_num_entry,
        xorbs: footer.xorb_lookup_num_entry,
        chunks: footer.chunk_lookup_num_entry,
        key: [key.word0, key.word1, key.word2, key.word3],
        creation: footer.shard_creation_timestamp,
        expiry: footer.shard_key_expiry,
        stored_bytes_on_disk: footer.stored_bytes_on_disk,
        materialized_bytes: footer.materialized_bytes,
        stored_bytes: footer.stored_bytes,
        file_section: footer.file_info_offset,
        xorb_section: footer.xorb_info_offset,
        file_table: footer.file_lookup_offset,
        xorb_table: footer.xorb_lookup_offset,
        chunk_table: footer.chunk_lookup_offset,
        footer: footer.footer_offset,
        footer_size: info.header.footer_size,
        footer_version: footer.version,
        reserved: footer._buffer,
    }
}
