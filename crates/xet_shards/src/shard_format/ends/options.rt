//! Layout options.

ghost use Rattle.std.specs.Prelude.{◌≡◌};
ghost use Rattle.xet_shards.specs.Read.SectionsBehindHeader.{options_of};
ghost use Rattle.xet_shards.specs.StreamingShard.MinimalShard.{minimal_options};
ghost use Rattle.xet_shards.specs.Write.Layout.{plain_options};

use super::info::MDBShardInfo;
use xet_base::merklehash::HMACKey;
use xet_records::record_reader::FormatVersion;

/// How a shard is laid out. Timestamps are in seconds.
#[derive(Clone, Copy, Debug, PartialEq, Eq)]
pub struct LayoutOptions {
    pub version: FormatVersion,
    pub file_table: bool,
    pub xorb_table: bool,
    pub chunk_table: bool,
    /// All zero if the chunk hashes are not keyed.
    pub key: HMACKey,
    pub creation: u64,
    /// `u64::MAX` for no expiry, 0 in a minimal shard without one.
    pub expiry: u64,
}

impl LayoutOptions {
    /// Version 3, all tables, no key, creation 0, and this expiry or `u64::MAX`.
    pub fn plain(expiry: Option<u64>) -> LayoutOptions
        ensures { result ≡ plain_options expiry }
    {
        LayoutOptions {
            version: FormatVersion::V3,
            file_table: true,
            xorb_table: true,
            chunk_table: true,
            key: HMACKey::default(),
            creation: 0,
            expiry: expiry.unwrap_or(u64::MAX),
        }
    }

    /// Version 3, no tables, no key, a creation, and an expiry, or 0 if there is none.
    pub fn minimal(creation: u64, expiry: Option<u64>) -> LayoutOptions
        ensures { result ≡ minimal_options creation expiry }
    {
        LayoutOptions {
            version: FormatVersion::V3,
            file_table: false,
            xorb_table: false,
            chunk_table: false,
            key: HMACKey::default(),
            creation,
            expiry: expiry.unwrap_or(0),
        }
    }

    /// The options of a shard. A table is in if it has a row by the footer.
    pub fn of_info(info: &MDBShardInfo) -> LayoutOptions
        ensures { result ≡ options_of info.now }
    {
        let footer = &info.metadata;
        LayoutOptions {
            version: info.header.format_version(),
            file_table: footer.file_lookup_num_entry > 0,
            xorb_table: footer.xorb_lookup_num_entry > 0,
            chunk_table: footer.chunk_lookup_num_entry > 0,
            key: footer.chunk_hash_hmac_key,
            creation: footer.shard_creation_timestamp,
            expiry: footer.shard_key_expiry,
        }
    }
}
