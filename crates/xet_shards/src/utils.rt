//! Hashes, names of shards and timestamps.

ghost use Rattle.std.specs.Prelude.{◌≡◌, ◌+◌, ◌^◌, ◌<◌, ◌≤◌, ◌↔◌, MatchResult, IsSome, IfSome, IfOk, IfErr, Some, string_bytes};
ghost use Rattle.xet_base.specs.Hash.{IsHash};
ghost use Rattle.xet_base.specs.declared.merklehash.DataHash.{DataHash};
ghost use Rattle.xet_shards.specs.Content.Names.{shard_name, IsShardName, NamesShard};

use std::alloc::Global;
use xet_base::error::{CoreError, Result};
use xet_base::merklehash::MerkleHash;

const SHARD_FILE_ENDING: &str = ".mdb";

/// The first word of a hash, by which lookup tables are sorted.
pub fn truncate_hash(hash: &MerkleHash) -> u64
    ensures { result ≡ hash.now.word0 }
{
    hash[0]
}

/// The name of a shard's file: the 64 digits of its hash and `.mdb`; or `OutOfMemory`.
pub fn shard_file_name(alloc: Global, hash: &MerkleHash) -> Result<String>
    ensures text { IfOk result (λ name. string_bytes name ≡ shard_name hash.now) }
    ensures causes { IfErr result (λ e. e ≡ CoreError.OutOfMemory) }
{
    let mut name = hash.hex(alloc)?;
    name.push_str(SHARD_FILE_ENDING)?;
    Ok(name)
}

/// The hash in the name of a shard file: 64 hexadecimal digits of either case, then `.mdb`. `None`
/// for any other text. Does not allocate.
pub fn parse_shard_filename(filename: &str) -> Option<MerkleHash>
    ensures found { IfSome result (λ hash. NamesShard filename.now hash) }
    ensures accepted { IsSome result ↔ IsShardName filename.now }
    ensures back { (hash : DataHash) → IsHash hash → NamesShard filename.now hash
        → result ≡ Some hash }
{
    let digits = filename.strip_suffix(SHARD_FILE_ENDING)?;
    let hash = MerkleHash::from_hex(digits).ok()?;
    widths(hash);
    Some(hash)
}

// Does nothing: the words of a hash fit their width.
fn widths(hash: MerkleHash)
    ensures { IsHash hash }
{}

/// `valid_seconds` after `now`, a timestamp in seconds; `InvalidArguments` if it does not fit
/// `u64`.
pub fn shard_expiry_time(now: u64, valid_seconds: u64) -> Result<u64>
    ensures { MatchResult result
        (λ timestamp. (timestamp ≡ now + valid_seconds) × (now + valid_seconds < 2 ^ 64))
        (λ e. (e ≡ CoreError.InvalidArguments) × (2 ^ 64 ≤ now + valid_seconds)) }
{
    match now.checked_add(valid_seconds) {
        Some(timestamp) => Ok(timestamp),
        None => Err(CoreError::InvalidArguments),
    }
}
