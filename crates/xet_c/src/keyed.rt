//! Hashes under a key.

ghost use Rattle.std.specs.Prelude.{◌≡◌};
ghost use Rattle.xet_core_structures.specs.Blake3.{keyed_hash};
ghost use Rattle.xet_core_structures.specs.declared.merklehash.DataHash.{DataHash};
ghost use Rattle.xet_core_structures.specs.KeyedHash.{hmac};
ghost use Rattle.xet_c.specs.Arguments.{c_hash};
ghost use Rattle.xet_c.specs.Text.{Hashes};

use crate::hash::{XetHash, of_hash};
use xet_core_structures::merklehash::{MerkleHash, keyed_hash};

/// The keyed hash of some bytes.
#[unsafe(no_mangle)]
pub extern "C" fn xet_hash_bytes(key: &XetHash, bytes: &[u8], hash: &mut XetHash) -> u32
    ensures { Hashes (λ k. keyed_hash k bytes.now) key.now hash.new result }
{
    *hash = of_hash(&keyed_hash(MerkleHash::from(key.words), bytes));
    0
}

/// The keyed hash of a hash's 32 bytes, as keyed exports have it of each chunk hash.
#[unsafe(no_mangle)]
pub extern "C" fn xet_hmac(key: &XetHash, hash: &XetHash, keyed: &mut XetHash) -> u32
    ensures { (h : DataHash) × (c_hash h ≡ hash.now) × Hashes (λ k. hmac k h) key.now keyed.new result }
{
    *keyed = of_hash(&MerkleHash::from(hash.words).hmac(MerkleHash::from(key.words)));
    0
}
