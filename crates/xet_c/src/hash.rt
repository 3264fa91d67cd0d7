//! Hashes, as four words.

ghost use Rattle.std.specs.Prelude.{◌≡◌, map, IfOk, IfErr};
ghost use Rattle.xet_c.specs.Arguments.{c_hash, words_or_zero};

use std::alloc::Global;
use xet_core_structures::error::{CoreError, Result};
use xet_core_structures::merklehash::MerkleHash;

/// A hash: its words, lowest first.
#[repr(C)]
#[derive(Clone, Copy, Drop)]
pub struct XetHash {
    pub words: [u64; 4],
}

pub fn hashes_of(alloc: Global, words: &[XetHash]) -> Result<Vec<MerkleHash>>
    ensures ok { IfOk result (λ hashes. map c_hash hashes.items ≡ words.now) }
    ensures causes { IfErr result (λ e. e ≡ CoreError.OutOfMemory) }
{
    let mut hashes = Vec::new(alloc);
    for hash in words {
        hashes.push(MerkleHash::from(hash.words))?;
    }
    Ok(hashes)
}

pub fn words_of(alloc: Global, hashes: &[MerkleHash]) -> Result<Vec<XetHash>>
    ensures ok { IfOk result (λ words. words.items ≡ map c_hash hashes.now) }
    ensures causes { IfErr result (λ e. e ≡ CoreError.OutOfMemory) }
{
    let mut words = Vec::new(alloc);
    for hash in hashes {
        words.push(of_hash(hash))?;
    }
    Ok(words)
}

pub fn of_hash(hash: &MerkleHash) -> XetHash
    ensures { result ≡ c_hash hash.now }
{
    XetHash {
        words: [hash.word0, hash.word1, hash.word2, hash.word3],
    }
}

pub fn words_or_zero(hash: Option<MerkleHash>) -> [u64; 4]
    ensures { result ≡ words_or_zero hash }
{
    match hash {
        Some(hash) => [hash.word0, hash.word1, hash.word2, hash.word3],
        None => [0; 4],
    }
}
