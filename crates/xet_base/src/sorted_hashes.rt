//! Hashes that are sorted once, so that each search among them takes logarithmic time.

ghost use Rattle.std.specs.Prelude.{◌↔◌, Contains, IsTrue};
ghost use Rattle.std.specs.List.Sorted.{IsPermutation, IsSorted};
ghost use Rattle.std.proofs.Props.{props};
ghost use Rattle.xet_base.specs.Hash.{hash_cmp};

use crate::merklehash::MerkleHash;

/// Hashes in ascending order.
#[derive(Drop)]
pub struct SortedHashes {
    pub items: Vec<MerkleHash>,
    ghost sorted: { IsSorted hash_cmp items.items } by { Prim.hlevel props },
}

impl SortedHashes {
    /// Sorts these hashes. Does not allocate.
    pub fn of(mut items: Vec<MerkleHash>) -> SortedHashes
        ensures { IsPermutation items.items result.items.items }
    {
        items.sort_unstable();
        SortedHashes { items }
    }

    /// Whether the hash is one of these.
    pub fn contains(&self, hash: &MerkleHash) -> bool
        ensures { IsTrue result ↔ Contains self.now.items.items hash.now }
    {
        self.items.as_slice().binary_search(hash).is_ok()
    }
}
