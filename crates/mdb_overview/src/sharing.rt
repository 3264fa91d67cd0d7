//! Chunks that more than one shard has.

ghost use Rattle.std.specs.Prelude.{◌≡◌, ℕ, [], ◌∷◌, ◌++◌, List, OnOk};
ghost use Rattle.xet_base.specs.declared.merklehash.DataHash.{DataHash};
ghost use Rattle.mdb_overview.specs.Sharing.{CountShards, AddsOnce, CountsHash, CountsHashes};
ghost use Rattle.mdb_overview.specs.Counts.{count_in};

use crate::counts::{Counts, count_one};
use std::alloc::{AllocError, Global};
use std::collections::{BTreeMap, HashMap, HashSet};
use xet_core_structures::merklehash::MerkleHash;

/// Chunk hashes, each with how many shards have it; these numbers saturate.
#[derive(Drop)]
pub struct ChunkHashes {
    pub shards: HashMap<MerkleHash, u64>,
}

impl ChunkHashes {
    /// The hashes of no shards.
    pub fn new(alloc: Global) -> ChunkHashes
        ensures { CountShards [] result }
    {
        ChunkHashes {
            shards: HashMap::new(alloc),
        }
    }

    /// Adds a shard's chunk hashes, in any order, in which one may stand again. A failure may have
    /// added some.
    pub fn add_shard(&mut self, alloc: Global, hashes: &[MerkleHash]) -> Result<(), AllocError>
        ensures { OnOk result ((shards : List (List DataHash)) → CountShards shards self.old
            → CountShards (shards ++ hashes.now ∷ []) self.new) }
    {
        let mut seen = HashSet::new(alloc);
        for hash in hashes {
            self.add_once(&mut seen, *hash)?;
        }
        Ok(())
    }

    fn add_once(
        &mut self,
        seen: &mut HashSet<MerkleHash>,
        hash: MerkleHash,
    ) -> Result<(), AllocError>
        ensures { OnOk result (AddsOnce hash seen.old seen.new self.old self.new) }
    {
        if seen.insert(hash)? {
            let count = self.shards.get(&hash).copied().unwrap_or(0);
            self.shards.insert(hash, count.saturating_add(1))?;
        }
        Ok(())
    }

    /// Counts the hashes by how many shards have them. A failure may have counted some.
    pub fn count(&self, sharing: &mut Sharing) -> Result<(), AllocError>
        ensures { OnOk result (CountsHashes self.now sharing.old sharing.new) }
    {
        for shards in self.shards.values() {
            sharing.add(*shards)?;
        }
        Ok(())
    }
}

/// How many chunk hashes are in how many shards; numbers saturate.
#[derive(Drop)]
pub struct Sharing {
    /// The number of hashes.
    pub hashes: u64,
    /// How many hashes are in more than one shard.
    pub shared: u64,
    /// How many hashes are in each number of shards.
    pub by_shards: Counts,
}

impl Sharing {
    /// The counts of no hashes.
    pub fn new(alloc: Global) -> Sharing
        ensures hashes { result.hashes ≡ 0 }
        ensures shared { result.shared ≡ 0 }
        ensures by_shards { (number : ℕ) → count_in result.by_shards number ≡ 0 }
    {
        Sharing {
            hashes: 0,
            shared: 0,
            by_shards: BTreeMap::new(alloc),
        }
    }

    fn add(&mut self, shards: u64) -> Result<(), AllocError>
        ensures { OnOk result (CountsHash shards self.old self.new) }
    {
        count_one(&mut self.by_shards, shards)?;
        self.hashes = self.hashes.saturating_add(1);
        if shards > 1 {
            self.shared = self.shared.saturating_add(1);
        }
        Ok(())
    }
}
