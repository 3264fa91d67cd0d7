//! Shards made of another, with some records made anew.

ghost use Rattle.std.specs.Prelude.{◌≡◌, ◌↔◌, map, Contains, IsTrue, MatchResult};
ghost use Rattle.xet_base.specs.declared.error.CoreError.{CoreError};
ghost use Rattle.xet_records.specs.View.{as_kept};
ghost use Rattle.xet_shards.specs.Content.Shard.{xorb_hash_of};
ghost use Rattle.xet_shards.specs.Export.KeyedExport.{keyed_xorbs};
ghost use Rattle.xet_shards.specs.StreamingShard.MinimalShard.{is_start, mark_starts, IsKept};
ghost use Rattle.placed_shards.specs.Anew.{HasInstead};

use crate::keys::all_keyed;
use crate::marks::all_marked;
use crate::optional_parts::all_with_parts;
use crate::placed_record::PlacedRecord;
use crate::placed_shard::PlacedShard;
use crate::placed_xorb::PlacedXorb;
use bumpalo::Bump;
use std::alloc::Global;
use xet_base::error::Result;
use xet_base::merklehash::HMACKey;
use xet_base::sorted_hashes::SortedHashes;
use xet_records::file_structs::KeptParts;

impl<'a> PlacedShard<'a> {
    /// The shard with these parts of its files, or `OutOfMemory`.
    pub fn with_parts(self, arena: &'a Bump, kept: KeptParts) -> Result<PlacedShard<'a>>
        ensures { MatchResult result
            (HasInstead (map (as_kept kept) self.entry.files.items) self.entry.xorbs.items self.entry)
            (λ e. e ≡ CoreError.OutOfMemory) }
    {
        let PlacedShard {
            options,
            as_read,
            files,
            xorbs,
        } = self;
        let files = all_with_parts(arena, files, kept)?;
        Ok(PlacedShard {
            options,
            as_read,
            files,
            xorbs,
        })
    }

    /// The shard with its chunk hashes under a key, or `OutOfMemory`. The key of zeros is none.
    pub fn with_keyed_hashes(
        self,
        alloc: Global,
        arena: &'a Bump,
        key: HMACKey,
    ) -> Result<PlacedShard<'a>>
        ensures { MatchResult result
            (HasInstead self.entry.files.items (keyed_xorbs key self.entry.xorbs.items) self.entry)
            (λ e. e ≡ CoreError.OutOfMemory) }
    {
        let PlacedShard {
            options,
            as_read,
            files,
            xorbs,
        } = self;
        let xorbs = all_keyed(alloc, arena, xorbs, key)?;
        Ok(PlacedShard {
            options,
            as_read,
            files,
            xorbs,
        })
    }

    /// The shard with its marks, and one at each chunk at which one of its files starts, or
    /// `OutOfMemory`.
    pub fn with_marks(self, alloc: Global, arena: &'a Bump) -> Result<PlacedShard<'a>>
        ensures { MatchResult result
            (HasInstead self.entry.files.items
            (map (mark_starts (is_start self.entry.files.items)) self.entry.xorbs.items) self.entry)
            (λ e. e ≡ CoreError.OutOfMemory) }
    {
        let PlacedShard {
            options,
            as_read,
            files,
            xorbs,
        } = self;
        let xorbs = all_marked(alloc, arena, files.as_slice(), xorbs)?;
        Ok(PlacedShard {
            options,
            as_read,
            files,
            xorbs,
        })
    }

    /// The shard with only those of its xorbs that have one of these hashes.
    pub fn with_xorbs(self, hashes: &SortedHashes) -> PlacedShard<'a>
        ensures { IsKept (λ x kept. IsTrue kept ↔ Contains hashes.now.items.items (xorb_hash_of x))
            self.entry.xorbs.items result.xorbs.items
            × HasInstead self.entry.files.items result.xorbs.items self.entry result }
    {
        let PlacedShard {
            options,
            as_read,
            files,
            mut xorbs,
        } = self;
        xorbs.retain(
            |xorb: &PlacedXorb<'_>| -> bool
                ensures { IsTrue result ↔ Contains hashes.entry.now.items.items (xorb_hash_of xorb.now) }
            { hashes.contains(&xorb.hash()) },
        );
        PlacedShard {
            options,
            as_read,
            files,
            xorbs,
        }
    }
}
