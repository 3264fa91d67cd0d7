//! The records of some shards in the order of their hashes.

ghost use Rattle.std.specs.Prelude.{◌≡◌, ◌↔◌, ◌<◌, IsTrue, length, map, MatchResult, OnOk, IfErr};
ghost use Rattle.std.specs.List.Sorted.{IsSorted};
ghost use Rattle.xet_base.specs.declared.error.CoreError.TheVariants.{OutOfMemory};
ghost use Rattle.placed_shards.specs.Steps.Differing.{place_cmp, AddsPlaces, HasPlaces, IsRun};

use crate::agreement::Agreement;
use crate::placed_record::PlacedRecord;
use crate::placed_shard::PlacedShard;
use std::alloc::Global;
use xet_base::error::Result;
use xet_base::merklehash::MerkleHash;

/// Where a record is: the number of its shard, and its index there.
#[derive(Clone, Copy, Debug, PartialEq, Eq, PartialOrd, Ord)]
pub struct Place {
    pub hash: MerkleHash,
    pub list: usize,
    pub index: usize,
}

/// The places of all records, in ascending order of hashes, or `OutOfMemory`.
pub fn sorted_places<'a, P: Agreement<'a>>(
    alloc: Global,
    shards: &[PlacedShard<'a>],
) -> Result<Vec<Place>>
    ensures { MatchResult result
        (λ places. HasPlaces P.kind (map P.listed shards.now) places.items
        × IsSorted place_cmp places.items)
        (λ e. e ≡ OutOfMemory) }
{
    let mut places = Vec::new(alloc);
    let mut list = 0;
    while list < shards.len() {
        add_places::<P>(&mut places, P::records(&shards[list]), list)?;
        list += 1;
    }
    places.sort_unstable();
    Ok(places)
}

// Adds the places of the records of a list.
fn add_places<'a, P: PlacedRecord<'a>>(
    places: &mut Vec<Place>,
    records: &[P],
    list: usize,
) -> Result<()>
    ensures ok { OnOk result (AddsPlaces P.kind list records.now places.old.items places.new.items) }
    ensures causes { IfErr result (λ e. e ≡ OutOfMemory) }
{
    let mut index = 0;
    while index < records.len() {
        let hash = records[index].hash();
        places.push(Place { hash, list, index })?;
        index += 1;
    }
    Ok(())
}

/// The end of the places from this one on that have its hash.
pub fn run_end(places: &[Place], from: usize) -> usize
    requires sorted { IsSorted place_cmp places.now }
    requires within { from < length places.now }
    ensures { IsRun places.now from result }
{
    let hash = places[from].hash;
    let mut end = from + 1;
    while end < places.len() && has_hash(&places[end], hash) {
        end += 1;
    }
    end
}

fn has_hash(place: &Place, hash: MerkleHash) -> bool
    ensures { IsTrue result ↔ (place.now.hash ≡ hash) }
{
    place.hash == hash
}
