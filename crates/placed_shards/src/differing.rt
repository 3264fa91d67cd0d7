//! The hashes under which shards have records that do not agree.

ghost use Rattle.std.specs.Prelude.{◌≡◌, ◌≢◌, ◌↔◌, ◌<◌, IsTrue, List, Contains, Some, length, map, MatchOption, MatchResult};
ghost use Rattle.std.specs.List.Sorted.{IsSorted};
ghost use Rattle.xet_base.specs.declared.error.CoreError.TheVariants.{OutOfMemory};
ghost use Rattle.xet_shards.specs.Write.WithOptions.{Ascends};
ghost use Rattle.placed_shards.specs.Steps.Differing.{place_cmp, record_at, AgreeAsRead, AgreesWithAll, AgreeWithin, ComparesPlace, ComparesRun, DifferWithin, DiffersFromKept, FindsDiffering, IsAgainst, IsPlace, IsRun};

use crate::agreement::Agreement;
use crate::of_agreeing::are_copies;
use crate::placed_shard::PlacedShard;
use crate::places::{Place, run_end, sorted_places};
use std::alloc::Global;
use xet_base::error::Result;
use xet_base::merklehash::MerkleHash;

/// Two shards whose records with this hash do not agree.
#[derive(Clone, Copy)]
pub struct Differing {
    pub hash: MerkleHash,
    /// The number of the one shard.
    pub first: usize,
    /// The number of the other.
    pub second: usize,
}

/// Two shards for each hash under which records do not agree, in ascending order of these, or
/// `OutOfMemory`.
pub fn find_differing<'a, P: Agreement<'a>>(
    alloc: Global,
    shards: &[PlacedShard<'a>],
) -> Result<Vec<Differing>>
    requires { (l : List P) → Contains (map P.listed shards.now) l → Ascends P.kind l }
    ensures { MatchResult result
        (λ found. FindsDiffering P.kind (AgreeAsRead P.kind P.agree) (map P.listed shards.now)
        found.items)
        (λ e. e ≡ OutOfMemory) }
{
    let places = sorted_places::<P>(alloc, shards)?;
    let mut found = Vec::new(alloc);
    let mut from = 0;
    while from < places.len() {
        from = compare_run::<P>(alloc, shards, places.as_slice(), from, &mut found)?;
    }
    Ok(found)
}

fn compare_run<'a, P: Agreement<'a>>(
    alloc: Global,
    shards: &[PlacedShard<'a>],
    places: &[Place],
    from: usize,
    found: &mut Vec<Differing>,
) -> Result<usize>
    requires within { from < length places.now }
    requires sorted { IsSorted place_cmp places.now }
    requires each { (p : Place) → Contains places.now p
        → IsPlace P.kind (map P.listed shards.now) p }
    ensures { MatchResult result
        (λ to. IsRun places.now from to
        × ComparesRun (AgreeAsRead P.kind P.agree) (map P.listed shards.now) places.now from to
        found.old.items found.new.items)
        (λ e. e ≡ OutOfMemory) }
{
    let to = run_end(places, from);
    match differ_in_run::<P>(alloc, shards, places, from, to)? {
        Some(differing) => {
            found.push(differing)?;
            Ok(to)
        }
        None => Ok(to),
    }
}

fn differ_in_run<'a, P: Agreement<'a>>(
    alloc: Global,
    shards: &[PlacedShard<'a>],
    places: &[Place],
    from: usize,
    to: usize,
) -> Result<Option<Differing>>
    requires run { IsRun places.now from to }
    requires each { (p : Place) → Contains places.now p
        → IsPlace P.kind (map P.listed shards.now) p }
    ensures { MatchResult result
        (λ found. MatchOption found
        (AgreeWithin (AgreeAsRead P.kind P.agree) (map P.listed shards.now) places.now from to)
        (DifferWithin (AgreeAsRead P.kind P.agree) (map P.listed shards.now) places.now from to))
        (λ e. e ≡ OutOfMemory) }
{
    P::agreement_laws();
    // Most hashes are in one shard alone.
    if to - from == 1 {
        return Ok(None);
    }
    let mut kept = Vec::new(alloc);
    let mut at = from;
    while at < to {
        match compare_place::<P>(alloc, shards, places[at], &mut kept)? {
            Some(differing) => return Ok(Some(differing)),
            None => at += 1,
        }
    }
    Ok(None)
}

// Compares a record with those kept, and keeps its place unless it is a copy.
fn compare_place<'s, 'a, P: Agreement<'a>>(
    alloc: Global,
    shards: &'s [PlacedShard<'a>],
    place: Place,
    kept: &mut Vec<Place>,
) -> Result<Option<Differing>>
    requires place { IsPlace P.kind (map P.listed shards.now) place }
    requires kept { (k : Place) → Contains kept.old.items k
        → IsPlace P.kind (map P.listed shards.now) k }
    ensures { MatchResult result
        (λ found. MatchOption found
        (ComparesPlace (AgreeAsRead P.kind P.agree) (map P.listed shards.now) place kept.old.items
        kept.new.items)
        (DiffersFromKept (AgreeAsRead P.kind P.agree) (map P.listed shards.now) place
        kept.old.items))
        (λ e. e ≡ OutOfMemory) }
{
    let record = placed_at::<P>(shards, place);
    if has_copy::<P>(shards, kept.as_slice(), record) {
        return Ok(None);
    }
    match find_against::<P>(alloc, shards, kept.as_slice(), record)? {
        Some(first) => Ok(Some(Differing {
            hash: place.hash,
            first,
            second: place.list,
        })),
        None => {
            kept.push(place)?;
            Ok(None)
        }
    }
}

fn has_copy<'s, 'a, P: Agreement<'a>>(
    shards: &'s [PlacedShard<'a>],
    kept: &[Place],
    other: &'s P,
) -> bool
    requires { (k : Place) → Contains kept.now k → IsPlace P.kind (map P.listed shards.now) k }
    ensures { IsTrue result ↔ ((k : Place) × Contains kept.now k
        × (record_at (map P.listed shards.now) k ≡ Some other.now)) }
{
    for one in kept {
        if are_copies::<P>(placed_at::<P>(shards, *one), other) {
            return true;
        }
    }
    false
}

// The shard of a kept record that does not agree with this one.
fn find_against<'s, 'a, P: Agreement<'a>>(
    alloc: Global,
    shards: &'s [PlacedShard<'a>],
    kept: &[Place],
    other: &'s P,
) -> Result<Option<usize>>
    requires kept { (k : Place) → Contains kept.now k
        → IsPlace P.kind (map P.listed shards.now) k }
    requires apart { (k : Place) → Contains kept.now k
        → record_at (map P.listed shards.now) k ≢ Some other.now }
    ensures { MatchResult result
        (λ found. MatchOption found
        (AgreesWithAll (AgreeAsRead P.kind P.agree) (map P.listed shards.now) kept.now other.now)
        (IsAgainst (AgreeAsRead P.kind P.agree) (map P.listed shards.now) kept.now other.now))
        (λ e. e ≡ OutOfMemory) }
{
    for one in kept {
        if !P::agree_apart(alloc, placed_at::<P>(shards, *one), other)? {
            return Ok(Some(one.list));
        }
    }
    Ok(None)
}

fn placed_at<'s, 'a, P: Agreement<'a>>(shards: &'s [PlacedShard<'a>], place: Place) -> &'s P
    requires { IsPlace P.kind (map P.listed shards.now) place }
    ensures { record_at (map P.listed shards.now) place ≡ Some result.now }
{
    &P::records(&shards[place.list])[place.index]
}
