//! The days on which shards expire.

ghost use Rattle.std.specs.Prelude.{◌≡◌, ◌/◌, IfOk, OnOk};
ghost use Rattle.mdb_overview.specs.OverviewExpiries.{has_expired, ExpireAs, AddsExpiry};

use crate::counts::{Counts, count_one};
use mdb_report::brief::Brief;
use mdb_report::expiry::{expiry_of, has_come};
use std::alloc::{AllocError, Global};
use std::collections::BTreeMap;

/// The seconds of a day.
const DAY: u64 = 86400;

/// When some shards expire.
#[derive(Drop)]
pub struct Expiries {
    /// How many expire on each day, by the days since 1970 began.
    pub by_day: Counts,
    /// How many have no expiry.
    pub without: u64,
    /// How many have expired.
    pub expired: u64,
}

/// The day of a second, both since the start of 1970.
pub fn day_of(seconds: u64) -> u64
    ensures { result ≡ seconds / 86400 }
{
    seconds / DAY
}

/// Whether a shard has expired by a time, if one is given.
pub fn has_expired(shard: &Brief<'_>, now: Option<u64>) -> bool
    ensures { result ≡ has_expired now shard.now }
{
    match now {
        Some(now) => has_come(expiry_of(shard.expires.seconds), now),
        None => false,
    }
}

/// When shards expire, and how many have by `now`, in seconds.
pub fn expiries_of(
    alloc: Global,
    shards: &[Brief<'_>],
    now: Option<u64>,
) -> Result<Expiries, AllocError>
    ensures { IfOk result (ExpireAs shards.now now) }
{
    let mut expiries = Expiries {
        by_day: BTreeMap::new(alloc),
        without: 0,
        expired: 0,
    };
    for shard in shards {
        add_expiry(&mut expiries, shard, now)?;
    }
    Ok(expiries)
}

fn add_expiry(
    expiries: &mut Expiries,
    shard: &Brief<'_>,
    now: Option<u64>,
) -> Result<(), AllocError>
    ensures { OnOk result (AddsExpiry shard.now now expiries.old expiries.new) }
{
    match expiry_of(shard.expires.seconds) {
        Some(expiry) => count_one(&mut expiries.by_day, day_of(expiry))?,
        None => expiries.without = expiries.without.saturating_add(1),
    }
    if has_expired(shard, now) {
        expiries.expired = expiries.expired.saturating_add(1);
    }
    Ok(())
}
