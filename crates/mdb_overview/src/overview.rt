//! The overview of several shards.

ghost use Rattle.std.specs.Prelude.{◌≡◌, [], OnOk, OnErr};
ghost use Rattle.std.specs.List.Sorted.{IsPermutation};
ghost use Rattle.mdb_overview.specs.Totals.{AreSums, DescendBySize, bytes_left};

use crate::sharing::Sharing;
use mdb_report::brief::{Brief, Total};
use std::alloc::{AllocError, Global};
use std::fmt::Display;

/// Some shards, what failed, and the chunks that they share.
#[derive(Drop)]
pub struct Overview<'a> {
    /// The words and the list that named the shards.
    pub sources: Vec<&'a str>,
    /// The time by which shards have expired, in seconds, if known.
    pub now: Option<u64>,
    pub shards: Vec<Brief<'a>>,
    /// What could not be read.
    pub failures: Vec<Unread>,
    pub sharing: Sharing,
}

/// What could not be read, and why.
#[derive(PartialEq, Eq, PartialOrd, Ord, Drop)]
pub struct Unread {
    pub reason: String,
    pub path: String,
}

impl<'a> Overview<'a> {
    /// The overview of no shards.
    pub fn new(alloc: Global, sources: Vec<&'a str>, now: Option<u64>) -> Overview<'a>
        ensures shards { result.shards.items ≡ [] }
        ensures failures { result.failures.items ≡ [] }
    {
        Overview {
            sources,
            now,
            shards: Vec::new(alloc),
            failures: Vec::new(alloc),
            sharing: Sharing::new(alloc),
        }
    }

    /// Adds what could not be read, and why. A failure adds nothing.
    pub fn add_failure<P: Display, T: Display>(
        &mut self,
        alloc: Global,
        path: &P,
        reason: &T,
    ) -> Result<(), AllocError>
        ensures shards { self.new.shards ≡ self.old.shards }
    {
        let reason = format!(in alloc; "{reason}")?;
        let path = format!(in alloc; "{path}")?;
        self.failures.push(Unread { reason, path })?;
        Ok(())
    }

    /// Puts the greatest shards first, and leaves those of one size in their order. A failure moves
    /// nothing.
    pub fn sort(&mut self) -> Result<(), AllocError>
        ensures permutation { IsPermutation self.old.shards.items self.new.shards.items }
        ensures sorted { OnOk result (DescendBySize self.new.shards.items) }
        ensures err { OnErr result (self.new.shards.items ≡ self.old.shards.items) }
    {
        self.shards.sort_by_key(
            |shard: &Brief<'_>| -> u64
                ensures { result ≡ bytes_left shard.now }
            { u64::MAX - shard.bytes },
        )
    }
}

/// The sums over some shards.
pub fn total_of(shards: &[Brief<'_>]) -> Total
    ensures { AreSums shards.now result }
{
    let mut total = Total::NONE;
    for shard in shards {
        total.add(shard);
    }
    total
}
