//! What the rounds of a merge find.

ghost use Rattle.std.specs.Prelude.{◌≡◌, ◌<◌, ◌≤◌, ◌↔◌, None, IsTrue, MatchOption};

use mdb_base::failure::Failure;
use mdb_base::input_failure::{disagreement_under, failure_on_malformed};
use placed_shards::findings::{Disagreement, MalformedRecord, find_disagreements, find_malformed};
use placed_shards::selection::Selection;
use std::alloc::Global;
use xet_core_structures::error::Result;

/// What was found so far.
#[derive(Clone, Copy)]
pub struct Findings {
    /// A record that no shard may have, of the first shard that has one.
    malformed: Option<MalformedRecord>,
    /// The first hash under which records differ.
    differing: Option<Disagreement>,
    /// How many such hashes there are.
    count: usize,
}

impl Findings {
    /// No findings.
    pub fn none() -> Findings {
        Findings {
            malformed: None,
            differing: None,
            count: 0,
        }
    }

    /// Whether there is none.
    pub fn is_empty(&self) -> bool
        ensures { IsTrue result ↔ ((self.now.malformed ≡ None) × (self.now.differing ≡ None)) }
    {
        self.malformed.is_none() && self.differing.is_none()
    }

    /// Adds what is found in a round's parts.
    pub fn add(&mut self, alloc: Global, inputs: &[&[u8]]) -> Result<()> {
        if let Some(found) = find_malformed(alloc, inputs, &Selection::ALL)? {
            self.malformed = Some(first_of(self.malformed, found));
        }
        let found = find_disagreements(alloc, inputs, &Selection::ALL)?;
        self.add_disagreements(found.as_slice());
        Ok(())
    }

    /// Adds the records that differ in a round's parts.
    pub fn add_disagreements(&mut self, found: &[Disagreement]) {
        self.count = self.count.saturating_add(found.len());
        if self.differing.is_none() {
            self.differing = found.first().copied();
        }
    }

    /// The failure of the first file with a record that no shard may have, if any.
    pub fn malformed_failure<'a>(&self, files: &[&'a str]) -> Option<Failure<'a>> {
        match &self.malformed {
            Some(record) => Some(failure_on_malformed(files, record)),
            None => None,
        }
    }

    /// The failure of files whose records differ, if any.
    pub fn disagreement_failure<'a>(&self, files: &[&'a str]) -> Option<Failure<'a>> {
        match &self.differing {
            Some(first) => Some(disagreement_under(files, first, self.count)),
            None => None,
        }
    }
}

fn first_of(earlier: Option<MalformedRecord>, found: MalformedRecord) -> MalformedRecord
    ensures { MatchOption earlier (result ≡ found)
        (λ e. (e.input ≤ found.input → result ≡ e) × (found.input < e.input → result ≡ found)) }
{
    match earlier {
        Some(earlier) if earlier.input <= found.input => earlier,
        _ => found,
    }
}
