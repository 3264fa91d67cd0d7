//! The lookup table of a section's records.

ghost use Rattle.std.specs.Prelude.{◌≡◌, ◌+◌, ◌≤◌, [], IsTrue, ◌↔◌, OnOk, OnErr, IfErr};
ghost use Rattle.xet_shards.specs.Write.Written.{AddsRecord};
ghost use Rattle.xet_records.specs.Limits.{MAX_ROWS};

use super::written::RecordTable;
use crate::shard_format::START_ROW_SIZE;
use std::alloc::Global;
use xet_base::error::{CoreError, Result};
use xet_base::fields::{put_u32, put_u64};
use xet_records::rows::ROW_LIMIT;

impl RecordTable {
    /// The table of no record.
    pub fn new(alloc: Global) -> RecordTable
        ensures records { result.records ≡ 0 }
        ensures rows { result.rows ≡ 0 }
        ensures bytes { result.bytes.items ≡ [] }
    {
        RecordTable {
            records: 0,
            rows: 0,
            bytes: Vec::new(alloc),
        }
    }

    /// Whether so many rows more fit the section.
    pub fn has_room(&self, more: u64) -> bool
        ensures { IsTrue result ↔ (self.now.rows + more ≤ MAX_ROWS) }
    {
        more <= ROW_LIMIT - self.rows
    }

    /// Adds the next record, by the first word of its hash and its rows, header included.
    /// `OutOfMemory` if an allocation fails.
    pub fn add(&mut self, word: u64, rows: u64) -> Result<()>
        requires header { 1 ≤ rows }
        requires rows { self.old.rows + rows ≤ MAX_ROWS }
        ensures added { OnOk result (AddsRecord self.old self.new word rows) }
        ensures kept { OnErr result (self.new.rows ≡ self.old.rows) }
        ensures causes { IfErr result (λ e. e ≡ CoreError.OutOfMemory) }
    {
        let mut row = [0u8; START_ROW_SIZE];
        let at = put_u64(&mut row, 0, word);
        put_u32(&mut row, at, self.rows as u32);
        self.bytes.extend_from_slice(&row)?;
        self.records += 1;
        self.rows += rows;
        Ok(())
    }
}
