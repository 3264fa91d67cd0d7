//! Records that can be read, but that no shard may have.

ghost use Rattle.std.specs.Prelude.{◌≡◌, ◌+◌, ◌↔◌, ◌≤◌, [], ◌∷◌, ◌++◌, List, length, flat_map, All, IsTrue, OnOk, IfErr};
ghost use Rattle.xet_core_structures.specs.declared.error.CoreError.{CoreError};
ghost use Rattle.xet_core_structures.specs.FileRecord.{IsWellFormed};
ghost use Rattle.xet_core_structures.specs.XorbRecord.{IsXorb};
ghost use Rattle.xet_records.specs.declared.file_structs.rows.HashRow.{HashRow};
ghost use Rattle.xet_records.specs.FileRow.{FitsHashRow, hash_row};
ghost use Rattle.xet_records.specs.Limits.{MAX_ROWS};
ghost use Rattle.xet_shards.specs.Steps.FileStore.{AreClear};
ghost use Rattle.xet_shards.specs.Write.Section.{total_rows};
ghost use Rattle.shard_bytes.specs.Steps.CheckingSteps.{AddsMalformed};

use super::{Finding, Section, push_unless};
use placed_shards::placed_file::PlacedFile;
use placed_shards::placed_record::PlacedRecord;
use placed_shards::placed_xorb::PlacedXorb;
use placed_shards::well_formed::have_few_bytes;
use xet_core_structures::error::Result;
use xet_core_structures::fields::{split_hash, split_u64};
use xet_core_structures::rows::ROW_SIZE;

/// A record judged as it is stored.
pub(super) trait Judged<'a>: PlacedRecord<'a> {
    ghost formed: { Self → Type 0 };

    /// Whether a shard may have the record.
    fn is_formed(&self) -> bool
        requires { Self.kind.row_count self.now ≤ MAX_ROWS }
        ensures { IsTrue result ↔ formed self.now };
}

pub(super) fn push_malformed<'a, P: Judged<'a>>(
    findings: &mut Vec<Finding>,
    section: Section,
    records: &[P],
) -> Result<()>
    requires { total_rows P.kind records.now ≤ MAX_ROWS }
    ensures added { OnOk result
        (AddsMalformed section P.formed records.now findings.old.items findings.new.items) }
    ensures causes { IfErr result (λ e. e ≡ CoreError.OutOfMemory) }
{
    for index in 0..records.len() {
        let formed = records[index].is_formed();
        push_unless(findings, formed, Finding::Malformed(section, index))?;
    }
    Ok(())
}

impl<'a> Judged<'a> for PlacedFile<'a> {
    ghost formed = { IsWellFormed };

    fn is_formed(&self) -> bool {
        self.is_stored();
        let header = self.header();
        let (_fixed, optional) = self
            .bytes()
            .split_at(ROW_SIZE * (1 + header.num_entries as usize));
        header.is_plain() && are_clear(optional)
    }
}

fn are_clear(rows: &[u8]) -> bool
    ensures { (stored : List HashRow) → All FitsHashRow stored
        → rows.now ≡ flat_map hash_row stored → IsTrue result ↔ AreClear stored }
{
    let mut rest = rows;
    while rest.len() >= ROW_SIZE {
        let (first, second, after) = split_reserved(rest);
        if !are_zero(first, second) {
            return false;
        }
        rest = after;
    }
    true
}

fn split_reserved(bytes: &[u8]) -> (u64, u64, &[u8])
    requires { 48 ≤ length bytes.now }
    ensures row { (row : HashRow) × FitsHashRow row × (row._unused ≡ result.0 ∷ result.1 ∷ [])
        × (bytes.now ≡ hash_row row ++ result.2.now) }
    ensures len { length result.2.now + 48 ≡ length bytes.now }
{
    let (_hash, rest) = split_hash(bytes);
    let (first, rest) = split_u64(rest);
    let (second, rest) = split_u64(rest);
    (first, second, rest)
}

fn are_zero(first: u64, second: u64) -> bool
    ensures { IsTrue result ↔ ((first ≡ 0) × (second ≡ 0)) }
{
    first == 0 && second == 0
}

impl<'a> Judged<'a> for PlacedXorb<'a> {
    ghost formed = { IsXorb };

    fn is_formed(&self) -> bool {
        self.is_stored();
        let (_header, chunks) = self.bytes().split_at(ROW_SIZE);
        have_few_bytes(chunks)
    }
}
