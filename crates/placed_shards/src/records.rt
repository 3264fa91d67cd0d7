//! Shards of records that are given as values.

ghost use Rattle.std.specs.Prelude.{◌≡◌, ◌+◌, ◌≤◌, ◌↔◌, IsTrue, IfOk, IfSome, option_map, unwrap_or};
ghost use Rattle.std.specs.FinMap as finite;
ghost use Rattle.xet_base.specs.declared.error.CoreError.{CoreError};
ghost use Rattle.xet_records.specs.FileRecord.{file_records, IsWellFormed};
ghost use Rattle.xet_records.specs.Limits.{MAX_ROWS};
ghost use Rattle.xet_records.specs.XorbRecord.{xorb_records, IsXorb};
ghost use Rattle.xet_shards.specs.Content.Shard.{IsShard};
ghost use Rattle.placed_shards.specs.Content.{content};
ghost use Rattle.placed_shards.specs.Given.{with_records, plain_content, shard_of, AdmitsAll, CanInsertAll, CanAddRecords, HoldsRecords};

use crate::placed_file::PlacedFile;
use crate::placed_shard::PlacedShard;
use crate::placed_xorb::PlacedXorb;
use crate::values::{place_file, place_xorb};
use bumpalo::Bump;
use std::alloc::Global;
use std::collections::BTreeMap;
use xet_base::error::{CoreError, Result};
use xet_base::merklehash::MerkleHash;
use xet_records::file_structs::{FileDataSequenceHeader, MDBFileInfo};
use xet_records::record_reader::SectionRecord;
use xet_records::rows::ROW_LIMIT;
use xet_records::xorb_structs::{MDBXorbInfo, XorbChunkSequenceHeader};
use xet_shards::shard_in_memory::{is_well_formed_file, is_well_formed_xorb};
use xet_shards::shard_writer::LayoutOptions;

/// The shard of these records, in any order, with all tables, no key, creation 0 and no expiry. Of
/// files, or xorbs, with one hash the last counts.
///
/// `InvalidArguments` if a record is ill-formed, or if after some record the rows of the files or
/// of the xorbs pass 4294967295; or `OutOfMemory`.
pub fn of_records<'a>(
    alloc: Global,
    arena: &'a Bump,
    files: Vec<MDBFileInfo>,
    xorbs: Vec<MDBXorbInfo>,
) -> Result<PlacedShard<'a>>
    ensures made { IfOk result
        (λ s. content s ≡ plain_content (shard_of files.items xorbs.items)) }
    ensures shard { IfOk result (λ _. IsShard (shard_of files.items xorbs.items)) }
    ensures admitted { AdmitsAll (CanAddRecords files.items xorbs.items) result }
{
    let files = placed_files(alloc, arena, files)?;
    let xorbs = placed_xorbs(alloc, arena, xorbs)?;
    Ok(PlacedShard {
        options: LayoutOptions::plain(None),
        as_read: false,
        files,
        xorbs,
    })
}

fn placed_files<'a>(
    alloc: Global,
    arena: &'a Bump,
    files: Vec<MDBFileInfo>,
) -> Result<Vec<PlacedFile<'a>>>
    ensures placed { IfOk result (λ placed. placed.items
        ≡ finite.values (with_records file_records finite.empty files.items)) }
    ensures holds { IfOk result (λ _. HoldsRecords file_records IsWellFormed
        (with_records file_records finite.empty files.items)) }
    ensures admitted { AdmitsAll
        (CanInsertAll file_records IsWellFormed finite.empty files.items) result }
{
    let latest = latest_of(alloc, files)?;
    let mut placed = Vec::with_capacity(alloc, latest.len())?;
    for file in latest.as_slice() {
        placed.push(place_file(arena, file)?)?;
    }
    Ok(placed)
}

fn placed_xorbs<'a>(
    alloc: Global,
    arena: &'a Bump,
    xorbs: Vec<MDBXorbInfo>,
) -> Result<Vec<PlacedXorb<'a>>>
    ensures placed { IfOk result (λ placed. placed.items
        ≡ finite.values (with_records xorb_records finite.empty xorbs.items)) }
    ensures holds { IfOk result (λ _. HoldsRecords xorb_records IsXorb
        (with_records xorb_records finite.empty xorbs.items)) }
    ensures admitted { AdmitsAll (CanInsertAll xorb_records IsXorb finite.empty xorbs.items) result }
{
    let latest = latest_of(alloc, xorbs)?;
    let mut placed = Vec::with_capacity(alloc, latest.len())?;
    for xorb in latest.as_slice() {
        placed.push(place_xorb(arena, xorb)?)?;
    }
    Ok(placed)
}

/// A record that is given as a value.
trait GivenRecord: SectionRecord {
    // it may be put into a shard
    ghost IsFormed: { Self → Type 0 };

    fn is_well_formed(&self) -> bool
        ensures { IsTrue result ↔ IsFormed self.now };

    fn header(&self) -> &Self::Header
        ensures { result.now ≡ Self.kind.header_of self.now };

    ghost rows: { (r : Self) → IsFormed r → Self.kind.row_count r ≡ 1 + Self.kind.rows_after (Self.kind.header_of r) };

    ghost few: { (r : Self) → IsFormed r → Self.kind.row_count r ≤ MAX_ROWS };
}

// The records in the order of their hashes, of those with one hash the last.
fn latest_of<R: GivenRecord + Drop>(alloc: Global, records: Vec<R>) -> Result<Vec<R>>
    ensures latest { IfOk result (λ latest. latest.items
        ≡ finite.values (with_records R.kind finite.empty records.items)) }
    ensures holds { IfOk result
        (λ _. HoldsRecords R.kind R.IsFormed (with_records R.kind finite.empty records.items)) }
    ensures admitted { AdmitsAll (CanInsertAll R.kind R.IsFormed finite.empty records.items) result }
{
    let mut latest = BTreeMap::new(alloc);
    let mut rows = 0;
    for given in records {
        if !given.is_well_formed() {
            return Err(CoreError::InvalidArguments);
        }
        let header = given.header();
        rows += 1 + R::rows_after(header);
        let replaced = latest.insert(R::hash(header), given)?;
        rows -= rows_of(replaced);
        if rows > ROW_LIMIT {
            return Err(CoreError::InvalidArguments);
        }
    }
    Ok(latest.into_values().collect(alloc)?)
}

// The rows of a record, or 0.
fn rows_of<R: GivenRecord + Drop>(found: Option<R>) -> u64
    requires { IfSome found R.IsFormed }
    ensures { result ≡ unwrap_or (option_map R.kind.row_count found) 0 }
{
    match found {
        Some(found) => 1 + R::rows_after(found.header()),
        None => 0,
    }
}

impl GivenRecord for MDBFileInfo {
    ghost use Rattle.xet_records.specs.FileRecord.{IsWellFormed};
    ghost use Rattle.xet_records.proofs.Record.{rows_whole};

    ghost IsFormed = { IsWellFormed };

    fn is_well_formed(&self) -> bool {
        is_well_formed_file(self)
    }

    fn header(&self) -> &FileDataSequenceHeader {
        &self.metadata
    }

    ghost rows = { λ r formed. rows_whole r formed.whole };

    ghost few = { λ r formed. formed.rows };
}

impl GivenRecord for MDBXorbInfo {
    ghost use Rattle.std.proofs.Common.{ap};
    ghost use Rattle.xet_records.specs.XorbRecord.{IsXorb};

    ghost IsFormed = { IsXorb };

    fn is_well_formed(&self) -> bool {
        is_well_formed_xorb(self)
    }

    fn header(&self) -> &XorbChunkSequenceHeader {
        &self.metadata
    }

    ghost rows = { λ r formed. ap (λ n. 1 + n) formed.count };

    ghost few = { λ r formed. formed.rows };
}
