//! Lookups in parts of a shard that the caller has read.

ghost use Rattle.std.specs.Prelude.{◌≡◌, ◌⊎◌, ℕ, List, Option, map, IfOk, IfErr, MatchResult};
ghost use Rattle.std.specs.FinMap as finite;
ghost use Rattle.xet_core_structures.specs.declared.error.CoreError.{CoreError};
ghost use Rattle.xet_core_structures.specs.declared.file_structs.MDBFileInfo.{MDBFileInfo};
ghost use Rattle.xet_core_structures.specs.declared.xorb_structs.MDBXorbInfo.{MDBXorbInfo};
ghost use Rattle.xet_core_structures.specs.declared.shard_format.MDBShardInfo.{MDBShardInfo};
ghost use Rattle.xet_core_structures.specs.Errors.{CoreResult};
ghost use Rattle.xet_core_structures.specs.FileRecord.{file_records};
ghost use Rattle.xet_core_structures.specs.Shard.{Shard};
ghost use Rattle.xet_core_structures.specs.WrittenShard.{IsBytesWithInfo};
ghost use Rattle.xet_core_structures.specs.XorbRecord.{xorb_records};
ghost use Rattle.shard_bytes.specs.PartLookups.{AreStartsWith, CollidesAmong, RefusesTableRows, RefusesPlaces};
ghost use Rattle.shard_bytes.specs.RangeReads.{HasRowsWith, chunk_table_in, file_table_in, xorb_table_in};
ghost use Rattle.xet_c.specs.Output.{Outcome};
ghost use Rattle.xet_c.specs.ShownParts.{AreChunksWith, AreRowsWith, ArePlacesWith, c_chunk_place, IsFileIn, IsXorbIn};
ghost use Rattle.xet_c.specs.ShownRecords.{ShowsFileAt, ShowsXorbAt};

use crate::find::XetFile;
use crate::output::deliver;
use crate::segment::XetFileSegment;
use crate::walk::{XetChunk, XetPlace, XetXorb, show_file, show_xorb};
use shard_bytes::part_lookups::{file_in, find_places, find_rows, xorb_in};
use std::alloc::Global;
use xet_core_structures::error::{CoreError, Result};
use xet_core_structures::file_structs::MDBFileInfo;
use xet_core_structures::shard_format::MOST_FOUND;
use xet_core_structures::xorb_structs::MDBXorbInfo;

/// Where a chunk is: the row of the xorb section at which its xorb starts, and its index there.
#[repr(C)]
#[derive(Clone, Copy, Drop)]
pub struct XetChunkPlace {
    pub row: u32,
    pub index: u32,
}

/// Puts the rows that a file table, or a xorb table, has under this first word of a hash to the
/// front of `rows`.
#[unsafe(no_mangle)]
pub extern "C" fn xet_find_rows(
    alloc: Global,
    table: &[u8],
    word: u64,
    rows: &mut [u32],
    written: &mut usize,
) -> u32
    ensures table { Outcome (AreRowsWith table.now word)
        (λ e. (e ≡ CoreError.OutOfMemory) ⊎ RefusesTableRows table.now word e) rows.old rows.new
        written.new result }
    ensures files { (s : Shard) → (shard : List ℕ) → (info : MDBShardInfo) → IsBytesWithInfo s shard info
        → HasRowsWith (file_table_in info.metadata shard) table.now word
        → Outcome (AreStartsWith file_records (finite.values s.files) word)
        (λ e. (e ≡ CoreError.OutOfMemory)
        ⊎ CollidesAmong file_records (finite.values s.files) word e) rows.old rows.new written.new
        result }
    ensures xorbs { (s : Shard) → (shard : List ℕ) → (info : MDBShardInfo) → IsBytesWithInfo s shard info
        → HasRowsWith (xorb_table_in info.metadata shard) table.now word
        → Outcome (AreStartsWith xorb_records (finite.values s.xorbs) word)
        (λ e. (e ≡ CoreError.OutOfMemory)
        ⊎ CollidesAmong xorb_records (finite.values s.xorbs) word e) rows.old rows.new written.new
        result }
{
    let found = rows_with(alloc, table, word);
    deliver(found, rows, written)
}

fn rows_with(alloc: Global, table: &[u8], word: u64) -> Result<Vec<u32>>
    ensures table { MatchResult result (λ found. AreRowsWith table.now word found.items)
        (λ e. (e ≡ CoreError.OutOfMemory) ⊎ RefusesTableRows table.now word e) }
    ensures files { (s : Shard) → (shard : List ℕ) → (info : MDBShardInfo) → IsBytesWithInfo s shard info
        → HasRowsWith (file_table_in info.metadata shard) table.now word
        → MatchResult result
        (λ found. AreStartsWith file_records (finite.values s.files) word found.items)
        (λ e. (e ≡ CoreError.OutOfMemory)
        ⊎ CollidesAmong file_records (finite.values s.files) word e) }
    ensures xorbs { (s : Shard) → (shard : List ℕ) → (info : MDBShardInfo) → IsBytesWithInfo s shard info
        → HasRowsWith (xorb_table_in info.metadata shard) table.now word
        → MatchResult result
        (λ found. AreStartsWith xorb_records (finite.values s.xorbs) word found.items)
        (λ e. (e ≡ CoreError.OutOfMemory)
        ⊎ CollidesAmong xorb_records (finite.values s.xorbs) word e) }
{
    let mut rows = [0; MOST_FOUND];
    let count = find_rows(alloc, table, word, &mut rows)?;
    let mut found = Vec::new(alloc);
    found.extend_from_slice(&rows[..count])?;
    Ok(found)
}

/// As [`xet_find_rows`], but the places that a chunk table has.
#[unsafe(no_mangle)]
pub extern "C" fn xet_find_places(
    alloc: Global,
    table: &[u8],
    word: u64,
    places: &mut [XetChunkPlace],
    written: &mut usize,
) -> u32
    ensures table { Outcome (ArePlacesWith table.now word)
        (λ e. (e ≡ CoreError.OutOfMemory) ⊎ RefusesPlaces table.now e) places.old places.new
        written.new result }
    ensures chunks { (s : Shard) → (shard : List ℕ) → (info : MDBShardInfo) → IsBytesWithInfo s shard info
        → HasRowsWith (chunk_table_in info.metadata shard) table.now word
        → Outcome (AreChunksWith (finite.values s.xorbs) word) (λ e. e ≡ CoreError.OutOfMemory)
        places.old places.new written.new result }
{
    let found = places_with(alloc, table, word);
    deliver(found, places, written)
}

fn places_with(alloc: Global, table: &[u8], word: u64) -> Result<Vec<XetChunkPlace>>
    ensures table { MatchResult result (λ found. ArePlacesWith table.now word found.items)
        (λ e. (e ≡ CoreError.OutOfMemory) ⊎ RefusesPlaces table.now e) }
    ensures chunks { (s : Shard) → (shard : List ℕ) → (info : MDBShardInfo) → IsBytesWithInfo s shard info
        → HasRowsWith (chunk_table_in info.metadata shard) table.now word
        → MatchResult result (λ found. AreChunksWith (finite.values s.xorbs) word found.items)
        (λ e. e ≡ CoreError.OutOfMemory) }
{
    let mut places = [(0, 0); MOST_FOUND];
    let count = find_places(alloc, table, word, &mut places)?;
    places_of(alloc, &places[..count])
}

fn places_of(alloc: Global, places: &[(u32, u32)]) -> Result<Vec<XetChunkPlace>>
    ensures ok { IfOk result (λ shown. shown.items ≡ map c_chunk_place places.now) }
    ensures causes { IfErr result (λ e. e ≡ CoreError.OutOfMemory) }
{
    let mut shown = Vec::new(alloc);
    for place in places {
        shown.push(XetChunkPlace {
            row: place.0,
            index: place.1,
        })?;
    }
    Ok(shown)
}

/// As `xet_file_at` for the record at the front of some bytes of a shard of this version. Its row
/// counts as 0.
#[unsafe(no_mangle)]
pub extern "C" fn xet_file_in(
    alloc: Global,
    bytes: &[u8],
    version: u64,
    place: &mut XetPlace,
    file: &mut XetFile,
    segments: &mut [XetFileSegment],
) -> u32
    ensures { (found : CoreResult (Option MDBFileInfo)) × IsFileIn version bytes.now found
        × (ShowsFileAt 0 found place.old place.new file.old file.new segments.old segments.new
        result
        ⊎ ((result ≡ 18) × (place.new ≡ place.old) × (file.new ≡ file.old)
        × (segments.new ≡ segments.old))) }
{
    let found = file_in(alloc, version, bytes);
    show_file(alloc, 0, &found, place, file, segments)
}

/// As `xet_xorb_at` for the record at the front of some bytes. Its row counts as 0.
#[unsafe(no_mangle)]
pub extern "C" fn xet_xorb_in(
    alloc: Global,
    bytes: &[u8],
    place: &mut XetPlace,
    xorb: &mut XetXorb,
    chunks: &mut [XetChunk],
) -> u32
    ensures { (found : CoreResult (Option MDBXorbInfo)) × IsXorbIn bytes.now found
        × (ShowsXorbAt 0 found place.old place.new xorb.old xorb.new chunks.old chunks.new result
        ⊎ ((result ≡ 18) × (place.new ≡ place.old) × (xorb.new ≡ xorb.old)
        × (chunks.new ≡ chunks.old))) }
{
    let found = xorb_in(alloc, bytes);
    show_xorb(alloc, 0, &found, place, xorb, chunks)
}
