//! Lookups in a table or a record that was read by itself.

ghost use Rattle.std.specs.Prelude.{◌≡◌, ◌≢◌, ◌<◌, ◌≤◌, ◌+◌, ◌*◌, ◌%◌, ◌/◌, ◌^◌, ◌∷◌, ℕ, Contains, List, Option, Some, length, IfOk, IsOkAnd, MatchResult};
ghost use Rattle.std.specs.FinMap as finite;
ghost use Rattle.xet_core_structures.specs.declared.error.CoreError.{CoreError};
ghost use Rattle.xet_core_structures.specs.declared.file_structs.MDBFileInfo.{MDBFileInfo};
ghost use Rattle.xet_core_structures.specs.declared.merklehash.DataHash.{DataHash};
ghost use Rattle.xet_core_structures.specs.declared.shard_format.MDBShardInfo.{MDBShardInfo};
ghost use Rattle.xet_core_structures.specs.declared.xorb_structs.MDBXorbInfo.{MDBXorbInfo};
ghost use Rattle.xet_core_structures.specs.ChunkQuery.{Run};
ghost use Rattle.xet_core_structures.specs.Ends.{HasHeaderAndFooter};
ghost use Rattle.xet_core_structures.specs.FileRecord.{file_record_bytes, file_records};
ghost use Rattle.xet_core_structures.specs.KeyedHash.{no_key};
ghost use Rattle.xet_core_structures.specs.Lookup.{FoundInShard, HasAt, StartsAmong, row_at, with_first_word};
ghost use Rattle.xet_core_structures.specs.Shard.{Shard};
ghost use Rattle.xet_core_structures.specs.Table.{IsSorted, Table};
ghost use Rattle.xet_core_structures.specs.WrittenQueries.{RunAmong};
ghost use Rattle.xet_core_structures.specs.WrittenShard.{IsBytesWithInfo};
ghost use Rattle.xet_core_structures.specs.XorbRecord.{xorb_record_bytes, xorb_records};
ghost use Rattle.xet_shards.specs.Lookup.WrittenChunks.{RowsAmong};
ghost use Rattle.xet_shards.specs.Write.Section.{StartsAt};
ghost use Rattle.xet_shards.specs.Write.Tables.{starts};
ghost use Rattle.shard_bytes.specs.Finding.{FindsFile, RefusesFile};
ghost use Rattle.shard_bytes.specs.PartLookups.{HasFileIn, RefusesFileIn, HasXorbIn, RefusesXorbIn, FindsPlaces, FindsRowsIn, RefusesPlaces, RefusesTableRows, CollidesAmong, IsCut};
ghost use Rattle.shard_bytes.specs.Query.{AnswersQuery};
ghost use Rattle.shard_bytes.specs.RangeReads.{HasRowsWith, IsAround, FindsFileInParts, FindsXorbInParts, QueriesInParts, chunk_table_in, file_table_in, xorb_table_in};
ghost use Rattle.shard_bytes.specs.Walking.{HasFileAt, HasXorbAt};

use crate::walk::unless_bookend;
use std::alloc::Global;
use xet_core_structures::error::{CoreError, Result};
use xet_core_structures::file_structs::MDBFileInfo;
use xet_core_structures::merklehash::MerkleHash;
use xet_core_structures::record_reader::FormatVersion;
use xet_core_structures::shard_format::{
    CHUNK_ROW_SIZE, MDBShardFileFooter, MDBShardFileHeader, MDBShardInfo, START_ROW_SIZE,
};
use xet_core_structures::source::MemorySource;
use xet_core_structures::xorb_structs::MDBXorbInfo;

/// Puts the rows at which the records whose hashes have this first word start, fewer than eight, at
/// the front of `rows`, and returns their number. The table, of files or of xorbs, may be a part
/// that has all rows with the word.
///
/// `InvalidArguments` if its size is no multiple of 12 bytes; `TruncatedHashCollision` with the
/// word if eight or more rows have it.
pub fn find_rows(alloc: Global, table: &[u8], word: u64, rows: &mut [u32; 8]) -> Result<usize>
    ensures table { MatchResult result (FindsRowsIn table.now word rows.old rows.new)
        (RefusesTableRows table.now word) }
    ensures files { (s : Shard) → (shard : List ℕ) → (info : MDBShardInfo) → IsBytesWithInfo s shard info
        → HasRowsWith (file_table_in info.metadata shard) table.now word
        → MatchResult result (StartsAmong file_records (finite.values s.files) word rows.new)
        (CollidesAmong file_records (finite.values s.files) word) }
    ensures xorbs { (s : Shard) → (shard : List ℕ) → (info : MDBShardInfo) → IsBytesWithInfo s shard info
        → HasRowsWith (xorb_table_in info.metadata shard) table.now word
        → MatchResult result (StartsAmong xorb_records (finite.values s.xorbs) word rows.new)
        (CollidesAmong xorb_records (finite.values s.xorbs) word) }
{
    search_starts(alloc, table, word, rows)
}

fn search_starts(alloc: Global, table: &[u8], word: u64, rows: &mut [u32; 8]) -> Result<usize>
    ensures { MatchResult result (FindsRowsIn table.now word rows.old rows.new)
        (RefusesTableRows table.now word) }
{
    let mut info = MDBShardInfo::default();
    info.metadata.file_lookup_num_entry = row_count_of(table, START_ROW_SIZE as u64)?;
    let mut source = MemorySource::new(table);
    info.get_file_info_index_by_hash(alloc, &mut source, &hash_with_word(word), rows)
}

/// As [`find_rows`], but of a chunk table, whose words are under the shard's key, if it has one: up
/// to eight chunks, each by the row at which its xorb starts and its index in it.
///
/// Fails only with `InvalidArguments` if the size is no multiple of 16 bytes.
pub fn find_places(
    alloc: Global,
    table: &[u8],
    word: u64,
    places: &mut [(u32, u32); 8],
) -> Result<usize>
    ensures table { MatchResult result (FindsPlaces table.now word places.old places.new)
        (RefusesPlaces table.now) }
    ensures chunks { (s : Shard) → (shard : List ℕ) → (info : MDBShardInfo) → IsBytesWithInfo s shard info
        → HasRowsWith (chunk_table_in info.metadata shard) table.now word
        → IsOkAnd result (RowsAmong (finite.values s.xorbs) word places.old places.new) }
{
    search_chunks(alloc, table, word, places)
}

fn search_chunks(
    alloc: Global,
    table: &[u8],
    word: u64,
    places: &mut [(u32, u32); 8],
) -> Result<usize>
    ensures { MatchResult result (FindsPlaces table.now word places.old places.new)
        (RefusesPlaces table.now) }
{
    let mut info = MDBShardInfo::default();
    info.metadata.chunk_lookup_num_entry = row_count_of(table, CHUNK_ROW_SIZE as u64)?;
    let mut source = MemorySource::new(table);
    info.get_xorb_info_index_by_chunk(alloc, &mut source, &hash_with_word(word), places)
}

// `InvalidArguments` if the last row is cut.
fn row_count_of(table: &[u8], row_size: u64) -> Result<u64>
    requires { 0 < row_size }
    ensures { MatchResult result
        (λ rows. (length table.now % row_size ≡ 0) × (rows ≡ length table.now / row_size)
        × (length table.now < 2 ^ 64))
        (λ e. (e ≡ CoreError.InvalidArguments) × (length table.now % row_size ≢ 0)) }
{
    let size = table.len() as u64;
    if size % row_size != 0 {
        return Err(CoreError::InvalidArguments);
    }
    Ok(size / row_size)
}

fn hash_with_word(word: u64) -> MerkleHash
    ensures { result ≡ record { word0 = word; word1 = 0; word2 = 0; word3 = 0 } }
{
    MerkleHash::from([word, 0, 0, 0])
}

/// Does nothing: lookups in parts find what [`find_file`](crate::find::find_file) and
/// [`query_chunks`](crate::query::query_chunks) find in all bytes.
pub fn parts_are_enough()
    ensures any_file { (shard : List ℕ) → (info : MDBShardInfo) → (hash : DataHash)
        → (answer : Option MDBFileInfo) → length shard < 2 ^ 64 → HasHeaderAndFooter shard info
        → FindsFileInParts info.metadata shard hash answer → FindsFile shard hash answer }
    ensures any_collision { (shard : List ℕ) → (info : MDBShardInfo) → (hash : DataHash)
        → (table : List ℕ) → (e : CoreError) → length shard < 2 ^ 64 → HasHeaderAndFooter shard info
        → HasRowsWith (file_table_in info.metadata shard) table hash.word0
        → RefusesTableRows table hash.word0 e → RefusesFile shard hash e }
    ensures file { (s : Shard) → (shard : List ℕ) → (info : MDBShardInfo) → (hash : DataHash)
        → (answer : Option MDBFileInfo) → IsBytesWithInfo s shard info
        → FindsFileInParts info.metadata shard hash answer → FoundInShard s hash answer }
    ensures xorb { (s : Shard) → (shard : List ℕ) → (info : MDBShardInfo) → (hash : DataHash)
        → (answer : Option MDBXorbInfo) → IsBytesWithInfo s shard info
        → FindsXorbInParts info.metadata shard hash answer
        → (length (with_first_word xorb_records hash.word0 (finite.values s.xorbs)) < 8)
        × (answer ≡ finite.get s.xorbs hash) }
    ensures any_query { (shard : List ℕ) → (info : MDBShardInfo) → (q : DataHash)
        → (qs : List DataHash) → (answer : Option Run) → length shard < 2 ^ 64
        → HasHeaderAndFooter shard info → QueriesInParts info.metadata shard q qs answer
        → AnswersQuery shard (q ∷ qs) answer }
    ensures query { (s : Shard) → (shard : List ℕ) → (info : MDBShardInfo) → (q : DataHash)
        → (qs : List DataHash) → (answer : Option Run) → IsBytesWithInfo s shard info
        → QueriesInParts info.metadata shard q qs answer
        → RunAmong no_key (q ∷ qs) (finite.values s.xorbs) answer }
{}

/// Does nothing: part of a shard's table has all rows with a word if it begins with a smaller word
/// or at the start, and ends with a greater one or at the end.
pub fn parts_have_rows()
    ensures whole { (t : Table) → (part : List ℕ) → (word : ℕ) → t.start ≤ length t.bytes
        → IsCut t.bytes t.start ((8 + t.width) * t.rows) part → HasRowsWith t part word }
    ensures around { (t : Table) → (part : List ℕ) → (word : ℕ) → IsSorted t
        → IsAround t part word → HasRowsWith t part word }
    ensures sorted { (s : Shard) → (shard : List ℕ) → (info : MDBShardInfo) → IsBytesWithInfo s shard info
        → IsSorted (file_table_in info.metadata shard) × IsSorted (xorb_table_in info.metadata shard)
        × IsSorted (chunk_table_in info.metadata shard) }
    ensures starts { (files : List MDBFileInfo) → (word row : ℕ)
        → Contains (starts file_records files) (word, row)
        → (file : MDBFileInfo) × StartsAt file_records files row file
        × (file.metadata.file_hash.word0 ≡ word) }
    ensures xorb_starts { (xorbs : List MDBXorbInfo) → (word row : ℕ)
        → Contains (starts xorb_records xorbs) (word, row)
        → (xorb : MDBXorbInfo) × StartsAt xorb_records xorbs row xorb
        × (xorb.metadata.xorb_hash.word0 ≡ word) }
{}

/// The file whose record begins these bytes, or `None` at a section's bookend.
///
/// `InvalidArguments` if the version, that of the shard's header, is neither 2 nor 3;
/// `UnexpectedEof` if the record does not end in these bytes. Else fails as
/// [`MDBShardInfo::read_file_info`] does.
pub fn file_in(alloc: Global, version: u64, bytes: &[u8]) -> Result<Option<MDBFileInfo>>
    ensures any_bytes { MatchResult result (HasFileIn version bytes.now)
        (RefusesFileIn version bytes.now) }
    ensures in_shard { (shard : List ℕ) → (info : MDBShardInfo) → (row : ℕ)
        → HasHeaderAndFooter shard info → info.header.version ≡ version
        → HasAt shard (row_at info.metadata.file_info_offset row) bytes.now
        → IfOk result (HasFileAt shard row) }
    ensures written { (s : Shard) → (shard : List ℕ) → (info : MDBShardInfo) → (row : ℕ)
        → (file : MDBFileInfo) → IsBytesWithInfo s shard info → info.header.version ≡ version
        → StartsAt file_records (finite.values s.files) row file
        → HasAt shard (row_at info.metadata.file_info_offset row) bytes.now
        → length (file_record_bytes file) ≤ length bytes.now
        → MatchResult result (λ found. found ≡ Some file) (λ e. e ≡ CoreError.OutOfMemory) }
{
    read_file(alloc, version, bytes)
}

fn read_file(alloc: Global, version: u64, bytes: &[u8]) -> Result<Option<MDBFileInfo>>
    ensures { MatchResult result (HasFileIn version bytes.now) (RefusesFileIn version bytes.now) }
{
    let Some(version) = FormatVersion::of_number(version) else {
        return Err(CoreError::InvalidArguments);
    };
    let info = MDBShardInfo {
        header: MDBShardFileHeader::of_version(version),
        metadata: MDBShardFileFooter::default(),
    };
    let mut source = MemorySource::new(bytes);
    unless_bookend(info.read_file_info(alloc, &mut source, 0))
}

/// As [`file_in`], but of a xorb. Fails as [`MDBShardInfo::read_xorb_info`] does.
pub fn xorb_in(alloc: Global, bytes: &[u8]) -> Result<Option<MDBXorbInfo>>
    ensures any_bytes { MatchResult result (HasXorbIn bytes.now) (RefusesXorbIn bytes.now) }
    ensures in_shard { (shard : List ℕ) → (info : MDBShardInfo) → (row : ℕ)
        → HasHeaderAndFooter shard info
        → HasAt shard (row_at info.metadata.xorb_info_offset row) bytes.now
        → IfOk result (HasXorbAt shard row) }
    ensures written { (s : Shard) → (shard : List ℕ) → (info : MDBShardInfo) → (row : ℕ)
        → (xorb : MDBXorbInfo) → IsBytesWithInfo s shard info
        → StartsAt xorb_records (finite.values s.xorbs) row xorb
        → HasAt shard (row_at info.metadata.xorb_info_offset row) bytes.now
        → length (xorb_record_bytes xorb) ≤ length bytes.now
        → MatchResult result (λ found. found ≡ Some xorb) (λ e. e ≡ CoreError.OutOfMemory) }
{
    read_xorb(alloc, bytes)
}

fn read_xorb(alloc: Global, bytes: &[u8]) -> Result<Option<MDBXorbInfo>>
    ensures { MatchResult result (HasXorbIn bytes.now) (RefusesXorbIn bytes.now) }
{
    let mut source = MemorySource::new(bytes);
    unless_bookend(MDBShardInfo::default().read_xorb_info(alloc, &mut source, 0))
}
