//! Writing records, and reading them.

ghost use Rattle.std.specs.Prelude.{◌≡◌, ◌^◌, ◌<◌, Option, IfOk, IfSome, MatchResult};
ghost use Rattle.std.specs.FinMap as finite;
ghost use Rattle.xet_core_structures.specs.declared.error.CoreError.{CoreError};
ghost use Rattle.xet_core_structures.specs.Layout.{layout_in};
ghost use Rattle.xet_core_structures.specs.Shard.{Shard, IsShard};
ghost use Rattle.xet_core_structures.specs.WrittenShard.{HasFilesIn, IsBytesOf};
ghost use Rattle.shard_bytes.specs.Recording.{shard_of, CanAddRecords, AdmitsAll, HasRecords, RefusesRecords};

use bumpalo::Bump;
use placed_shards::records::of_records;
use std::alloc::Global;
use xet_core_structures::error::Result;
use xet_core_structures::file_structs::MDBFileInfo;
use xet_core_structures::record_reader::FormatVersion;
use xet_core_structures::shard_format::MDBShardInfo;
use xet_core_structures::shard_writer::LayoutOptions;
use xet_core_structures::source::MemorySource;
use xet_core_structures::xorb_structs::MDBXorbInfo;

/// The records of a shard, in the order of their sections.
#[derive(Debug, PartialEq, Drop)]
pub struct Records {
    pub files: Vec<MDBFileInfo>,
    pub xorbs: Vec<MDBXorbInfo>,
}

/// The bytes of the shard of these records in any order, with all tables, no key, creation 0, and
/// an expiry in seconds or none. Of two files, or two xorbs, with one hash the later counts.
///
/// `InvalidArguments` if a record is ill-formed, if after some record the rows of a section pass
/// 4294967295, or for an auxiliary row of the shard in version 2; or `OutOfMemory`.
pub fn write_records(
    alloc: Global,
    files: Vec<MDBFileInfo>,
    xorbs: Vec<MDBXorbInfo>,
    version: FormatVersion,
    expiry: Option<u64>,
) -> Result<Vec<u8>>
    ensures written { IfOk result
        (λ bytes. bytes.items ≡ layout_in version (shard_of files.items xorbs.items) expiry) }
    ensures shard { IfOk result (λ _. IsShard (shard_of files.items xorbs.items)) }
    ensures readable { IfOk result
        (λ bytes. IsBytesOf (shard_of files.items xorbs.items) bytes.items) }
    ensures admitted { AdmitsAll
        (CanAddRecords files.items xorbs.items
        × HasFilesIn version (shard_of files.items xorbs.items)) result }
{
    seconds_fit(expiry);
    let arena = Bump::new(alloc);
    let shard = of_records(alloc, &arena, files, xorbs)?;
    let shard = shard.with_options(LayoutOptions::plain(expiry));
    shard.to_bytes(alloc, version)
}

// An expiry has 64 bits.
fn seconds_fit(expiry: Option<u64>)
    ensures { IfSome expiry (λ e. e < 2 ^ 64) }
{}

/// The records of the sections to which the footer leads, chunk hashes as stored. No table is read.
///
/// Fails as [`MDBShardInfo::load_from_reader`], [`MDBShardInfo::read_all_file_info_sections`] and
/// [`MDBShardInfo::read_all_xorb_blocks_full`] do.
pub fn read_records(alloc: Global, bytes: &[u8]) -> Result<Records>
    ensures any_bytes { MatchResult result (HasRecords bytes.now) (RefusesRecords bytes.now) }
    ensures written { (s : Shard) → IsBytesOf s bytes.now
        → MatchResult result
        (λ found. (found.files.items ≡ finite.values s.files)
        × (found.xorbs.items ≡ finite.values s.xorbs))
        (λ e. e ≡ CoreError.OutOfMemory) }
{
    let mut source = MemorySource::new(bytes);
    let info = MDBShardInfo::load_from_reader(alloc, &mut source)?;
    let files = info.read_all_file_info_sections(alloc, &mut source)?;
    let xorbs = info.read_all_xorb_blocks_full(alloc, &mut source)?;
    Ok(Records { files, xorbs })
}

/// Does nothing: [`write_records`] makes a well-formed shard again from what [`read_records`]
/// gives.
pub fn read_records_are_written_again()
    ensures admitted { (s : Shard) → IsShard s
        → CanAddRecords (finite.values s.files) (finite.values s.xorbs) }
    ensures again { (s : Shard) → IsShard s
        → shard_of (finite.values s.files) (finite.values s.xorbs) ≡ s }
{}
