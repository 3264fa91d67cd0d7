//! Where the rows of each file are.

ghost use Rattle.std.specs.Prelude.{◌≡◌, ◌⊎◌, ℕ, Option, ◌+◌, ◌*◌, ◌^◌, ◌<◌, ◌≤◌, MatchResult, IfOk, IfErr};
ghost use Rattle.std.specs.FinMap as finite;
ghost use Rattle.xet_base.specs.Source.{DeviceFailure, bytes_left};
ghost use Rattle.xet_records.specs.FileRecord.{rows_after};
ghost use Rattle.xet_shards.specs.Content.Shard.{Shard};
ghost use Rattle.xet_shards.specs.Write.WrittenShard.{IsBytesOf};
ghost use Rattle.xet_shards.specs.Read.FileRanges.{file_ranges, ranges_after, ranges_at, ReadsFileRanges, FileRangesFail};

use super::section_walk::{WalkItem, walk_section};
use crate::shard_format::ends::info::{MDBShardInfo, read_header};
use std::alloc::Global;
use xet_base::error::{CoreError, Result};
use xet_base::merklehash::MerkleHash;
use xet_base::source::ShardSource;
use xet_records::file_structs::{FileDataSequenceHeader, FileMetadataExt, MDBFileInfo};
use xet_records::rows::ROW_SIZE;

/// A file's hash, the ranges of its segments and verification rows, and its SHA-256.
type FileRanges = (
    MerkleHash,
    (u64, u64),
    Option<(u64, u64)>,
    Option<MerkleHash>,
);

impl MDBShardInfo {
    /// Reads a shard's header and file section from the source's position on, without a seek: for
    /// each file its hash, the byte ranges in the source of its segments and any verification rows,
    /// ends excluded, and any SHA-256.
    ///
    /// `ShardVersion` if the tag or version is unsupported; `InvalidShard` if the version does not
    /// have a file's header, or past 4294967295 rows; `UnexpectedEof` if the source ends before the
    /// bookend; `OutOfMemory`; or the source's error.
    pub fn read_file_info_ranges<S: ShardSource>(
        alloc: Global,
        source: &mut S,
    ) -> Result<Vec<FileRanges>>
        ensures read { MatchResult result
            (λ found. ReadsFileRanges (S.meaning source.old) (S.meaning source.new) found.items)
            (FileRangesFail (S.meaning source.old) (S.meaning source.new)) }
        ensures written { (s : Shard) → IsBytesOf s (bytes_left (S.meaning source.old))
            → MatchResult result
            (λ found. found.items
            ≡ file_ranges ((S.meaning source.old).at + 48) (finite.values s.files))
            (λ e. DeviceFailure (S.meaning source.old) (S.meaning source.new) e
            ⊎ (e ≡ CoreError.OutOfMemory)) }
    {
        read_header_and_ranges(alloc, source)
    }
}

fn read_header_and_ranges<S: ShardSource>(alloc: Global, source: &mut S) -> Result<Vec<FileRanges>>
    ensures { MatchResult result
        (λ found. ReadsFileRanges (S.meaning source.old) (S.meaning source.new) found.items)
        (FileRangesFail (S.meaning source.old) (S.meaning source.new)) }
{
    let header = read_header(alloc, source)?;
    walk_section::<MDBFileInfo, FileRanges, S>(alloc, source, header.format_version())
}

impl WalkItem<MDBFileInfo> for FileRanges {
    ghost keep = { ranges_at };

    fn of_record(
        offset: u64,
        header: &FileDataSequenceHeader,
        metadata_ext: Option<FileMetadataExt>,
    ) -> FileRanges {
        ranges_after(offset + ROW_SIZE as u64, header, metadata_ext)
    }
}

fn ranges_after(
    start: u64,
    header: &FileDataSequenceHeader,
    metadata_ext: Option<FileMetadataExt>,
) -> FileRanges
    requires { start + 48 * rows_after header.now < 2 ^ 64 }
    ensures { result ≡ ranges_after start header.now metadata_ext }
{
    let bytes = ROW_SIZE as u64 * u64::from(header.num_entries);
    let end = start + bytes;
    let verification = if header.contains_verification() {
        Some((end, end + bytes))
    } else {
        None
    };
    let sha256 = metadata_ext.map(|row| row.sha256);
    (header.file_hash, (start, end), verification, sha256)
}
