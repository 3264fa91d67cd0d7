//! Shards of bytes: by the footer, or behind the header.

ghost use Rattle.std.specs.Prelude.{◌≡◌, true, false, None, MatchResult};
ghost use Rattle.xet_shards.specs.Ends.Ends.{EndsInHeader, FormatCase, HasHeader, HasUnsupportedHeader};
ghost use Rattle.xet_shards.specs.Export.KeyedExport.{SectionsCase};
ghost use Rattle.xet_shards.specs.Read.SectionsBehindHeader.{HasSections};
ghost use Rattle.xet_shards.specs.Write.Layout.{plain_options};
ghost use Rattle.placed_shards.specs.Content.{content};
ghost use Rattle.placed_shards.specs.Opening.{Opens, ShardRefusal};

use crate::next_record::end_of_input;
use crate::placed_file::PlacedFile;
use crate::placed_shard::PlacedShard;
use crate::placed_xorb::PlacedXorb;
use crate::section::{Section, read_ascending, read_section};
use std::alloc::Global;
use xet_base::error::{CoreError, Result};
use xet_base::fields::split_u64;
use xet_base::source::MemorySource;
use xet_records::record_reader::FormatVersion;
use xet_records::rows::ROW_SIZE;
use xet_shards::shard_format::{HEADER_SIZE, MDBShardFileHeader, MDBShardInfo, TAG_SIZE};
use xet_shards::shard_writer::{LayoutOptions, bytes_from};

/// The shard that bytes hold by their footer, with its key, times and tables. Reserved words of
/// files' optional parts are zero, as reading returns them. Hashes of files and of xorbs each
/// strictly ascend.
///
/// `ShardVersion` or `UnexpectedEof` if there is no such header and footer; then, of the files
/// before the xorbs, `UnexpectedEof` if the bytes end before the section does, and `InvalidShard`
/// if the version does not have a header, the rows pass 4294967295, or a hash is not above the one
/// before it; or `OutOfMemory`.
pub fn open<'a>(alloc: Global, bytes: &'a [u8]) -> Result<PlacedShard<'a>>
    ensures { MatchResult result
        (λ shard. (shard.as_read ≡ true) × Opens bytes.now (content shard))
        (ShardRefusal bytes.now) }
{
    let mut source = MemorySource::new(bytes);
    let info = MDBShardInfo::load_from_reader(alloc, &mut source)?;
    let version = FormatVersion::of_header(info.header.version);
    let from_files = bytes_from(bytes, info.metadata.file_info_offset);
    let files = read_ascending::<PlacedFile<'a>>(alloc, from_files, version)?;
    let from_xorbs = bytes_from(bytes, info.metadata.xorb_info_offset);
    let xorbs = read_ascending::<PlacedXorb<'a>>(alloc, from_xorbs, FormatVersion::V3)?;
    Ok(PlacedShard {
        options: LayoutOptions::of_info(&info),
        as_read: true,
        files,
        xorbs,
    })
}

/// The shard of the header and both sections behind it, whatever follows: records in any order, as
/// stored, with all tables, no key, creation 0 and no expiry.
///
/// `ShardVersion` if the header is unsupported; `UnexpectedEof` if it is cut off; then the errors
/// of [`read_section`], of the files before the xorbs.
pub fn open_behind_header<'a>(alloc: Global, bytes: &'a [u8]) -> Result<PlacedShard<'a>>
    ensures { MatchResult result
        (λ shard. HasSections bytes.now shard.files.items shard.xorbs.items
        × (shard.as_read ≡ false) × (shard.options ≡ plain_options None))
        (SectionsCase bytes.now) }
{
    let version = header_version(alloc, bytes)?;
    let from_files = bytes_from(bytes, HEADER_SIZE);
    let Section {
        records: files,
        rest,
    } = read_section::<PlacedFile<'a>>(alloc, from_files, version)?;
    let Section { records: xorbs, .. } = read_section::<PlacedXorb<'a>>(
        alloc,
        rest,
        FormatVersion::V3,
    )?;
    Ok(PlacedShard {
        options: LayoutOptions::plain(None),
        as_read: false,
        files,
        xorbs,
    })
}

// `UnexpectedEof` if the header is cut off; `ShardVersion` if the tag or the version is another.
fn header_version(alloc: Global, bytes: &[u8]) -> Result<FormatVersion>
    ensures { MatchResult result
        (λ version. (header : HasHeader bytes.now) × (header.version ≡ version))
        (FormatCase HasUnsupportedHeader EndsInHeader bytes.now) }
{
    if bytes.len() < TAG_SIZE {
        return Err(end_of_input());
    }
    let (tag, rest) = bytes.split_at(TAG_SIZE);
    let known = MDBShardFileHeader::default();
    if tag != known.tag.as_slice() {
        return Err(CoreError::ShardVersion(String::new(alloc)));
    }
    if rest.len() < ROW_SIZE - TAG_SIZE {
        return Err(end_of_input());
    }
    let (number, _) = split_u64(rest);
    match FormatVersion::of_number(number) {
        Some(version) => Ok(version),
        None => Err(CoreError::ShardVersion(String::new(alloc))),
    }
}
