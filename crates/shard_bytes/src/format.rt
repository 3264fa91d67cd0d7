//! Why bytes are not in a supported format.

ghost use Rattle.xet_core_structures.specs.Ends.{IsUnsupported};
ghost use Rattle.shard_bytes.specs.Format.{IsUnsupportedFor};

use xet_core_structures::fields::split_u64;
use xet_core_structures::record_reader::FormatVersion;
use xet_core_structures::shard_format::{MDBShardFileHeader, TAG_SIZE};

/// Why the format of bytes is not supported.
#[derive(Clone, Copy, Debug, PartialEq, Eq)]
pub enum Format {
    /// The first 32 bytes are not the tag of a shard.
    NoTag,
    /// The header has this version, neither 2 nor 3.
    OtherVersion(u64),
    /// The last 200 bytes do not begin with the version of a footer.
    NoFooter,
}

pub(crate) fn unsupported_for(bytes: &[u8]) -> Format
    requires { IsUnsupported bytes.now }
    ensures { IsUnsupportedFor bytes.now result }
{
    let tag = MDBShardFileHeader::default().tag;
    if &bytes[..TAG_SIZE] != tag.as_slice() {
        return Format::NoTag;
    }
    let (version, _) = split_u64(&bytes[TAG_SIZE..]);
    match FormatVersion::of_number(version) {
        Some(_) => Format::NoFooter,
        None => Format::OtherVersion(version),
    }
}
