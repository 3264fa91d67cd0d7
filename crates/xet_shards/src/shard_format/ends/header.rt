//! The first 48 bytes of a shard.

ghost use Rattle.std.specs.Prelude.{◌≡◌, ◌≢◌, ◌⊎◌, ℕ, ◌^◌, ◌<◌, List, ◌++◌, take, Some, OnOk, IfOk, IfErr};
ghost use Rattle.std.specs.Io.KnownBytes.{Appends, Consumes};
ghost use Rattle.xet_base.specs.Bytes.{u64_bytes};
ghost use Rattle.xet_base.specs.Errors.{IsBareShardVersion, IsDeviceError, IsWriteError};
ghost use Rattle.xet_shards.specs.Ends.Ends.{HasUnsupportedHeader, EndsInHeader, SaysUnsupported, SaysEndOfInput};
ghost use Rattle.xet_records.specs.declared.record_reader.FormatVersion.{FormatVersion};
ghost use Rattle.xet_records.specs.Version.{number_of, IsVersion, version_of};
ghost use Rattle.xet_shards.specs.Write.Layout.{header_tag, shard_header_bytes, header_value};

use crate::shard_format::{FOOTER_SIZE, HEADER_SIZE, TAG_SIZE};
use std::alloc::Global;
use std::io::{Read, Write};
use xet_base::error::{CoreError, Result};
use xet_base::fields::split_u64;
use xet_base::serialization_utils::{read_bytes, write_bytes, write_u64};
use xet_records::record_reader::FormatVersion;

/// A text and a magic number.
const MDB_SHARD_HEADER_TAG: [u8; TAG_SIZE] = [
    b'H', b'F', b'R', b'e', b'p', b'o', b'M', b'e', b't', b'a', b'D', b'a', b't', b'a', 0, 85, 105,
    103, 69, 106, 123, 129, 87, 131, 165, 189, 217, 92, 205, 209, 74, 169,
];

/// The size of a header after its tag, in bytes.
pub(super) const AFTER_TAG: usize = HEADER_SIZE as usize - TAG_SIZE;

/// The header of a shard.
#[derive(Clone, Copy, Debug, PartialEq, Eq)]
pub struct MDBShardFileHeader {
    pub tag: [u8; TAG_SIZE],
    pub version: u64,
    /// The size of the footer, in bytes.
    pub footer_size: u64,
}

impl Default for MDBShardFileHeader {
    ghost is_default = { λ h. h ≡ header_value FormatVersion.V3 };

    fn default() -> Self {
        MDBShardFileHeader::of_version(FormatVersion::V3)
    }
}

impl MDBShardFileHeader {
    /// The header of a shard of this version.
    pub fn of_version(version: FormatVersion) -> Self
        ensures { result ≡ header_value version }
    {
        MDBShardFileHeader {
            tag: MDB_SHARD_HEADER_TAG,
            version: version.number(),
            footer_size: FOOTER_SIZE,
        }
    }

    /// The version in which the shard's sections are read.
    pub fn format_version(&self) -> FormatVersion
        ensures { result ≡ version_of self.now.version }
    {
        FormatVersion::of_header(self.version)
    }

    /// Writes the tag of every shard, this version and footer size, and returns their size, 48. The
    /// error is the writer's.
    #[tactic(auto, unfolding(crate::specs::Write::Layout::shard_header_bytes))]
    pub fn serialize<W: Write>(&self, writer: &mut W) -> Result<usize>
        ensures bytes { OnOk result
            (Appends (W.contents writer.old) (W.contents writer.new)
            (shard_header_bytes self.now)) }
        ensures count { IfOk result (λ n. n ≡ 48) }
        ensures causes { IfErr result IsWriteError }
    {
        write_bytes(writer, &MDB_SHARD_HEADER_TAG)?;
        write_u64(writer, self.version)?;
        write_u64(writer, self.footer_size)?;
        Ok(HEADER_SIZE as usize)
    }

    /// Reads the header. `ShardVersion` if the tag, checked after 32 bytes, differs, or the version
    /// is neither 2 nor 3; else `UnexpectedEof` if bytes are missing; or the reader's error.
    #[tactic(auto, unfolding(crate::specs::Write::Layout::shard_header_bytes))]
    pub fn deserialize<R: Read>(alloc: Global, reader: &mut R) -> Result<Self>
        ensures bytes { IfOk result
            (λ h. Consumes (R.remaining reader.old) (R.remaining reader.new)
            (shard_header_bytes h)) }
        ensures tag { IfOk result (λ h. (h.tag ≡ header_tag) × IsVersion h.version) }
        ensures width { IfOk result (λ h. h.footer_size < 2 ^ 64) }
        ensures again { (h : MDBShardFileHeader) → (rest : List ℕ) → h.tag ≡ header_tag
            → IsVersion h.version → h.footer_size < 2 ^ 64
            → R.remaining reader.old ≡ Some (shard_header_bytes h ++ rest)
            → IfOk result (λ found. (found ≡ h) × (R.remaining reader.new ≡ Some rest)) }
        ensures unsupported { IfErr result
            (SaysUnsupported HasUnsupportedHeader (R.remaining reader.old)) }
        ensures end { IfErr result (SaysEndOfInput EndsInHeader (R.remaining reader.old)) }
        ensures causes { IfErr result (λ e. IsDeviceError e ⊎ IsBareShardVersion e) }
    {
        let mut tag = [0u8; TAG_SIZE];
        read_bytes(reader, &mut tag)?;
        check_tag(alloc, &tag)?;
        let mut rest = [0u8; AFTER_TAG];
        read_bytes(reader, &mut rest)?;
        MDBShardFileHeader::after_tag(alloc, &rest)
    }

    // `ShardVersion` if the version is neither 2 nor 3.
    pub(in crate::shard_format) fn after_tag(alloc: Global, rest: &[u8; AFTER_TAG]) -> Result<Self>
        ensures ok { IfOk result
            (λ h. (h.tag ≡ header_tag) × IsVersion h.version
            × (rest.now ≡ u64_bytes h.version ++ u64_bytes h.footer_size)) }
        ensures width { IfOk result (λ h. h.footer_size < 2 ^ 64) }
        ensures err { IfErr result
            (λ e. IsBareShardVersion e
            × ((version : FormatVersion) → take 8 rest.now ≢ u64_bytes (number_of version))) }
    {
        let (version, rest) = split_u64(rest);
        let (footer_size, _) = split_u64(rest);
        let Some(_known) = FormatVersion::of_number(version) else {
            return Err(CoreError::ShardVersion(String::new(alloc)));
        };
        Ok(MDBShardFileHeader {
            tag: MDB_SHARD_HEADER_TAG,
            version,
            footer_size,
        })
    }
}

// `ShardVersion` if the tag differs.
pub(in crate::shard_format) fn check_tag(alloc: Global, tag: &[u8; TAG_SIZE]) -> Result<()>
    ensures ok { OnOk result (tag.now ≡ header_tag) }
    ensures err { IfErr result (λ e. IsBareShardVersion e × (tag.now ≢ header_tag)) }
{
    if *tag != MDB_SHARD_HEADER_TAG {
        return Err(CoreError::ShardVersion(String::new(alloc)));
    }
    Ok(())
}
