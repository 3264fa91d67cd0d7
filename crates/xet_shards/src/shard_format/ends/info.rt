//! Reading and writing header, footer and sections.

ghost use Rattle.std.specs.Prelude.{◌≡◌, ◌⊎◌, ℕ, Option, ◌+◌, ◌*◌, ◌^◌, ◌<◌, ◌≤◌, ◌++◌, length, List, [], IsTrue, IsErrAnd, false, All, map, MatchResult, OnOk, IfOk, IfErr, IfSome};
ghost use Rattle.std.specs.BTreeMap.{values};
ghost use Rattle.std.specs.FinMap as finite;
ghost use Rattle.std.specs.Io.KnownBytes.{Appends};
ghost use Rattle.xet_base.specs.Errors.{IsWriteError, IsBareInvalidShard};
ghost use Rattle.xet_shards.specs.Content.Shard.{Shard, IsShard, has_aux_rows};
ghost use Rattle.xet_shards.specs.Write.Layout.{layout, layout_in, layout_of, info_of, info_value, info_value_in, header_tag, shard_header_bytes, shard_footer_bytes};
ghost use Rattle.xet_shards.specs.Write.WrittenShard.{IsBytesWithInfo, ReadsBack, ReadsOfShard};
ghost use Rattle.xet_base.specs.Source.{ReadsBytes, DeviceFailure};
ghost use Rattle.xet_records.specs.Version.{IsVersion};
ghost use Rattle.xet_records.specs.declared.record_reader.FormatVersion.{FormatVersion};
ghost use Rattle.xet_records.specs.FileRecord.{file_records, IsWellFormed};
ghost use Rattle.xet_records.specs.Limits.{MAX_ROWS};
ghost use Rattle.xet_records.specs.XorbRecord.{xorb_records, HasItsChunks};
ghost use Rattle.xet_shards.specs.Write.Section.{total_rows};
ghost use Rattle.xet_shards.specs.Read.SectionReading.{ReadsFiles, ReadsXorbs, SectionFails};
ghost use Rattle.xet_shards.specs.Read.XorbHeaders.{xorb_headers, ReadsXorbHeaders};
ghost use Rattle.xet_shards.specs.Ends.Ends.{HasHeaderAndFooter, HasUnsupportedHeader, EndsInHeader, HasUnsupportedFooter, EndsInFooter, FitsFooter, PartFails, Loads, LoadFails};

use super::footer::{AFTER_VERSION, MDBShardFileFooter, check_version};
use super::header::{AFTER_TAG, MDBShardFileHeader, check_tag};
use super::options::LayoutOptions;
use crate::shard_format::read::section_reader::{read_section_at, read_xorb_headers};
use crate::shard_format::write::shard_end::write_end;
use crate::shard_format::write::writer::{HoldsRecord, write_values};
use crate::shard_format::write::written::{WrittenFiles, WrittenXorbs};
use crate::shard_format::{FOOTER_SIZE, TAG_SIZE};
use crate::shard_in_memory::MDBInMemoryShard;
use std::alloc::Global;
use std::collections::BTreeMap;
use std::io;
use std::io::{ErrorKind, Write};
use xet_base::error::{CoreError, Result};
use xet_base::merklehash::MerkleHash;
use xet_base::source::{ShardSource, read_full};
use xet_records::file_structs::MDBFileInfo;
use xet_records::record_reader::FormatVersion;
use xet_records::xorb_structs::{MDBXorbInfo, XorbChunkSequenceHeader};

/// The header and the footer of a shard. File sections are read in the header's version; one other
/// than 2 is taken for 3.
#[derive(Clone, Copy, Default, Debug, PartialEq, Eq)]
pub struct MDBShardInfo {
    pub header: MDBShardFileHeader,
    pub metadata: MDBShardFileFooter,
}

impl MDBShardInfo {
    /// Reads the header at the source's front and the footer in its last 200 bytes. Does not
    /// allocate.
    ///
    /// `ShardVersion` if the tag differs, the header's version is neither 2 nor 3 or the footer's
    /// is not 1; `UnexpectedEof` if bytes are missing; or the source's error.
    pub fn load_from_reader<S: ShardSource>(alloc: Global, source: &mut S) -> Result<Self>
        ensures read { MatchResult result (Loads (S.meaning source.old) (S.meaning source.new))
            (LoadFails (S.meaning source.old) (S.meaning source.new)) }
        ensures ends { (info : MDBShardInfo) → HasHeaderAndFooter (S.meaning source.old).bytes info
            → MatchResult result (λ found. found ≡ info)
            (DeviceFailure (S.meaning source.old) (S.meaning source.new)) }
        ensures written { (version : FormatVersion) → (s : Shard) → (expiry : Option ℕ) → IsShard s
            → IfSome expiry (λ e. e < 2 ^ 64)
            → (S.meaning source.old).bytes ≡ layout_in version s expiry
            → MatchResult result (λ info. info ≡ info_value_in version s expiry)
            (DeviceFailure (S.meaning source.old) (S.meaning source.new)) }
    {
        read_ends(alloc, source)
    }

    /// Writes a shard in version 3 and returns its header and footer. The expiry is a timestamp in
    /// seconds. The error is the writer's, or `OutOfMemory`.
    pub fn serialize_from<W: Write>(
        alloc: Global,
        writer: &mut W,
        shard: &MDBInMemoryShard,
        expiry: Option<u64>,
    ) -> Result<Self>
        ensures bytes { OnOk result
            (Appends (W.contents writer.old) (W.contents writer.new)
            (layout shard.now.content expiry)) }
        ensures info { IfOk result (λ info. info ≡ info_value shard.now.content expiry) }
        ensures widths { IfOk result (λ info. FitsFooter info.metadata) }
        ensures shard { IfOk result (λ _. IsShard shard.now.content) }
        ensures causes { IfErr result IsWriteError }
    {
        write_shard(alloc, writer, shard, &LayoutOptions::plain(expiry))
    }

    /// As [`MDBShardInfo::serialize_from`], but in version 2, which has no auxiliary rows: if a
    /// file has one, `InvalidArguments`, and nothing is written.
    pub fn serialize_from_v2<W: Write>(
        alloc: Global,
        writer: &mut W,
        shard: &MDBInMemoryShard,
        expiry: Option<u64>,
    ) -> Result<Self>
        ensures bytes { OnOk result
            (Appends (W.contents writer.old) (W.contents writer.new)
            (layout_in FormatVersion.V2 shard.now.content expiry)) }
        ensures info { IfOk result
            (λ info. info ≡ info_value_in FormatVersion.V2 shard.now.content expiry) }
        ensures widths { IfOk result (λ info. FitsFooter info.metadata) }
        ensures shard { IfOk result (λ _. IsShard shard.now.content) }
        ensures files { IfOk result (λ _. has_aux_rows shard.now.content ≡ false) }
        ensures refused { IsTrue (has_aux_rows shard.now.content)
            → IsErrAnd result (λ e. e ≡ CoreError.InvalidArguments) × (writer.new ≡ writer.old) }
        ensures causes { IfErr result
            (λ e. IsWriteError e
            ⊎ ((e ≡ CoreError.InvalidArguments) × IsTrue (has_aux_rows shard.now.content))) }
    {
        if shard.has_aux_rows() {
            return Err(CoreError::InvalidArguments);
        }
        let options = LayoutOptions {
            version: FormatVersion::V2,
            ..LayoutOptions::plain(expiry)
        };
        write_shard(alloc, writer, shard, &options)
    }

    /// The number of rows of the file table, 0 without one.
    pub fn num_file_entries(&self) -> u64
        ensures { result ≡ self.now.metadata.file_lookup_num_entry }
    {
        self.metadata.file_lookup_num_entry
    }

    /// The size of the shard, in bytes. `InvalidShard` if it exceeds `u64`.
    pub fn num_bytes(&self, alloc: Global) -> Result<u64>
        ensures { MatchResult result (λ n. n ≡ self.now.metadata.footer_offset + 200)
            (λ e. IsBareInvalidShard e × (2 ^ 64 ≤ self.now.metadata.footer_offset + 200)) }
    {
        match self.metadata.footer_offset.checked_add(FOOTER_SIZE) {
            Some(bytes) => Ok(bytes),
            None => Err(CoreError::InvalidShard(String::new(alloc))),
        }
    }

    /// Reads all files, in order.
    ///
    /// `InvalidShard` if the shard's version does not have a file's header, or past 4294967295
    /// rows; `UnexpectedEof` if the source ends before the bookend; `OutOfMemory`; or the source's
    /// error.
    pub fn read_all_file_info_sections<S: ShardSource>(
        &self,
        alloc: Global,
        source: &mut S,
    ) -> Result<Vec<MDBFileInfo>>
        ensures read { ReadsFiles self.now (S.meaning source.old) (S.meaning source.new) result }
        ensures written { ReadsOfShard (λ s. finite.values s.files) (S.meaning source.old)
            (S.meaning source.new) self.now result }
    {
        let version = self.header.format_version();
        read_section_at(alloc, source, version, self.metadata.file_info_offset)
    }

    /// As [`MDBShardInfo::read_all_xorb_blocks_full`], but headers alone, each with its offset in
    /// the source.
    pub fn read_all_xorb_blocks<S: ShardSource>(
        &self,
        alloc: Global,
        source: &mut S,
    ) -> Result<Vec<(XorbChunkSequenceHeader, u64)>>
        ensures read { MatchResult result
            (λ found. ReadsXorbHeaders (S.meaning source.old) (S.meaning source.new)
            self.now.metadata.xorb_info_offset found.items)
            (SectionFails xorb_records (S.meaning source.old) (S.meaning source.new)
            self.now.metadata.xorb_info_offset) }
        ensures written { (s : Shard)
            → IsBytesWithInfo s (S.meaning source.old).bytes self.now
            → ReadsBack
            (xorb_headers self.now.metadata.xorb_info_offset (finite.values s.xorbs))
            (S.meaning source.old) (S.meaning source.new) result }
    {
        read_xorb_headers(alloc, source, self.metadata.xorb_info_offset)
    }

    /// As [`MDBShardInfo::read_all_file_info_sections`], but of xorbs, whose headers every version
    /// has.
    pub fn read_all_xorb_blocks_full<S: ShardSource>(
        &self,
        alloc: Global,
        source: &mut S,
    ) -> Result<Vec<MDBXorbInfo>>
        ensures read { ReadsXorbs self.now (S.meaning source.old) (S.meaning source.new) result }
        ensures written { ReadsOfShard (λ s. finite.values s.xorbs) (S.meaning source.old)
            (S.meaning source.new) self.now result }
    {
        let offset = self.metadata.xorb_info_offset;
        read_section_at(alloc, source, FormatVersion::V3, offset)
    }
}

fn write_shard<W: Write>(
    alloc: Global,
    writer: &mut W,
    shard: &MDBInMemoryShard,
    options: &LayoutOptions,
) -> Result<MDBShardInfo>
    ensures bytes { OnOk result
        (Appends (W.contents writer.old) (W.contents writer.new)
        (layout_of (finite.values shard.now.content.files)
        (finite.values shard.now.content.xorbs) options.now)) }
    ensures info { IfOk result
        (λ info. info ≡ info_of (finite.values shard.now.content.files)
        (finite.values shard.now.content.xorbs) options.now) }
    ensures widths { IfOk result (λ info. FitsFooter info.metadata) }
    ensures shard { IfOk result (λ _. IsShard shard.now.content) }
    ensures causes { IfErr result IsWriteError }
{
    shard.invariant();
    write_maps(
        alloc,
        writer,
        shard.file_content(),
        shard.xorb_content(),
        options,
    )
}

/// Writes a shard of two maps' records, in the order of their hashes.
pub(crate) fn write_maps<V: HoldsRecord<MDBXorbInfo>, W: Write>(
    alloc: Global,
    writer: &mut W,
    files: &BTreeMap<MerkleHash, MDBFileInfo>,
    xorbs: &BTreeMap<MerkleHash, V>,
    options: &LayoutOptions,
) -> Result<MDBShardInfo>
    requires files { All IsWellFormed (values files.now) }
    requires file_rows { total_rows file_records (values files.now) ≤ MAX_ROWS }
    requires xorbs { All HasItsChunks (map V.held (values xorbs.now)) }
    requires xorb_rows { total_rows xorb_records (map V.held (values xorbs.now)) ≤ MAX_ROWS }
    ensures bytes { OnOk result
        (Appends (W.contents writer.old) (W.contents writer.new)
        (layout_of (values files.now) (map V.held (values xorbs.now)) options.now)) }
    ensures info { IfOk result
        (λ info. info
        ≡ info_of (values files.now) (map V.held (values xorbs.now)) options.now) }
    ensures widths { IfOk result (λ info. FitsFooter info.metadata) }
    ensures causes { IfErr result IsWriteError }
{
    let header = MDBShardFileHeader::of_version(options.version);
    header.serialize(writer)?;
    let files: WrittenFiles = write_values(alloc, writer, files)?;
    let xorbs: WrittenXorbs = write_values(alloc, writer, xorbs)?;
    let metadata = write_end(writer, &files, xorbs, options)?;
    Ok(MDBShardInfo { header, metadata })
}

fn read_ends<S: ShardSource>(alloc: Global, source: &mut S) -> Result<MDBShardInfo>
    ensures { MatchResult result (Loads (S.meaning source.old) (S.meaning source.new))
        (LoadFails (S.meaning source.old) (S.meaning source.new)) }
{
    source.seek_to(0)?;
    let header = read_header(alloc, source)?;
    let length = source.length()?;
    if length < FOOTER_SIZE {
        return Err(CoreError::Io(io::Error::from(ErrorKind::UnexpectedEof)));
    }
    source.seek_to(length - FOOTER_SIZE)?;
    let metadata = read_footer(alloc, source)?;
    Ok(MDBShardInfo { header, metadata })
}

/// As [`MDBShardFileHeader::deserialize`], but from the source's position on. Does not allocate.
#[tactic(auto, unfolding(crate::specs::Write::Layout::shard_header_bytes))]
pub fn read_header<S: ShardSource>(alloc: Global, source: &mut S) -> Result<MDBShardFileHeader>
    ensures read { IfOk result
        (λ h. ReadsBytes (S.meaning source.old) (S.meaning source.new) (shard_header_bytes h)) }
    ensures known { IfOk result
        (λ h. (h.tag ≡ header_tag) × IsVersion h.version × (h.footer_size < 2 ^ 64)) }
    ensures refused { IfErr result
        (PartFails HasUnsupportedHeader EndsInHeader 48 (S.meaning source.old)
        (S.meaning source.new)) }
{
    let mut tag = [0u8; TAG_SIZE];
    read_full(source, &mut tag)?;
    check_tag(alloc, &tag)?;
    let mut rest = [0u8; AFTER_TAG];
    read_full(source, &mut rest)?;
    MDBShardFileHeader::after_tag(alloc, &rest)
}

fn read_footer<S: ShardSource>(alloc: Global, source: &mut S) -> Result<MDBShardFileFooter>
    ensures read { IfOk result
        (λ f. ReadsBytes (S.meaning source.old) (S.meaning source.new) (shard_footer_bytes f)) }
    ensures known { IfOk result (λ f. (f.version ≡ 1) × FitsFooter f) }
    ensures refused { IfErr result
        (PartFails HasUnsupportedFooter EndsInFooter 200 (S.meaning source.old)
        (S.meaning source.new)) }
{
    let mut version = [0u8; 8];
    read_full(source, &mut version)?;
    check_version(alloc, &version)?;
    let mut rest = [0u8; AFTER_VERSION];
    read_full(source, &mut rest)?;
    Ok(MDBShardFileFooter::after_version(&rest))
}
