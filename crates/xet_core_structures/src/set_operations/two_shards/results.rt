//! The union and the difference of two inputs.

ghost use Rattle.std.specs.Prelude.{◌≡◌, ◌≢◌, ℕ, List, IfOk, OnOk, IfErr, IsErrAnd};
ghost use Rattle.std.specs.Io.KnownBytes.{Appends};
ghost use Rattle.xet_base.specs.declared.error.CoreError.{CoreError};
ghost use Rattle.xet_base.specs.Source.{after_seek, DeviceFailure};
ghost use Rattle.xet_records.specs.declared.record_reader.FormatVersion.TheVariants.{V3};
ghost use Rattle.xet_records.specs.Version.{version_of};
ghost use Rattle.xet_records.specs.declared.row_copier.CopyFailure.TheVariants.{Input};
ghost use Rattle.xet_records.specs.Copying.{IsOutputFailure};
ghost use Rattle.xet_shards.specs.declared.shard_format.ends.info.MDBShardInfo.{MDBShardInfo};
ghost use Rattle.xet_shards.specs.Ends.Ends.{FitsFooter};
ghost use Rattle.xet_shards.specs.Write.Layout.{shard_header_bytes, header_value};
ghost use Rattle.xet_shards.specs.Content.SetOperations.{IsDifference};
ghost use Rattle.xet_shards.specs.Content.Shard.{Shard};
ghost use Rattle.xet_core_structures.specs.Records.ByteUnion.{IsByteUnion};
ghost use Rattle.xet_core_structures.specs.TwoShards.ByteResults.{key_of, UnionRefusal, DifferenceRefusal};
ghost use Rattle.xet_core_structures.specs.Steps.ByteResultsSteps.{WritesEnd, IsOutput};
ghost use Rattle.xet_core_structures.specs.Steps.SetOutcomesSteps.{OperatesOn, OperationLaws};
ghost use Rattle.xet_core_structures.specs.Steps.MergeJoin.{CombinesSections};
ghost use Rattle.xet_core_structures.specs.TwoShards.Streams.{streams};

use super::record_operation::{OfDifference, OfUnion, RecordOperation};
use super::sections::combine_sections;
use std::alloc::Global;
use std::io::Write;
use xet_base::error::{CoreError, Result};
use xet_base::source::ShardSource;
use xet_records::record_reader::FormatVersion;
use xet_records::row_copier::{CopyFailure, CopyResult};
use xet_shards::shard_format::{MDBShardFileHeader, MDBShardInfo};
use xet_shards::shard_writer::{
    LayoutOptions, WrittenFiles, WrittenSection, WrittenXorbs, write_end,
};

/// An operation on two shards.
pub trait SetOperation {
    type Files: RecordOperation<WrittenFiles>;

    type Xorbs: RecordOperation<WrittenXorbs>;

    // the result for two shards
    ghost IsResult: { Shard → Shard → Shard → Type 0 };

    // why two inputs have no result
    ghost Refusal: { List ℕ → MDBShardInfo → List ℕ → MDBShardInfo → CoreError → Type 0 };

    /// Does nothing; says what holds of every operation.
    fn laws()
        ensures { OperationLaws IsResult Self.Files.makes Self.Xorbs.makes Refusal };
}

/// The union.
impl SetOperation for OfUnion {
    type Files = OfUnion;

    type Xorbs = OfUnion;

    ghost IsResult = { IsByteUnion };

    ghost Refusal = { UnionRefusal };

    fn laws() {}
}

/// The difference.
impl SetOperation for OfDifference {
    type Files = OfDifference;

    type Xorbs = OfDifference;

    ghost IsResult = { IsDifference };

    ghost Refusal = { DifferenceRefusal };

    fn laws() {}
}

/// Writes the result for two inputs under their key, or `InvalidArguments` if their keys differ,
/// before anything is read or written.
pub fn operate<O: SetOperation, S: ShardSource, T: ShardSource, W: Write>(
    alloc: Global,
    s1: &MDBShardInfo,
    r1: &mut S,
    s2: &MDBShardInfo,
    r2: &mut T,
    out: &mut W,
) -> CopyResult<MDBShardInfo>
    ensures outcome { OperatesOn O.IsResult O.Refusal s1.now s2.now
        (streams (S.meaning r1.old) (T.meaning r2.old) (W.contents out.old))
        (streams (S.meaning r1.new) (T.meaning r2.new) (W.contents out.new)) result }
    ensures same_key { IfErr result
        (λ failure. IsOutput failure → key_of s1.now ≡ key_of s2.now) }
    ensures untouched { key_of s1.now ≢ key_of s2.now
        → IsErrAnd result (λ failure. failure ≡ Input CoreError.InvalidArguments)
        × (r1.new ≡ r1.old) × (r2.new ≡ r2.old) × (out.new ≡ out.old) }
{
    O::laws();
    let key = s1.metadata.chunk_hash_hmac_key;
    if key != s2.metadata.chunk_hash_hmac_key {
        return Err(CopyFailure::Input(CoreError::InvalidArguments));
    }
    write_header(out)?;
    let files_1 = SectionAt::of_files(s1);
    let files_2 = SectionAt::of_files(s2);
    let files = combine_at::<O::Files, WrittenFiles, S, T, W>(
        alloc, r1, files_1, r2, files_2, out,
    )?;
    let xorbs_1 = SectionAt::of_xorbs(s1);
    let xorbs_2 = SectionAt::of_xorbs(s2);
    let xorbs = combine_at::<O::Xorbs, WrittenXorbs, S, T, W>(
        alloc, r1, xorbs_1, r2, xorbs_2, out,
    )?;
    let options = LayoutOptions {
        key,
        ..LayoutOptions::plain(None)
    };
    write_tables(out, &files, xorbs, &options)
}

#[derive(Clone, Copy)]
struct SectionAt {
    offset: u64,
    version: FormatVersion,
}

impl SectionAt {
    fn of_files(info: &MDBShardInfo) -> Self
        ensures { result ≡ record {
          offset = info.now.metadata.file_info_offset;
          version = version_of info.now.header.version;
        } }
    {
        SectionAt {
            offset: info.metadata.file_info_offset,
            version: FormatVersion::of_header(info.header.version),
        }
    }

    // The section is alike in both versions.
    fn of_xorbs(info: &MDBShardInfo) -> Self
        ensures { result ≡ record { offset = info.now.metadata.xorb_info_offset; version = V3 } }
    {
        SectionAt {
            offset: info.metadata.xorb_info_offset,
            version: FormatVersion::V3,
        }
    }
}

fn combine_at<
    Op: RecordOperation<Sec>,
    Sec: WrittenSection + Drop,
    S: ShardSource,
    T: ShardSource,
    W: Write,
>(
    alloc: Global,
    r1: &mut S,
    at_1: SectionAt,
    r2: &mut T,
    at_2: SectionAt,
    out: &mut W,
) -> CopyResult<Sec>
    ensures { CombinesSections Sec.Record.kind at_1.version at_2.version Op.makes
        (streams (after_seek (S.meaning r1.old) at_1.offset) (after_seek (T.meaning r2.old) at_2.offset)
        (W.contents out.old))
        (streams (S.meaning r1.new) (T.meaning r2.new) (W.contents out.new)) Sec.has_written
        result }
{
    seek(r1, at_1.offset)?;
    seek(r2, at_2.offset)?;
    combine_sections::<Op, Sec, S, T, W>(alloc, r1, at_1.version, r2, at_2.version, out)
}

/// Moves a source to an offset.
pub fn seek<S: ShardSource>(source: &mut S, offset: u64) -> Result<()>
    ensures moved { OnOk result (S.meaning source.new ≡ after_seek (S.meaning source.old) offset) }
    ensures bytes { (S.meaning source.new).bytes ≡ (S.meaning source.old).bytes }
    ensures causes { IfErr result (DeviceFailure (S.meaning source.old) (S.meaning source.new)) }
{
    Ok(source.seek_to(offset)?)
}

/// Writes the header. The failure is the output's.
pub fn write_header<W: Write>(out: &mut W) -> CopyResult<()>
    ensures appended { OnOk result
        (Appends (W.contents out.old) (W.contents out.new) (shard_header_bytes (header_value V3))) }
    ensures causes { IfErr result IsOutputFailure }
{
    match MDBShardFileHeader::default().serialize(out) {
        Ok(_) => Ok(()),
        Err(error) => Err(CopyFailure::Output(error)),
    }
}

/// Writes the lookup tables and the footer. The failure is the output's.
pub fn write_tables<W: Write>(
    out: &mut W,
    files: &WrittenFiles,
    xorbs: WrittenXorbs,
    options: &LayoutOptions,
) -> CopyResult<MDBShardInfo>
    ensures written { IfOk result
        (WritesEnd files.now xorbs options.now (W.contents out.old) (W.contents out.new)) }
    ensures widths { IfOk result (λ info. FitsFooter info.metadata) }
    ensures causes { IfErr result IsOutputFailure }
{
    match write_end(out, files, xorbs, options) {
        Ok(metadata) => Ok(MDBShardInfo {
            header: MDBShardFileHeader::of_version(options.version),
            metadata,
        }),
        Err(error) => Err(CopyFailure::Output(error)),
    }
}
