//! Union and difference of the records with one hash.

ghost use Rattle.std.specs.Prelude.{◌≡◌, ⊤, Option, None, Some, IfSome, MatchResult, IsErrAnd};
ghost use Rattle.xet_records.specs.FileRecord.{file_records};
ghost use Rattle.xet_records.specs.XorbRecord.{xorb_records};
ghost use Rattle.xet_shards.specs.Write.Written.{HasWritten, HasWrittenXorbs};
ghost use Rattle.xet_core_structures.specs.Records.ByteUnion.{IsEitherFile, IsEitherXorb};
ghost use Rattle.xet_core_structures.specs.Steps.RecordPairsSteps.{IsRest, AreOfOneHash};
ghost use Rattle.xet_core_structures.specs.Steps.MergeJoin.{IsRecordHeader, PairFails, KeepsRecord, SkipsBoth, SkipsRecord, SkipFails, MakesRecord};
ghost use Rattle.xet_core_structures.specs.TwoShards.Streams.{streams};
ghost use Rattle.xet_core_structures.specs.Steps.StreamsSteps.{sources};

use super::mix::mix;
use std::alloc::Global;
use std::io::Write;
use xet_base::error::{CoreError, Result};
use xet_base::input::OfSource;
use xet_base::source::ShardSource;
use xet_records::file_structs::{FileDataSequenceHeader, MDBFileInfo, SupersetResult};
use xet_records::record_reader::SectionRecord;
use xet_records::row_copier::{CopyFailure, CopyResult};
use xet_records::xorb_structs::XorbChunkSequenceHeader;
use xet_shards::shard_writer::{WrittenFiles, WrittenSection, WrittenXorbs};

/// Marks the union.
pub struct OfUnion {}

/// Marks the difference.
pub struct OfDifference {}

/// An operation on two sections.
pub trait RecordOperation<Sec: WrittenSection> {
    // what is made of the records with one hash
    ghost makes: { Option Sec.Record → Option Sec.Record → Option Sec.Record → Type 0 };

    ghost makes_nothing: { makes None None None };

    /// Writes what is made of the records of these headers, if anything. `InvalidShard` if nothing
    /// can be made of them or its rows do not fit the section; then both are read, so an input that
    /// is cut there is `UnexpectedEof`.
    fn write<S: ShardSource, T: ShardSource, W: Write>(
        alloc: Global,
        first: Option<<Sec::Record as SectionRecord>::Header>,
        r1: &mut S,
        second: Option<<Sec::Record as SectionRecord>::Header>,
        r2: &mut T,
        written: &mut Sec,
        out: &mut W,
    ) -> CopyResult<()>
        requires first { IfSome first (IsRecordHeader Sec.Record.kind) }
        requires second { IfSome second (IsRecordHeader Sec.Record.kind) }
        requires hash { AreOfOneHash Sec.Record.kind.hash_of first second }
        ensures { MakesRecord Sec.Record.kind makes first second
            (streams (S.meaning r1.old) (T.meaning r2.old) (W.contents out.old))
            (streams (S.meaning r1.new) (T.meaning r2.new) (W.contents out.new)) (Sec.rows written.old)
            (Sec.has_written written.old) (Sec.has_written written.new) result };
}

/// Files are united as `shard_set_union` says.
impl RecordOperation<WrittenFiles> for OfUnion {
    ghost use Rattle.std.specs.Prelude.{refl};

    ghost makes = { IsEitherFile };

    ghost makes_nothing = { refl };

    fn write<S: ShardSource, T: ShardSource, W: Write>(
        alloc: Global,
        first: Option<FileDataSequenceHeader>,
        r1: &mut S,
        second: Option<FileDataSequenceHeader>,
        r2: &mut T,
        written: &mut WrittenFiles,
        out: &mut W,
    ) -> CopyResult<()>
        requires first { IfSome first (IsRecordHeader file_records) }
        requires second { IfSome second (IsRecordHeader file_records) }
        requires hash { AreOfOneHash file_records.hash_of first second }
        ensures { MakesRecord file_records IsEitherFile first second
            (streams (S.meaning r1.old) (T.meaning r2.old) (W.contents out.old))
            (streams (S.meaning r1.new) (T.meaning r2.new) (W.contents out.new)) written.old.table.rows
            (HasWritten written.old) (HasWritten written.new) result }
    {
        match (first, second) {
            (Some(x), Some(y)) => unite_files(alloc, x, r1, y, r2, written, out),
            (Some(x), None) => keep(alloc, x, r1, None, r2, written, out),
            (None, Some(y)) => keep(alloc, y, r2, None, r1, written, out),
            (None, None) => Ok(()),
        }
    }
}

/// The first's record if it has one, else the second's.
impl RecordOperation<WrittenXorbs> for OfUnion {
    ghost use Rattle.std.specs.Prelude.{refl};

    ghost makes = { IsEitherXorb };

    ghost makes_nothing = { refl };

    fn write<S: ShardSource, T: ShardSource, W: Write>(
        alloc: Global,
        first: Option<XorbChunkSequenceHeader>,
        r1: &mut S,
        second: Option<XorbChunkSequenceHeader>,
        r2: &mut T,
        written: &mut WrittenXorbs,
        out: &mut W,
    ) -> CopyResult<()>
        requires first { IfSome first (IsRecordHeader xorb_records) }
        requires second { IfSome second (IsRecordHeader xorb_records) }
        requires hash { AreOfOneHash xorb_records.hash_of first second }
        ensures { MakesRecord xorb_records IsEitherXorb first second
            (streams (S.meaning r1.old) (T.meaning r2.old) (W.contents out.old))
            (streams (S.meaning r1.new) (T.meaning r2.new) (W.contents out.new)) written.old.table.rows
            (HasWrittenXorbs written.old) (HasWrittenXorbs written.new) result }
    {
        match (first, second) {
            (Some(x), other) => keep(alloc, x, r1, other, r2, written, out),
            (None, Some(y)) => keep(alloc, y, r2, None, r1, written, out),
            (None, None) => Ok(()),
        }
    }
}

/// The second's record, unless the first has one.
impl<Sec: WrittenSection> RecordOperation<Sec> for OfDifference {
    ghost use Rattle.std.specs.Prelude.{refl};

    ghost makes = { IsRest };

    ghost makes_nothing = { refl };

    fn write<S: ShardSource, T: ShardSource, W: Write>(
        alloc: Global,
        first: Option<<Sec::Record as SectionRecord>::Header>,
        r1: &mut S,
        second: Option<<Sec::Record as SectionRecord>::Header>,
        r2: &mut T,
        written: &mut Sec,
        out: &mut W,
    ) -> CopyResult<()>
        requires first { IfSome first (IsRecordHeader Sec.Record.kind) }
        requires second { IfSome second (IsRecordHeader Sec.Record.kind) }
        requires hash { AreOfOneHash Sec.Record.kind.hash_of first second }
        ensures { MakesRecord Sec.Record.kind IsRest first second
            (streams (S.meaning r1.old) (T.meaning r2.old) (W.contents out.old))
            (streams (S.meaning r1.new) (T.meaning r2.new) (W.contents out.new)) (Sec.rows written.old)
            (Sec.has_written written.old) (Sec.has_written written.new) result }
    {
        Sec::Record::laws();
        match (first, second) {
            (Some(_), _) => skip_both::<Sec::Record, S, T>(first, r1, second, r2),
            (None, Some(kept)) => keep(alloc, kept, r2, None, r1, written, out),
            (None, None) => Ok(()),
        }
    }
}

// Writes `kept`'s record and reads past `passed`'s. `InvalidShard` if its rows do not fit; then
// both are read past.
fn keep<Sec: WrittenSection, S: ShardSource, T: ShardSource, W: Write>(
    alloc: Global,
    kept: <Sec::Record as SectionRecord>::Header,
    r1: &mut S,
    passed: Option<<Sec::Record as SectionRecord>::Header>,
    r2: &mut T,
    written: &mut Sec,
    out: &mut W,
) -> CopyResult<()>
    requires { IsRecordHeader Sec.Record.kind kept }
    ensures { KeepsRecord Sec.Record.kind kept passed
        (streams (S.meaning r1.old) (T.meaning r2.old) (W.contents out.old))
        (streams (S.meaning r1.new) (T.meaning r2.new) (W.contents out.new)) (Sec.rows written.old)
        (Sec.has_written written.old) (Sec.has_written written.new) result }
{
    Sec::Record::laws();
    let rows = 1 + Sec::Record::rows_after(&kept);
    if !written.has_room(rows) {
        return refuse::<Sec::Record, S, T>(alloc, Some(kept), r1, passed, r2);
    }
    written.copy::<OfSource, S, W>(r1, out, kept)?;
    pass::<Sec::Record, T>(passed, r2)?;
    Ok(())
}

// `InvalidShard` if a mix has unequal counts of segments.
fn unite_files<S: ShardSource, T: ShardSource, W: Write>(
    alloc: Global,
    first: FileDataSequenceHeader,
    r1: &mut S,
    second: FileDataSequenceHeader,
    r2: &mut T,
    written: &mut WrittenFiles,
    out: &mut W,
) -> CopyResult<()>
    requires first { IsRecordHeader file_records first }
    requires second { IsRecordHeader file_records second }
    requires hash { first.file_hash ≡ second.file_hash }
    ensures { MakesRecord file_records IsEitherFile (Some first) (Some second)
        (streams (S.meaning r1.old) (T.meaning r2.old) (W.contents out.old))
        (streams (S.meaning r1.new) (T.meaning r2.new) (W.contents out.new)) written.old.table.rows
        (HasWritten written.old) (HasWritten written.new) result }
{
    match FileDataSequenceHeader::compare_flag_superset(&first, &second) {
        SupersetResult::Equal | SupersetResult::SuperA => {
            keep(alloc, first, r1, Some(second), r2, written, out)
        }
        SupersetResult::SuperB => keep(alloc, second, r2, Some(first), r1, written, out),
        SupersetResult::Neither => {
            if first.num_entries != second.num_entries {
                return refuse::<MDBFileInfo, S, T>(alloc, Some(first), r1, Some(second), r2);
            }
            mix(alloc, first, r1, second, r2, written, out)
        }
    }
}

/// Reads past the records of both headers, and fails with `InvalidShard`.
pub fn refuse<R: SectionRecord, S: ShardSource, T: ShardSource>(
    alloc: Global,
    first: Option<R::Header>,
    r1: &mut S,
    second: Option<R::Header>,
    r2: &mut T,
) -> CopyResult<()>
    ensures { IsErrAnd result
        (PairFails R.kind first second (sources (S.meaning r1.old) (T.meaning r2.old))
        (sources (S.meaning r1.new) (T.meaning r2.new)) (λ one other. ⊤)) }
{
    skip_both::<R, S, T>(first, r1, second, r2)?;
    Err(CopyFailure::Input(CoreError::InvalidShard(String::new(alloc))))
}

fn skip_both<R: SectionRecord, S: ShardSource, T: ShardSource>(
    first: Option<R::Header>,
    r1: &mut S,
    second: Option<R::Header>,
    r2: &mut T,
) -> CopyResult<()>
    ensures { MatchResult result
        (λ _. SkipsBoth R.kind first second (sources (S.meaning r1.old) (T.meaning r2.old))
        (sources (S.meaning r1.new) (T.meaning r2.new)))
        (PairFails R.kind first second (sources (S.meaning r1.old) (T.meaning r2.old))
        (sources (S.meaning r1.new) (T.meaning r2.new)) (λ one other. ⊥)) }
{
    pass::<R, S>(first, r1)?;
    pass::<R, T>(second, r2)?;
    Ok(())
}

fn pass<R: SectionRecord, S: ShardSource>(header: Option<R::Header>, source: &mut S) -> Result<()>
    ensures { MatchResult result
        (λ _. SkipsRecord R.kind header (S.meaning source.old) (S.meaning source.new))
        (SkipFails R.kind header (S.meaning source.old) (S.meaning source.new)) }
{
    match header {
        Some(header) => {
            R::skip_rows_after::<OfSource, S>(source, header)?;
            Ok(())
        }
        None => Ok(()),
    }
}
