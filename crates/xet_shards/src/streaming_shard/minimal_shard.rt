//! A shard without tables, as views of its records.

ghost use Rattle.std.proofs.Common.{rules};
ghost use Rattle.std.specs.Prelude.{◌≡◌, ℕ, ◌*◌, ◌≤◌, false, length, nat_eq, slice_get, sum_by, MatchResult, IfOk, IfErr};
ghost use Rattle.std.specs.Cmp.Lexicographic.{pointwise};
ghost use Rattle.std.specs.Cmp.Rules.{comparing};
ghost use Rattle.std.specs.Ordering.{on, eq_of_both};
ghost use Rattle.xet_records.specs.declared.file_structs.view.KeptParts.{KeptParts};
ghost use Rattle.xet_records.specs.View.{as_kept};
ghost use Rattle.std.specs.Option.{option_copied};
ghost use Rattle.std.specs.Io.KnownBytes.{Consumes};
ghost use Rattle.xet_shards.specs.Write.WithOptions.{FitsSection};
ghost use Rattle.xet_shards.specs.StreamingShard.MinimalShard.{FitsSections, has_file_verification, serialized_size, size_of_kept};
ghost use Rattle.xet_shards.specs.StreamingShard.MinimalReading.{ReadsMinimal, ReaderMinimalFails};
ghost use Rattle.xet_records.specs.FileRecord.{file_records, file_record_bytes, row_count};
ghost use Rattle.xet_records.specs.XorbRecord.{xorb_records, xorb_record_bytes, xorb_row_count};
ghost use Rattle.xet_records.specs.Limits.{MAX_ROWS};

use super::minimal_reader::read_sections;
use crate::shard_format::{MDBShardFileHeader, MDBShardInfo};
use std::alloc::Global;
use std::io::Read;
use std::marker::Model;
use xet_base::error::{CoreError, Result};
use xet_base::input::OfReader;
use xet_records::file_structs::{KeptParts, MDBFileInfoView};
use xet_records::xorb_structs::MDBXorbInfoView;

/// The records of a shard as views. Contracts see both lists of records, as they are stored.
#[derive(Debug, Drop)]
pub struct MDBMinimalShard {
    files: Vec<MDBFileInfoView>,
    xorbs: Vec<MDBXorbInfoView>,
}

impl Model for MDBMinimalShard {
    ghost use Rattle.xet_shards.specs.StreamingShard.MinimalShard.{MinimalShard, coded_minimal, FitsSections};

    ghost Value = { MinimalShard };

    ghost coded = { coded_minimal };

    ghost view = { λ m. record { files = m.files.items; xorbs = m.xorbs.items } };

    ghost invariant = { λ m. FitsSections
        (record { files = m.files.items; xorbs = m.xorbs.items }) };
}

impl MDBMinimalShard {
    /// Reads a shard's header, its file section, of which records are kept if `include_files`, and
    /// its xorb section if `include_xorb`, and nothing after them.
    ///
    /// `ShardVersion` if the header's tag or version is unsupported; `UnexpectedEof` if the reader
    /// ends before a bookend; `InvalidShard` if the version does not have the header of a file or
    /// the rows of a section pass 4294967295; `OutOfMemory`; or the reader's error.
    pub fn from_reader<R: Read>(
        alloc: Global,
        reader: &mut R,
        include_files: bool,
        include_xorb: bool,
    ) -> Result<Self>
        ensures { MatchResult result
            (ReadsMinimal Consumes include_files include_xorb (R.remaining reader.old)
            (R.remaining reader.new))
            (ReaderMinimalFails include_xorb (R.remaining reader.old) (R.remaining reader.new)) }
    {
        let header = MDBShardFileHeader::deserialize(alloc, reader)?;
        let version = header.format_version();
        read_sections::<OfReader, R>(alloc, reader, version, include_files, include_xorb)
    }

    pub(super) fn of_views(files: Vec<MDBFileInfoView>, xorbs: Vec<MDBXorbInfoView>) -> Self
        requires files { FitsSection file_records files.items }
        requires xorbs { FitsSection xorb_records xorbs.items }
        ensures { result ≡ record { files = files.items; xorbs = xorbs.items } }
    {
        MDBMinimalShard { files, xorbs }
    }

    pub(super) fn files(&self) -> &[MDBFileInfoView]
        ensures files { result.now ≡ self.now.files }
        ensures fit { FitsSection file_records result.now }
    {
        self.files.as_slice()
    }

    pub(super) fn xorbs(&self) -> &[MDBXorbInfoView]
        ensures xorbs { result.now ≡ self.now.xorbs }
        ensures fit { FitsSection xorb_records result.now }
    {
        self.xorbs.as_slice()
    }

    /// Whether the first file has verification rows.
    pub fn has_file_verification(&self) -> bool
        ensures { result ≡ has_file_verification self.now.files }
    {
        match self.files.first() {
            Some(file) => file.contains_verification(),
            None => false,
        }
    }

    /// The number of files.
    pub fn num_files(&self) -> usize
        ensures { result ≡ length self.now.files }
    {
        self.files.len()
    }

    /// The file at an index.
    pub fn file(&self, index: usize) -> Option<&MDBFileInfoView>
        ensures { option_copied result ≡ slice_get self.now.files index }
    {
        self.files.get(index)
    }

    /// The number of xorbs.
    pub fn num_xorb(&self) -> usize
        ensures { result ≡ length self.now.xorbs }
    {
        self.xorbs.len()
    }

    /// The xorb at an index.
    pub fn xorb(&self, index: usize) -> Option<&MDBXorbInfoView>
        ensures { option_copied result ≡ slice_get self.now.xorbs index }
    {
        self.xorbs.get(index)
    }

    /// The bytes that `serialize` writes, but 0 if verification rows are wanted and there is no
    /// file or the first has none. If only a later file has none, the size of the records, although
    /// `serialize` fails.
    pub fn serialized_size(&self, with_verification: bool) -> u64
        ensures { result ≡ serialized_size with_verification self.now }
    {
        self.size_of_kept(KeptParts {
            verification: with_verification,
            ..KeptParts::ALL
        })
    }

    /// As [`MDBMinimalShard::serialized_size`], of `serialize_without_aux`.
    pub fn serialized_size_without_aux(&self, with_verification: bool) -> u64
        ensures { result
            ≡ size_of_kept (record { verification = with_verification; aux_ext = false })
            self.now }
    {
        self.size_of_kept(KeptParts {
            verification: with_verification,
            aux_ext: false,
        })
    }

    fn size_of_kept(&self, kept: KeptParts) -> u64
        ensures { result ≡ size_of_kept kept self.now }
    {
        if kept.verification && !self.has_file_verification() {
            return 0;
        }
        let files = sum_of_views(self.files(), kept);
        let records = files + sum_of_views(self.xorbs(), kept);
        MDBShardInfo::non_content_byte_size() + records
    }

    /// A copy, or `OutOfMemory`.
    pub fn try_clone(&self, alloc: Global) -> Result<Self>
        ensures ok { IfOk result (λ copy. copy ≡ self.now) }
        ensures causes { IfErr result (λ e. e ≡ CoreError.OutOfMemory) }
    {
        let files = copies(alloc, self.files())?;
        let xorbs = copies(alloc, self.xorbs())?;
        Ok(MDBMinimalShard::of_views(files, xorbs))
    }
}

// Records are equal bit by bit and in order.
impl PartialEq for MDBMinimalShard {
    ghost eq = { eq_of_both
        (on (λ m. m.files) (pointwise (on file_record_bytes (pointwise nat_eq))))
        (on (λ m. m.xorbs) (pointwise (on xorb_record_bytes (pointwise nat_eq)))) };

    ghost laws = { Prim.search (comparing, rules) };

    fn eq(&self, other: &Self) -> bool {
        self.files == other.files && self.xorbs == other.xorbs
    }
}

// A view that a shard keeps.
trait WritableView {
    // the rows of these parts of its record
    ghost rows: { KeptParts → Self → ℕ };

    fn copy(&self) -> Result<Self>
        ensures ok { IfOk result (λ copy. copy ≡ self.now) }
        ensures causes { IfErr result (λ e. e ≡ CoreError.OutOfMemory) };

    fn bytes(&self, kept: KeptParts) -> u64
        ensures { result ≡ 48 * rows kept self.now };
}

impl WritableView for MDBFileInfoView {
    ghost rows = { λ kept view. row_count (as_kept kept view) };

    fn copy(&self) -> Result<Self> {
        self.try_clone()
    }

    fn bytes(&self, kept: KeptParts) -> u64 {
        self.byte_size_of_kept(kept) as u64
    }
}

impl WritableView for MDBXorbInfoView {
    ghost rows = { λ kept view. xorb_row_count view };

    fn copy(&self) -> Result<Self> {
        self.try_clone()
    }

    fn bytes(&self, _kept: KeptParts) -> u64 {
        self.byte_size() as u64
    }
}

fn copies<V: WritableView + Drop>(alloc: Global, views: &[V]) -> Result<Vec<V>>
    ensures ok { IfOk result (λ copies. copies.items ≡ views.now) }
    ensures causes { IfErr result (λ e. e ≡ CoreError.OutOfMemory) }
{
    let mut copies = Vec::new(alloc);
    for view in views {
        copies.push(view.copy()?)?;
    }
    Ok(copies)
}

// In bytes.
fn sum_of_views<V: WritableView>(views: &[V], kept: KeptParts) -> u64
    requires { sum_by (V.rows kept) views.now ≤ MAX_ROWS }
    ensures { result ≡ 48 * sum_by (V.rows kept) views.now }
{
    let mut bytes = 0;
    for view in views {
        bytes += view.bytes(kept);
    }
    bytes
}
