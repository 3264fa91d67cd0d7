//! Records that can be read, but no shard may have. A union of such files depends on their order.

ghost use Rattle.std.specs.Prelude.{◌≡◌, ◌↔◌, ◌≤◌, IsTrue};
ghost use Rattle.xet_records.specs.FileRecord.{IsWellFormed};
ghost use Rattle.xet_records.specs.Limits.{MAX_ROWS};
ghost use Rattle.xet_records.specs.XorbRecord.{IsXorb};
ghost use Rattle.xet_shards.specs.Write.Section.{total_rows};
ghost use Rattle.placed_shards.specs.Steps.Malformed.{FindsMalformed};

use crate::placed_file::PlacedFile;
use crate::placed_record::PlacedRecord;
use crate::placed_xorb::PlacedXorb;
use crate::well_formed::have_few_bytes;
use xet_base::merklehash::MerkleHash;
use xet_records::rows::ROW_SIZE;

/// The rule by which a shard may have a record.
pub trait RecordRule<'a>: PlacedRecord<'a> {
    ghost IsFormed: { Self → Type 0 };

    /// Whether a shard may have the record, as reading returns it.
    fn is_formed(&self) -> bool
        requires { Self.kind.row_count self.now ≤ MAX_ROWS }
        ensures { IsTrue result ↔ IsFormed (Self.kind.as_read self.now) };
}

/// The hash of the first record that no shard may have, as reading returns it.
pub fn find_malformed_record<'a, P: RecordRule<'a>>(records: &[P]) -> Option<MerkleHash>
    requires { total_rows P.kind records.now ≤ MAX_ROWS }
    ensures { FindsMalformed P.kind P.IsFormed records.now result }
{
    P::laws();
    for record in records {
        if !record.is_formed() {
            return Some(record.hash());
        }
    }
    None
}

impl<'a> RecordRule<'a> for PlacedFile<'a> {
    ghost IsFormed = { IsWellFormed };

    fn is_formed(&self) -> bool {
        self.is_stored();
        self.header().is_plain()
    }
}

impl<'a> RecordRule<'a> for PlacedXorb<'a> {
    ghost IsFormed = { IsXorb };

    fn is_formed(&self) -> bool {
        self.is_stored();
        let (_header, chunks) = self.bytes().split_at(ROW_SIZE);
        have_few_bytes(chunks)
    }
}
