//! Shards in memory.

ghost use Rattle.std.specs.Prelude.{◌≤◌};
ghost use Rattle.xet_records.specs.FileRecord.{file_records};
ghost use Rattle.xet_records.specs.XorbRecord.{xorb_records};
ghost use Rattle.xet_records.specs.Limits.{MAX_ROWS};
ghost use Rattle.xet_shards.specs.Write.Section.{total_rows};

use crate::placed_file::PlacedFile;
use crate::placed_xorb::PlacedXorb;
use xet_shards::shard_writer::LayoutOptions;

/// A shard that is not written yet: its records, in the order in which they are written, and its
/// layout's options, whose version is ignored.
#[derive(Drop)]
pub struct PlacedShard<'a> {
    pub options: LayoutOptions,
    /// Whether reserved words of optional parts are zero, whatever the bytes are.
    pub as_read: bool,
    pub files: Vec<PlacedFile<'a>>,
    pub xorbs: Vec<PlacedXorb<'a>>,
    ghost file_rows: { total_rows file_records files.items ≤ MAX_ROWS },
    ghost xorb_rows: { total_rows xorb_records xorbs.items ≤ MAX_ROWS },
}
