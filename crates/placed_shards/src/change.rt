//! Shards made of another, with no record made anew.

ghost use Rattle.std.specs.Prelude.{◌≡◌, []};
ghost use Rattle.xet_records.specs.FileRecord.{file_records};
ghost use Rattle.xet_records.specs.XorbRecord.{xorb_records};
ghost use Rattle.xet_shards.specs.Write.Tables.{hash_in};
ghost use Rattle.placed_shards.specs.Content.{content, content_within};
ghost use Rattle.placed_shards.specs.Ranges.{is_within, records_passing};

use crate::placed_file::PlacedFile;
use crate::placed_record::PlacedRecord;
use crate::placed_shard::PlacedShard;
use crate::placed_xorb::PlacedXorb;
use crate::range::HashRange;
use xet_shards::shard_writer::LayoutOptions;

impl<'a> PlacedShard<'a> {
    /// The shard with only the records in a range of hashes.
    pub fn within(self, range: &HashRange) -> PlacedShard<'a>
        ensures content { content result ≡ content_within range.now (content self.entry) }
        ensures as_read { result.as_read ≡ self.entry.as_read }
    {
        let PlacedShard {
            options,
            as_read,
            files,
            xorbs,
        } = self;
        PlacedShard {
            options,
            as_read,
            files: files_within(files, *range),
            xorbs: xorbs_within(xorbs, *range),
        }
    }

    /// The shard without files.
    pub fn without_files(self) -> PlacedShard<'a>
        ensures content { content result ≡ record (content self.entry) { files = [] } }
        ensures as_read { result.as_read ≡ self.entry.as_read }
    {
        let mut files = self.files;
        files.clear();
        PlacedShard {
            options: self.options,
            as_read: self.as_read,
            files,
            xorbs: self.xorbs,
        }
    }

    /// The shard with other options of its layout.
    pub fn with_options(self, options: LayoutOptions) -> PlacedShard<'a>
        ensures content { content result ≡ record (content self.entry) { options = options } }
        ensures as_read { result.as_read ≡ self.entry.as_read }
    {
        PlacedShard {
            options,
            as_read: self.as_read,
            files: self.files,
            xorbs: self.xorbs,
        }
    }
}

fn files_within<'a>(files: Vec<PlacedFile<'a>>, range: HashRange) -> Vec<PlacedFile<'a>>
    ensures { result.items ≡ records_passing file_records (is_within range) files.entry.items }
{
    let mut files = files;
    files.retain(
        |file: &PlacedFile<'_>| -> bool
            ensures { result ≡ is_within range (hash_in file_records file.now) }
        { range.contains(&file.hash()) },
    );
    files
}

fn xorbs_within<'a>(xorbs: Vec<PlacedXorb<'a>>, range: HashRange) -> Vec<PlacedXorb<'a>>
    ensures { result.items ≡ records_passing xorb_records (is_within range) xorbs.entry.items }
{
    let mut xorbs = xorbs;
    xorbs.retain(
        |xorb: &PlacedXorb<'_>| -> bool
            ensures { result ≡ is_within range (hash_in xorb_records xorb.now) }
        { range.contains(&xorb.hash()) },
    );
    xorbs
}
