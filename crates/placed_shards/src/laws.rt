//! Laws of shards that are opened in parts. Functions of these modules do nothing: their contracts
//! are the laws.

ghost use Rattle.std.specs.Prelude.{◌≡◌, ℕ, ◌+◌, ◌*◌, ◌≤◌, true, List, length, None};
ghost use Rattle.std.specs.List.{AllZip};
ghost use Rattle.xet_base.specs.declared.merklehash.DataHash.{DataHash};
ghost use Rattle.xet_records.specs.declared.record_reader.FormatVersion.{FormatVersion};
ghost use Rattle.xet_records.specs.FileRecord.{file_records};
ghost use Rattle.xet_records.specs.XorbRecord.{xorb_records};
ghost use Rattle.xet_shards.specs.Write.Layout.{info_of};
ghost use Rattle.xet_shards.specs.Write.Section.{total_rows};
ghost use Rattle.xet_shards.specs.Write.WithOptions.{FitsSection};
ghost use Rattle.placed_shards.specs.declared.range.HashRange.{HashRange};
ghost use Rattle.placed_shards.specs.ByTables.{OpensByTables, HasOwnTables, IsCutByWords};
ghost use Rattle.placed_shards.specs.Content.{Content, content_layout, options_in, content_within, with_all_tables};
ghost use Rattle.placed_shards.specs.Opening.{Opens};
ghost use Rattle.placed_shards.specs.Ranges.{ranges_between, AreCuts};

pub mod merges;
pub mod range_parts;
pub mod ranges;
pub mod unions;
pub mod written;

/// Law: if [`open_by_tables`](crate::by_tables::open_by_tables) opens bytes in each of some ranges
/// that partition the hashes, [`open`](crate::open::open) opens them as one shard, of which each
/// part has the records in its range. So wrong tables lose no record.
pub fn tables_lose_no_record()
    ensures { (bytes : List ℕ) → (cuts : List DataHash) → (parts : List Content)
        → AreCuts None cuts None
        → AllZip (λ range part. OpensByTables range bytes part) (ranges_between None cuts None)
        parts → (whole : Content) × Opens bytes whole
        × AllZip (λ range part. part ≡ with_all_tables (content_within range whole))
        (ranges_between None cuts None) parts }
{}

/// Law: `open_by_tables` has one value (`one`), whose rows, of files and of xorbs each, are in the
/// bytes (`rows`).
pub fn tables_find_one_part()
    ensures one { (range : HashRange) → (bytes : List ℕ) → (c d : Content)
        → OpensByTables range bytes c → OpensByTables range bytes d → c ≡ d }
    ensures rows { (range : HashRange) → (bytes : List ℕ) → (c : Content)
        → OpensByTables range bytes c
        → 48 * (total_rows file_records c.files + total_rows xorb_records c.xorbs)
        ≤ 2 * length bytes }
{}

/// Law: the tables of the records find those of a range (`opened`), unless its end is below its
/// start, or a record below a bound has the bound's first word. Bytes written with both tables have
/// such tables (`written`).
pub fn own_tables_find_records()
    ensures opened { (range : HashRange) → (bytes : List ℕ) → (whole : Content)
        → (opens : Opens bytes whole) → HasOwnTables bytes opens.info whole
        → IsCutByWords range whole
        → OpensByTables range bytes (with_all_tables (content_within range whole)) }
    ensures written { (version : FormatVersion) → (c : Content) → FitsSection file_records c.files
        → FitsSection xorb_records c.xorbs → c.options.file_table ≡ true
        → c.options.xorb_table ≡ true
        → HasOwnTables (content_layout version c) (info_of c.files c.xorbs (options_in version c))
        c }
{}
