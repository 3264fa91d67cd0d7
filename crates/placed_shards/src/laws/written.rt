//! Laws of shards that are written and opened again.

ghost use Rattle.std.specs.Prelude.{◌≡◌, ℕ, List};
ghost use Rattle.xet_records.specs.declared.record_reader.FormatVersion.{FormatVersion};
ghost use Rattle.placed_shards.specs.Content.{Content, content_layout};
ghost use Rattle.placed_shards.specs.Findings.{HasFormedRecords};
ghost use Rattle.placed_shards.specs.Laws.{opened_again, options_named, AreAsRead, IsWellFormedShard, IsWritable};
ghost use Rattle.placed_shards.specs.Opening.{Opens};

/// Law: written bytes are opened as the files as reading returns them, the xorbs, and the options
/// in this version without tables that have no row (`opened`), and as nothing else (`only`).
pub fn written_is_opened()
    ensures opened { (version : FormatVersion) → (c : Content) → IsWritable version c
        → Opens (content_layout version c) (opened_again version c) }
    ensures only { (version : FormatVersion) → (c d : Content) → IsWritable version c
        → Opens (content_layout version c) d → d ≡ opened_again version c }
{}

/// Law: if files are as reading returns them, what is opened of written bytes is written as these
/// again (`again`), so the same is opened only of the same bytes (`same_bytes`).
pub fn opened_is_written()
    ensures again { (version : FormatVersion) → (c : Content) → AreAsRead c
        → content_layout version (opened_again version c) ≡ content_layout version c }
    ensures same_bytes { (v w : FormatVersion) → (c d opened : Content) → IsWritable v c
        → IsWritable w d → AreAsRead c → AreAsRead d → Opens (content_layout v c) opened
        → Opens (content_layout w d) opened → content_layout v c ≡ content_layout w d }
{}

/// Law: an opened shard can be written in its version (`writable`), and is opened again without
/// tables that have no row (`opened`). It is well-formed if its records are (`well_formed`).
pub fn opened_can_be_written()
    ensures writable { (bytes : List ℕ) → (c : Content) → Opens bytes c
        → IsWritable c.options.version c }
    ensures opened { (bytes : List ℕ) → (c : Content) → Opens bytes c
        → Opens (content_layout c.options.version c)
        (record c { options = options_named c.options.version c }) }
    ensures well_formed { (bytes : List ℕ) → (c : Content) → Opens bytes c → HasFormedRecords c
        → IsWellFormedShard c }
{}
