//! Laws of merges of lists.

ghost use Rattle.std.specs.Prelude.{◌≡◌, ◌<◌, ℕ, List, flat_map, length, Contains, None, true};
ghost use Rattle.std.specs.List.{AllZip};
ghost use Rattle.xet_base.specs.declared.error.CoreError.{CoreError};
ghost use Rattle.xet_base.specs.declared.merklehash.DataHash.{DataHash};
ghost use Rattle.xet_shards.specs.Content.Joins.{IsJoinOf, AgreePairwise};
ghost use Rattle.xet_shards.specs.Content.Shard.{Shard};
ghost use Rattle.xet_core_structures.specs.Records.ShardContents.{HoldsShard};
ghost use Rattle.xet_core_structures.specs.Trees.MergeTrees.{MergeRefused};
ghost use Rattle.placed_shards.specs.declared.placed_shard.PlacedShard.{PlacedShard};
ghost use Rattle.placed_shards.specs.declared.range.HashRange.{HashRange};
ghost use Rattle.placed_shards.specs.declared.selection.Selection.{Selection};
ghost use Rattle.placed_shards.specs.declared.strict.Agreed.{Agreed};
ghost use Rattle.placed_shards.specs.declared.strict.Agreed.TheVariants.{Made};
ghost use Rattle.placed_shards.specs.ByTables.{OpensByTables};
ghost use Rattle.placed_shards.specs.Content.{Content, content, content_within};
ghost use Rattle.placed_shards.specs.MergedLists.{HoldsSelected, IsMergeOf, MergeRefusal, IsMergeOfList, IsPartOf, shard_content};
ghost use Rattle.placed_shards.specs.Ranges.{is_within, ranges_between, AreCuts};
ghost use Rattle.placed_shards.specs.Selections.{all_records, by_scan, by_tables, OpensWithin};
ghost use Rattle.placed_shards.specs.Strict.{AreAgreeing, IsAgreedOr, AgreedRefusal, IsJoinedMerge};

/// Law: a scan of bytes that hold a well-formed shard selects its records in the range (`one`). Of
/// shards under one key that agree pairwise, these parts agree, and their join is the part of the
/// join (`list`), without bounds all of it (`all`), as `one_byte_string` of
/// [`merge`](crate::merge::merge) wants.
pub fn held_shards_are_selected()
    ensures one { (range : HashRange) → (key : DataHash) → (s part : Shard) → (x : List ℕ)
        → HoldsShard key s x → IsPartOf (is_within range) s part
        → HoldsSelected (by_scan range) key x part }
    ensures list { (range : HashRange) → (key : DataHash) → (shards : List Shard)
        → (inputs : List (List ℕ)) → (join part : Shard) → 0 < length inputs
        → AllZip (HoldsShard key) shards inputs → AgreePairwise (Contains shards)
        → IsJoinOf (Contains shards) join → IsPartOf (is_within range) join part
        → (parts : List Shard) × IsMergeOfList (by_scan range) key inputs parts part }
    ensures all { (key : DataHash) → (shards : List Shard) → (inputs : List (List ℕ))
        → (join : Shard) → 0 < length inputs → AllZip (HoldsShard key) shards inputs
        → AgreePairwise (Contains shards) → IsJoinOf (Contains shards) join
        → IsMergeOfList all_records key inputs shards join }
{}

/// Law: of lists as `one_byte_string` of `merge` wants, the records are well-formed and agree
/// (`agree`), and [`merge_agreeing`](crate::strict::merge_agreeing) makes their join (`made`), or
/// fails for its rows or for memory (`refused`).
pub fn lists_that_agree_are_joined()
    ensures agree { (selection : Selection) → (key : DataHash) → (inputs : List (List ℕ))
        → (parts : List Shard) → (join : Shard) → IsMergeOfList selection key inputs parts join
        → AreAgreeing selection inputs }
    ensures made { (selection : Selection) → (key : DataHash) → (inputs : List (List ℕ))
        → (parts : List Shard) → (join : Shard) → IsMergeOfList selection key inputs parts join
        → (agreed : Agreed PlacedShard) → IsAgreedOr selection inputs
        (λ made. (made.as_read ≡ true) × IsJoinedMerge selection inputs (content made)) agreed
        → (made : PlacedShard) × (agreed ≡ Made made) × (content made ≡ shard_content key join) }
    ensures refused { (selection : Selection) → (key : DataHash) → (inputs : List (List ℕ))
        → (parts : List Shard) → (join : Shard) → IsMergeOfList selection key inputs parts join
        → (e : CoreError) → AgreedRefusal selection inputs (MergeRefusal selection inputs) e
        → MergeRefused join e }
{}

/// Law: merges by tables in ranges that partition the hashes, if there is one in each, are those by
/// a scan (`lose_no_record`). In one range a merge by a scan is that by tables if the tables of
/// each input find its records there (`find_records`).
pub fn merges_by_tables_are_merges()
    ensures lose_no_record { (inputs : List (List ℕ)) → (cuts : List DataHash)
        → (merges : List Content) → AreCuts None cuts None
        → AllZip (λ range made. IsMergeOf (by_tables range) inputs made)
        (ranges_between None cuts None) merges
        → AllZip (λ range made. IsMergeOf (by_scan range) inputs made)
        (ranges_between None cuts None) merges }
    ensures find_records { (range : HashRange) → (inputs : List (List ℕ)) → (made : Content)
        → ((x : List ℕ) → Contains inputs x → (c : Content) → OpensWithin range x c
        → OpensByTables range x c) → IsMergeOf (by_scan range) inputs made
        → IsMergeOf (by_tables range) inputs made }
{}

/// Law: inputs have at most one merge, agreeing or not (`one`). The records in a range of the merge
/// of all are the merge of the range (`within`), so merges in ranges that partition the hashes have
/// in turn its files (`files`) and its xorbs (`xorbs`).
pub fn merges_of_ranges_make_the_whole()
    ensures one { (selection : Selection) → (inputs : List (List ℕ)) → (m n : Content)
        → IsMergeOf selection inputs m → IsMergeOf selection inputs n → m ≡ n }
    ensures within { (range : HashRange) → (inputs : List (List ℕ)) → (whole : Content)
        → IsMergeOf all_records inputs whole
        → IsMergeOf (by_scan range) inputs (content_within range whole) }
    ensures files { (inputs : List (List ℕ)) → (whole : Content) → IsMergeOf all_records inputs whole
        → (cuts : List DataHash) → (parts : List Content) → AreCuts None cuts None
        → AllZip (λ range part. IsMergeOf (by_scan range) inputs part)
        (ranges_between None cuts None) parts → flat_map (λ part. part.files) parts ≡ whole.files }
    ensures xorbs { (inputs : List (List ℕ)) → (whole : Content) → IsMergeOf all_records inputs whole
        → (cuts : List DataHash) → (parts : List Content) → AreCuts None cuts None
        → AllZip (λ range part. IsMergeOf (by_scan range) inputs part)
        (ranges_between None cuts None) parts → flat_map (λ part. part.xorbs) parts ≡ whole.xorbs }
{}
