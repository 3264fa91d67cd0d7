//! Laws of concatenation that no contract of a single call states.

ghost use Rattle.std.specs.Prelude.{◌≡◌, ℕ, List, None, flat_map, length, sum_by};
ghost use Rattle.std.specs.List.{AllZip};
ghost use Rattle.xet_base.specs.KeyedHash.{no_key};
ghost use Rattle.xet_base.specs.declared.merklehash.DataHash.{DataHash};
ghost use Rattle.xet_records.specs.declared.record_reader.FormatVersion.{FormatVersion};
ghost use Rattle.xet_shards.specs.Content.Shard.{Shard};
ghost use Rattle.xet_shards.specs.Write.Layout.{layout_in};
ghost use Rattle.placed_shards.specs.MergedLists.{IsPartOf};
ghost use Rattle.placed_shards.specs.Ranges.{is_within, ranges_between, AreCuts};
ghost use Rattle.shard_concatenation.specs.Concatenation.{keyed_layout_in, IsHeldLayout, AreRangesOf};
ghost use Rattle.shard_concatenation.specs.Spans.{spans_from};

/// Does nothing. From the layouts, in one version, of a shard's parts in ranges that follow one
/// another and leave no hash out, [`concatenate_shards_into`](crate::concatenate_shards_into)
/// writes that of the shard, or fails for lack of memory (`parts`). Without a key it is the layout
/// without expiry, which `serialize_from` writes in version 3 (`no_key`).
pub fn ranges_concatenate()
    ensures parts { (version : FormatVersion) → (key : DataHash) → (cuts : List DataHash)
        → (join : Shard) → (parts : List Shard) → (bytes : List (List ℕ)) → AreCuts None cuts None
        → AllZip (λ range part. IsPartOf (is_within range) join part) (ranges_between None cuts None)
        parts → AllZip (IsHeldLayout version key) parts bytes → AreRangesOf version key join bytes }
    ensures no_key { (version : FormatVersion) → (join : Shard)
        → keyed_layout_in version join no_key ≡ layout_in version join None }
{}

/// Does nothing. Spans that follow one another are the whole if their sizes add up to its size.
pub fn spans_are_the_whole()
    ensures { (sizes bytes : List ℕ) → sum_by (λ size. size) sizes ≡ length bytes
        → flat_map (λ span. span) (spans_from 0 sizes bytes) ≡ bytes }
{}
