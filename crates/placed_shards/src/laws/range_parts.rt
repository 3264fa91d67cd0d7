//! Laws of the parts of shards in ranges of hashes.

ghost use Rattle.std.specs.Prelude.{◌≡◌, Bool, List, ◌++◌, flat_map, Contains, Option, None};
ghost use Rattle.std.specs.FinMap.{values};
ghost use Rattle.std.specs.List.{AllZip};
ghost use Rattle.xet_base.specs.declared.merklehash.DataHash.{DataHash};
ghost use Rattle.xet_records.specs.declared.file_structs.MDBFileInfo.{MDBFileInfo};
ghost use Rattle.xet_records.specs.declared.xorb_structs.MDBXorbInfo.{MDBXorbInfo};
ghost use Rattle.xet_records.specs.FileRecord.{file_records};
ghost use Rattle.xet_records.specs.XorbRecord.{xorb_records};
ghost use Rattle.xet_shards.specs.Content.Joins.{IsJoinOf};
ghost use Rattle.xet_shards.specs.Content.SetOperations.{ShardsAgree};
ghost use Rattle.xet_shards.specs.Content.Shard.{Shard};
ghost use Rattle.xet_shards.specs.Write.Layout.{layout_of};
ghost use Rattle.xet_core_structures.specs.Records.ByteUnion.{IsEitherFile, IsEitherXorb};
ghost use Rattle.xet_core_structures.specs.Records.RecordPairs.{Combines, AreApart};
ghost use Rattle.xet_core_structures.specs.TwoShards.ByteResults.{keyed_layout, keyed_options};
ghost use Rattle.placed_shards.specs.declared.range.HashRange.{HashRange};
ghost use Rattle.placed_shards.specs.MergedLists.{IsPartOf};
ghost use Rattle.placed_shards.specs.Parts.{HasRecordsInOrder};
ghost use Rattle.placed_shards.specs.Ranges.{is_within, ranges_between, AreCuts};

/// Law: of lists that are cut at one hash, the unions of the records before it and of the others
/// are in turn the union of the lists, agreeing or not.
pub fn unions_of_ranges_follow_one_another()
    ensures files { (k : DataHash) → (xs ys zs us vs ws : List MDBFileInfo)
        → AreApart file_records xs ys zs us vs ws k
        → Combines file_records IsEitherFile xs ys zs → Combines file_records IsEitherFile us vs ws
        → Combines file_records IsEitherFile (xs ++ us) (ys ++ vs) (zs ++ ws) }
    ensures xorbs { (k : DataHash) → (xs ys zs us vs ws : List MDBXorbInfo)
        → AreApart xorb_records xs ys zs us vs ws k
        → Combines xorb_records IsEitherXorb xs ys zs → Combines xorb_records IsEitherXorb us vs ws
        → Combines xorb_records IsEitherXorb (xs ++ us) (ys ++ vs) (zs ++ ws) }
{}

/// Law: if shards agree, so do their parts whose hashes pass a test, such as being in a range
/// (`agree`). The join of parts is that part of the join (`join`).
pub fn joins_pass_to_parts()
    ensures join { (passes : DataHash → Bool) → (shards parts : List Shard) → (join part : Shard)
        → AllZip (IsPartOf passes) shards parts → IsPartOf passes join part
        → IsJoinOf (Contains shards) join → IsJoinOf (Contains parts) part }
    ensures agree { (passes : DataHash → Bool) → (a b c d : Shard) → IsPartOf passes a c
        → IsPartOf passes b d → ShardsAgree a b → ShardsAgree c d }
{}

/// Law: a shard has one part in each range (`exist`, `one`). Parts in adjacent ranges are its
/// records between the outer bounds, once and in order (`range`), without bounds all (`all`). Its
/// layout is that of these in turn (`bytes`).
pub fn ranges_have_all_records()
    ensures exist { (range : HashRange) → (all : Shard)
        → (part : Shard) × IsPartOf (is_within range) all part }
    ensures one { (range : HashRange) → (all part other : Shard)
        → IsPartOf (is_within range) all part → IsPartOf (is_within range) all other → part ≡ other }
    ensures range { (from : Option DataHash) → (cuts : List DataHash) → (to : Option DataHash)
        → (all whole : Shard) → (parts : List Shard) → AreCuts from cuts to
        → IsPartOf (is_within (record { from = from; to = to })) all whole
        → AllZip (λ range part. IsPartOf (is_within range) all part) (ranges_between from cuts to)
        parts → HasRecordsInOrder parts whole }
    ensures all { (cuts : List DataHash) → (all : Shard) → (parts : List Shard)
        → AreCuts None cuts None
        → AllZip (λ range part. IsPartOf (is_within range) all part) (ranges_between None cuts None)
        parts → HasRecordsInOrder parts all }
    ensures bytes { (key : DataHash) → (parts : List Shard) → (whole : Shard) → HasRecordsInOrder parts whole
        → keyed_layout whole key ≡ layout_of (flat_map (λ s. values s.files) parts)
        (flat_map (λ s. values s.xorbs) parts) (keyed_options key) }
{}
