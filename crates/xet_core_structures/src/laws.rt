//! Laws of shards, names, hashes and errors. Each function does nothing; its contract is the law.

ghost use Rattle.xet_records.specs.XorbRecord.{xorb_records, IsXorb};
ghost use Rattle.xet_records.specs.declared.record_reader.FormatVersion.{FormatVersion};
ghost use Rattle.xet_records.specs.FileRecord.{file_records, file_records_in};
ghost use Rattle.std.specs.Prelude.{◌≡◌, ◌↔◌, ◌<◌, ◌^◌, ℕ, Bool, List, [], ◌∷◌, ◌++◌, map, All, Contains, Option, None, IfSome, IsTrue, unwrap_or};
ghost use Rattle.std.specs.declared.result.Result.{Result};
ghost use Rattle.std.specs.FinMap.{values};
ghost use Rattle.std.specs.List.{AllZip};
ghost use Rattle.std.specs.List.Sorted.{IsStrictlySortedBy};
ghost use Rattle.xet_base.specs.declared.merklehash.DataHash.{DataHash};
ghost use Rattle.xet_base.specs.declared.error.CoreError.{CoreError};
ghost use Rattle.xet_base.specs.Errors.{variant_number};
ghost use Rattle.xet_base.specs.Blake3.{keyed_hash};
ghost use Rattle.xet_base.specs.Hash.{IsHash, hash_bytes};
ghost use Rattle.xet_base.specs.Hex.{hash_hex, IsHexText, Spells};
ghost use Rattle.xet_base.specs.KeyedHash.{hmac, no_key};
ghost use Rattle.xet_base.specs.Source.{Source};
ghost use Rattle.xet_core_structures.specs.declared.set_operations.MergePlan.{MergePlan};
ghost use Rattle.xet_core_structures.specs.TwoShards.ByteResults.{keyed_info, keyed_layout, HaveResult, UnitesBytes};
ghost use Rattle.xet_core_structures.specs.Records.ByteUnion.{IsByteUnion, HasPartsOf};
ghost use Rattle.xet_core_structures.specs.Records.Equality.{error_eq};
ghost use Rattle.xet_core_structures.specs.Trees.ExportTrees.{FitsOptions, IsExportOf, shard_with_aux_if};
ghost use Rattle.xet_core_structures.specs.Records.ShardContents.{Holds, HoldsShard, IsReadInOneWay, IsTruncated, IsMalformed};
ghost use Rattle.xet_core_structures.specs.Trees.MergeTrees.{leaves, HasUnion, InputIs, TreeWrites, TreeRefusal, HaveXorbs, IsMerge, IsMergeUnder, MergeRefused};
ghost use Rattle.xet_core_structures.specs.TwoShards.Readable.{IsBytesUnderKey};
ghost use Rattle.xet_records.specs.declared.file_structs.MDBFileInfo.{MDBFileInfo};
ghost use Rattle.xet_shards.specs.declared.shard_format.ends.info.MDBShardInfo.{MDBShardInfo};
ghost use Rattle.xet_shards.specs.Ends.Ends.{Loads};
ghost use Rattle.xet_shards.specs.Content.KeyedShards.{keyed_shard};
ghost use Rattle.xet_shards.specs.declared.shard_format.ends.options.LayoutOptions.{LayoutOptions};
ghost use Rattle.xet_shards.specs.Write.Layout.{layout, layout_of};
ghost use Rattle.xet_shards.specs.Lookup.Lookup.{LooksUpFile, FindsInShard};
ghost use Rattle.xet_shards.specs.Content.Names.{shard_name, NamesShard};
ghost use Rattle.xet_records.specs.declared.xorb_structs.MDBXorbInfo.{MDBXorbInfo};
ghost use Rattle.xet_shards.specs.declared.shard_format.write.xorb_writer.ChunkTableRow.{ChunkTableRow};
ghost use Rattle.xet_shards.specs.Write.Section.{total_rows};
ghost use Rattle.xet_shards.specs.Content.Shard.{Shard, IsShard, empty_shard, file_hash_of, xorb_hash_of};
ghost use Rattle.xet_shards.specs.Write.Tables.{chunk_table_row_cmp, chunk_table_rows, chunk_table, starts, records_below};
ghost use Rattle.xet_shards.specs.Content.SetOperations.{IsUnion, IsDifference, ShardsAgree, RowsFitU32, CanUnite};
ghost use Rattle.xet_shards.specs.Content.Joins.{IsJoinOf, AgreePairwise};
ghost use Rattle.xet_shards.specs.Write.WrittenShard.{HasFilesIn, IsBytesOf, IsBytesWithInfo, IsBytesWithoutExpiry};

mod exports;
mod minimal;
mod sizes;

pub use exports::{
    exports_merge_to_the_export_of_the_join, joins_keep_runs, joins_without_auxiliary_rows,
    keyed_shards_are_exported, keys_pass_to_joins, merges_keep_runs,
};
pub use minimal::{minimal_shards_are_written_again, subsets_keep_eligible_chunks};
pub use sizes::results_are_bounded;
pub use xet_base::merklehash::{hashes_are_equal_by_words, hashes_are_ordered_by_words};

/// Each two shards have exactly one union.
pub fn unions_exist()
    ensures exists { (a b : Shard) → (c : Shard) × IsUnion a b c }
    ensures one { (a b c d : Shard) → IsUnion a b c → IsUnion a b d → c ≡ d }
{}

/// The union of shards that agree is their join, in either order.
pub fn union_commutes()
    ensures join { (a b c : Shard) → IsShard a → IsShard b → ShardsAgree a b → IsUnion a b c
        → IsJoinOf (Contains (a ∷ b ∷ [])) c }
    ensures order { (a b c d : Shard) → IsShard a → IsShard b → ShardsAgree a b
        → IsUnion a b c → IsUnion b a d → c ≡ d }
{}

/// Shards that agree pairwise have exactly one join. That of two groups is the union of their
/// joins; if its rows fit `u32`, so do those of the first join.
pub fn joins_exist()
    ensures exists { (shards : List Shard) → AgreePairwise (Contains shards)
        → (c : Shard) × IsJoinOf (Contains shards) c }
    ensures one { (shards : List Shard) → (c d : Shard)
        → IsJoinOf (Contains shards) c → IsJoinOf (Contains shards) d → c ≡ d }
    ensures union { (xs ys : List Shard) → (a b c : Shard) → AgreePairwise (Contains (xs ++ ys))
        → IsJoinOf (Contains xs) a → IsJoinOf (Contains ys) b → IsUnion a b c
        → IsJoinOf (Contains (xs ++ ys)) c }
    ensures few { (xs ys : List Shard) → (a c : Shard) → IsJoinOf (Contains xs) a
        → IsJoinOf (Contains (xs ++ ys)) c → RowsFitU32 c → RowsFitU32 a }
{}

/// Unions associate.
pub fn union_associates()
    ensures { (a b c ab bc left right : Shard)
        → IsUnion a b ab → IsUnion ab c left → IsUnion b c bc → IsUnion a bc right → left ≡ right }
{}

/// The union of a shard with itself is that shard.
pub fn union_repeats()
    ensures { (a c : Shard) → IsShard a → IsUnion a a c → c ≡ a }
{}

/// The empty shard is neutral in unions.
pub fn union_with_nothing()
    ensures right { (a c : Shard) → IsUnion a empty_shard c → c ≡ a }
    ensures left { (a c : Shard) → IsUnion empty_shard a c → c ≡ a }
{}

/// The empty shard is a shard, and so is a difference whose second input is one.
pub fn empty_and_differences_are_shards()
    ensures empty { IsShard empty_shard }
    ensures difference { (a b d : Shard) → IsShard b → IsDifference a b d → IsShard d }
{}

/// Shards that agree can be united if the rows of their union fit `u32`.
pub fn agreeing_shards_unite()
    ensures { (a b : Shard) → IsShard a → IsShard b → ShardsAgree a b
        → ((c : Shard) → IsUnion a b c → RowsFitU32 c) → CanUnite a b }
{}

/// A shard that agrees with each of two agrees with their union.
pub fn agreement_passes_to_unions()
    ensures { (a b c ab : Shard) → ShardsAgree a c → ShardsAgree b c → IsUnion a b ab
        → ShardsAgree ab c }
{}

/// A record starts after the rows of all records of its kind with smaller hashes.
pub fn records_start_after_smaller_hashes()
    ensures files { (s : Shard) → IsShard s
        → let files = values s.files in
        starts file_records files ≡ map
        (λ r. let q = file_hash_of r in
        (q.word0, total_rows file_records (records_below file_records q files)))
        files }
    ensures xorbs { (s : Shard) → IsShard s
        → let xorbs = values s.xorbs in
        starts xorb_records xorbs ≡ map
        (λ r. let q = xorb_hash_of r in
        (q.word0, total_rows xorb_records (records_below xorb_records q xorbs)))
        xorbs }
{}

/// The chunk table has exactly one row for each chunk, strictly ascending by first word, by the row
/// at which the xorb starts and by the index in it.
pub fn chunk_table_is_sorted()
    ensures sorted { (xorbs : List MDBXorbInfo)
        → IsStrictlySortedBy chunk_table_row_cmp (chunk_table xorbs) }
    ensures rows { (xorbs : List MDBXorbInfo) → (p : ChunkTableRow)
        → Contains (chunk_table xorbs) p ↔ Contains (chunk_table_rows xorbs) p }
{}

/// The name of a shard file spells its hash alone, so `parse_shard_filename` gives it back.
pub fn shard_name_is_read()
    ensures named { (hash : DataHash) → NamesShard (shard_name hash) hash }
    ensures alone { (name : List ℕ) (a b : DataHash) → IsHash a → IsHash b
        → NamesShard name a → NamesShard name b → a ≡ b }
{}

/// Shards have equal bytes if and only if they and their expiries are equal, where none is the
/// greatest `u64`.
pub fn equal_bytes_mean_equal_shards()
    ensures contents { (s t : Shard) → IsShard s → IsShard t
        → (layout s None ≡ layout t None) ↔ (s ≡ t) }
    ensures expiries { (s t : Shard) → (e f : Option ℕ) → IsShard s → IsShard t
        → IfSome e (λ m. m < 2 ^ 64) → IfSome f (λ m. m < 2 ^ 64)
        → (layout s e ≡ layout t f)
        ↔ ((s ≡ t) × (unwrap_or e 18446744073709551615 ≡ unwrap_or f 18446744073709551615)) }
{}

/// The 64 digits of a hash spell it alone, so `DataHash::from_hex` is the inverse of `hex`.
pub fn hex_is_read()
    ensures named { (hash : DataHash) → IsHexText (hash_hex hash) × Spells (hash_hex hash) hash }
    ensures alone { (text : List ℕ) (a b : DataHash) → IsHash a → IsHash b
        → Spells text a → Spells text b → a ≡ b }
{}

/// Errors are equal by `==`, an equivalence relation, if and only if their variants are.
pub fn errors_are_equal_by_variant()
    ensures variants { (e f : CoreError) → IsTrue (error_eq e f)
        ↔ (variant_number e ≡ variant_number f) }
    ensures reflexive { (e : CoreError) → IsTrue (error_eq e e) }
    ensures symmetric { (e f : CoreError) → IsTrue (error_eq e f) → IsTrue (error_eq f e) }
    ensures transitive { (e f g : CoreError)
        → IsTrue (error_eq e f) → IsTrue (error_eq f g) → IsTrue (error_eq e g) }
{}

/// What a union, a difference or a tree with a union writes is loaded, and its files looked up, as
/// bytes of a shard under a key. Its xorbs are well-formed, as queries for chunks require, if the
/// inputs' are; of a difference, the second's.
pub fn lookups_on_results()
    ensures trees { (inputs : List (List ℕ)) → (plan : MergePlan) → (bytes : List ℕ) → HasUnion plan
        → TreeWrites inputs plan bytes
        → (key : DataHash) × (c : Shard) × IsBytesUnderKey key c bytes (keyed_info c key) }
    ensures loaded { (key : DataHash) → (c : Shard) → (info found : MDBShardInfo)
        → (old new : Source) → IsBytesUnderKey key c old.bytes info → Loads old new found
        → found ≡ info }
    ensures files { (key : DataHash) → (c : Shard) → (info : MDBShardInfo) → (hash : DataHash)
        → (old new : Source) → (found : Result (Option MDBFileInfo) CoreError)
        → IsBytesUnderKey key c old.bytes info → LooksUpFile info hash old new found
        → FindsInShard c hash old new found }
    ensures union_xorbs { (x y : List ℕ) → (i j : MDBShardInfo) → (c : Shard)
        → (have : HaveResult IsByteUnion x i y j c) → All IsXorb (values have.first.xorbs)
        → All IsXorb (values have.second.xorbs) → All IsXorb (values c.xorbs) }
    ensures difference_xorbs { (x y : List ℕ) → (i j : MDBShardInfo) → (c : Shard)
        → (have : HaveResult IsDifference x i y j c) → All IsXorb (values have.second.xorbs)
        → All IsXorb (values c.xorbs) }
    ensures tree_xorbs { (inputs : List (List ℕ)) → (plan : MergePlan) → (key : DataHash)
        → (c : Shard) → (bytes : List ℕ) → (info : MDBShardInfo) → HaveXorbs inputs plan
        → TreeWrites inputs plan bytes → IsBytesUnderKey key c bytes info
        → All IsXorb (values c.xorbs) }
    ensures held { (key : DataHash) → (c : Shard) → (bytes : List ℕ) → (info : MDBShardInfo)
        → IsBytesUnderKey key c bytes info → Holds bytes info c }
{}

/// As [`lookups_on_results`], of a tree with a union of shards without a key that agree pairwise:
/// it writes the bytes of their join without expiry.
pub fn lookups_on_trees()
    ensures premises { (inputs : List (List ℕ)) → (plan : MergePlan) → (shards : List Shard)
        → (join : Shard) → (old new : Source) → (info : MDBShardInfo)
        → IsMerge inputs plan shards join → TreeWrites inputs plan old.bytes → Loads old new info
        → IsBytesWithoutExpiry join new.bytes × IsBytesWithInfo join new.bytes info }
    ensures files { (inputs : List (List ℕ)) → (plan : MergePlan) → (shards : List Shard)
        → (join : Shard) → (old loaded new : Source) → (info : MDBShardInfo) → (hash : DataHash)
        → (found : Result (Option MDBFileInfo) CoreError) → IsMerge inputs plan shards join
        → TreeWrites inputs plan old.bytes → Loads old loaded info
        → LooksUpFile info hash loaded new found → FindsInShard join hash loaded new found }
{}

/// Of inputs that hold shards under one key that agree pairwise, a tree with a union writes the
/// layout of their join under this key. Refused only if an allocation fails or the join has too
/// many rows. A shard's bytes in either version, its layouts with any options, exports and the
/// results of trees hold shards.
pub fn trees_of_held_shards()
    ensures written { (s : Shard) → (bytes : List ℕ) → IsBytesOf s bytes
        → HoldsShard no_key s bytes }
    ensures any_options { (s : Shard) → (options : LayoutOptions) → IsShard s → HasFilesIn options.version s
        → FitsOptions options
        → HoldsShard options.key s (layout_of (values s.files) (values s.xorbs) options) }
    ensures exports { (aux : Bool) → (key : DataHash) → (s : Shard) → (bytes : List ℕ)
        → IsShard s → IsExportOf aux key s bytes
        → HoldsShard key (keyed_shard key (shard_with_aux_if aux s)) bytes }
    ensures bytes { (inputs : List (List ℕ)) → (plan : MergePlan) → (key : DataHash)
        → (shards : List Shard) → (join : Shard) → (out : List ℕ)
        → IsMergeUnder key inputs plan shards join → TreeWrites inputs plan out
        → out ≡ keyed_layout join key }
    ensures again { (inputs : List (List ℕ)) → (plan : MergePlan) → (key : DataHash)
        → (shards : List Shard) → (join : Shard) → (out : List ℕ)
        → IsMergeUnder key inputs plan shards join → TreeWrites inputs plan out
        → HoldsShard key join out }
    ensures refusals { (inputs : List (List ℕ)) → (plan : MergePlan) → (key : DataHash)
        → (shards : List Shard) → (join : Shard) → (e : CoreError)
        → IsMergeUnder key inputs plan shards join → TreeRefusal inputs plan e
        → MergeRefused join e }
    ensures same { (inputs others : List (List ℕ)) → (plan other : MergePlan) → (key : DataHash)
        → (xs ys : List Shard) → (x y : List ℕ) → HasUnion plan → HasUnion other
        → AllZip (λ i s. InputIs inputs (HoldsShard key s) i) (leaves plan) xs
        → AllZip (λ i s. InputIs others (HoldsShard key s) i) (leaves other) ys
        → AgreePairwise (Contains xs) → ((s : Shard) → Contains xs s ↔ Contains ys s)
        → TreeWrites inputs plan x → TreeWrites others other y → x ≡ y }
{}

/// Bytes hold at most one shard. If they hold one, they are neither truncated nor malformed; no
/// bytes are both.
pub fn sections_are_read_in_one_way()
    ensures files { (version : FormatVersion) → (bytes : List ℕ)
        → IsReadInOneWay (file_records_in version) bytes }
    ensures xorbs { (bytes : List ℕ) → IsReadInOneWay xorb_records bytes }
    ensures holds { (bytes : List ℕ) → (info : MDBShardInfo) → (s t : Shard)
        → Holds bytes info s → Holds bytes info t → s ≡ t }
    ensures whole { (bytes : List ℕ) → (info : MDBShardInfo) → (s : Shard) → Holds bytes info s
        → (¬ IsTruncated bytes info) × (¬ IsMalformed bytes info) }
    ensures first { (bytes : List ℕ) → (info : MDBShardInfo) → IsTruncated bytes info
        → ¬ IsMalformed bytes info }
{}

/// Two shards have at most one union as `shard_set_union` writes it and one difference, and two
/// byte strings one union.
pub fn results_are_one()
    ensures union { (a b c d : Shard) → IsByteUnion a b c → IsByteUnion a b d → c ≡ d }
    ensures difference { (a b c d : Shard) → IsDifference a b c → IsDifference a b d → c ≡ d }
    ensures bytes { (x y u v : List ℕ) → UnitesBytes x y u → UnitesBytes x y v → u ≡ v }
{}

/// Bytes that hold shards that agree, under one key, have the same union in either order and
/// grouping. With the same shard or the empty one it is the shard's layout.
pub fn unions_of_bytes()
    ensures order { (key : DataHash) → (a b : Shard) → (a_1 a_2 b_1 b_2 x y : List ℕ)
        → ShardsAgree a b → HoldsShard key a a_1 → HoldsShard key a a_2 → HoldsShard key b b_1
        → HoldsShard key b b_2 → UnitesBytes a_1 b_1 x → UnitesBytes b_2 a_2 y → x ≡ y }
    ensures grouping { (key : DataHash) → (a b c : Shard)
        → (a_1 a_2 b_1 b_2 c_1 c_2 ab bc left right : List ℕ)
        → ShardsAgree a b → ShardsAgree a c → ShardsAgree b c → HoldsShard key a a_1
        → HoldsShard key a a_2 → HoldsShard key b b_1 → HoldsShard key b b_2
        → HoldsShard key c c_1 → HoldsShard key c c_2 → UnitesBytes a_1 b_1 ab
        → UnitesBytes ab c_1 left → UnitesBytes b_2 c_2 bc → UnitesBytes a_2 bc right
        → left ≡ right }
    ensures repetition { (key : DataHash) → (a : Shard) → (a_1 a_2 x : List ℕ)
        → HoldsShard key a a_1 → HoldsShard key a a_2 → UnitesBytes a_1 a_2 x
        → x ≡ keyed_layout a key }
    ensures right { (key : DataHash) → (a : Shard) → (some none x : List ℕ)
        → HoldsShard key a some → HoldsShard key empty_shard none → UnitesBytes some none x
        → x ≡ keyed_layout a key }
    ensures left { (key : DataHash) → (a : Shard) → (some none x : List ℕ)
        → HoldsShard key a some → HoldsShard key empty_shard none → UnitesBytes none some x
        → x ≡ keyed_layout a key }
{}

/// As bytes under one key, the union of a with the difference of a and b is that of a and b, if
/// they agree and each file of both has in a every optional part that it has in b.
pub fn unions_with_differences()
    ensures { (key : DataHash) → (a b d : Shard) → (a_1 a_2 b_1 d_1 x y : List ℕ)
        → ShardsAgree a b → HasPartsOf a b → IsDifference a b d → HoldsShard key a a_1
        → HoldsShard key a a_2 → HoldsShard key b b_1 → HoldsShard key d d_1
        → UnitesBytes a_1 b_1 x → UnitesBytes a_2 d_1 y → x ≡ y }
{}

/// The hash of a hash under a key is the keyed BLAKE3 hash of its 32 bytes.
pub fn hmac_hashes_the_bytes()
    ensures { (key hash : DataHash) → hmac key hash ≡ keyed_hash key (hash_bytes hash) }
{}
