//! Laws of unions and differences of shards.

ghost use Rattle.std.specs.Prelude.{◌≡◌, ◌↔◌, Option, None, Some};
ghost use Rattle.std.specs.Option.{option_or};
ghost use Rattle.xet_base.specs.declared.merklehash.DataHash.{DataHash};
ghost use Rattle.xet_records.specs.declared.file_structs.MDBFileInfo.{MDBFileInfo};
ghost use Rattle.xet_records.specs.declared.xorb_structs.MDBXorbInfo.{MDBXorbInfo};
ghost use Rattle.xet_records.specs.FileRecord.{file_records};
ghost use Rattle.xet_records.specs.XorbRecord.{xorb_records};
ghost use Rattle.xet_shards.specs.Write.WithOptions.{FitsSection};
ghost use Rattle.xet_core_structures.specs.Records.RecordPairs.{with_hash};
ghost use Rattle.placed_shards.specs.Content.{Content, AscendBoth, with_all_tables};
ghost use Rattle.placed_shards.specs.Findings.{AgreeInAll};
ghost use Rattle.placed_shards.specs.Laws.{with_keyed_hashes, IsWellFormedShard, HasFlagsOf};
ghost use Rattle.placed_shards.specs.Unions.{IsUnionOf, IsDifferenceOf};

/// Law: two shards have at most one union and at most one difference.
pub fn one_union()
    ensures union { (c d m n : Content) → IsUnionOf c d m → IsUnionOf c d n → m ≡ n }
    ensures difference { (c d m n : Content) → IsDifferenceOf c d m → IsDifferenceOf c d n → m ≡ n }
{}

/// Law: the union of a shard with itself has its records, with all tables, its key, creation 0 and
/// no expiry (`is`), and exists if these may be stored and their rows fit (`exists`).
pub fn union_with_itself()
    ensures is { (c made : Content) → AscendBoth c → IsUnionOf c c made → made ≡ with_all_tables c }
    ensures exists { (c : Content) → AscendBoth c → FitsSection file_records c.files
        → FitsSection xorb_records c.xorbs → IsUnionOf c c (with_all_tables c) }
{}

/// Law: the union of well-formed shards that agree does not depend on their order (`turned`) or
/// grouping (`grouped`). If three have one, so do the last two (`united`).
pub fn unions_in_any_order()
    ensures turned { (c d made : Content) → IsWellFormedShard c → IsWellFormedShard d
        → AgreeInAll c d → IsUnionOf c d made → IsUnionOf d c made }
    ensures grouped { (a b c ab bc made : Content) → IsWellFormedShard a → IsWellFormedShard b
        → IsWellFormedShard c → AgreeInAll a b → AgreeInAll a c → AgreeInAll b c
        → IsUnionOf a b ab → IsUnionOf b c bc → IsUnionOf ab c made → IsUnionOf a bc made }
    ensures united { (a b c ab made : Content) → IsWellFormedShard a → IsWellFormedShard b
        → IsWellFormedShard c → AgreeInAll a b → AgreeInAll a c → AgreeInAll b c
        → IsUnionOf a b ab → IsUnionOf ab c made → (bc : Content) × IsUnionOf b c bc }
{}

/// Law: the union of two shards that agree is well-formed if both are (`well_formed`), and agrees
/// with another shard exactly if both do (`agrees`).
pub fn agreeing_unions()
    ensures well_formed { (c d made : Content) → IsWellFormedShard c → IsWellFormedShard d
        → AgreeInAll c d → IsUnionOf c d made → IsWellFormedShard made }
    ensures agrees { (c d made other : Content) → AgreeInAll c d → IsUnionOf c d made
        → AgreeInAll other made ↔ (AgreeInAll other c × AgreeInAll other d) }
{}

/// Law: a difference has no hash of the first shard (`files_apart`, `xorbs_apart`). United with it,
/// it gives under each hash the first's record, or else the second's (`files`, `xorbs`): the union,
/// if of files with one hash the first's has each flag of the second's (`union`).
pub fn difference_and_union()
    ensures files_apart { (c d left : Content) → IsDifferenceOf c d left
        → (q : DataHash) (r : MDBFileInfo) → with_hash file_records left.files q ≡ Some r
        → with_hash file_records c.files q ≡ None }
    ensures xorbs_apart { (c d left : Content) → IsDifferenceOf c d left
        → (q : DataHash) (r : MDBXorbInfo) → with_hash xorb_records left.xorbs q ≡ Some r
        → with_hash xorb_records c.xorbs q ≡ None }
    ensures files { (c d left made : Content) → IsDifferenceOf c d left → IsUnionOf c left made
        → (q : DataHash) → with_hash file_records made.files q
        ≡ option_or (with_hash file_records c.files q) (with_hash file_records d.files q) }
    ensures xorbs { (c d left made : Content) → IsDifferenceOf c d left → IsUnionOf c left made
        → (q : DataHash) → with_hash xorb_records made.xorbs q
        ≡ option_or (with_hash xorb_records c.xorbs q) (with_hash xorb_records d.xorbs q) }
    ensures union { (c d left made : Content) → IsDifferenceOf c d left → HasFlagsOf c d
        → IsUnionOf c left made ↔ IsUnionOf c d made }
{}

/// Law: chunk hashes can be put under a key before or after a union or a difference.
pub fn keyed_of_union()
    ensures union { (key : DataHash) → (c d made : Content) → IsUnionOf c d made
        → IsUnionOf (with_keyed_hashes key c) (with_keyed_hashes key d)
        (with_keyed_hashes key made) }
    ensures difference { (key : DataHash) → (c d made : Content) → IsDifferenceOf c d made
        → IsDifferenceOf (with_keyed_hashes key c) (with_keyed_hashes key d)
        (with_keyed_hashes key made) }
{}
