//! Laws of shards whose chunk hashes are under a key.

ghost use Rattle.std.specs.Prelude.{◌≡◌, ◌↔◌, ◌+◌, ◌++◌, ◌≤◌, ℕ, Bool, List, [], length, map, Contains, Option, Some, true, All};
ghost use Rattle.std.specs.FinMap.{get, values};
ghost use Rattle.std.specs.Io.KnownBytes.{Appends};
ghost use Rattle.xet_base.specs.declared.error.CoreError.{CoreError};
ghost use Rattle.xet_base.specs.declared.merklehash.DataHash.{DataHash};
ghost use Rattle.xet_base.specs.Bytes.{u64_bytes};
ghost use Rattle.xet_base.specs.KeyedHash.{no_key};
ghost use Rattle.xet_base.specs.Source.{Source, bytes_left};
ghost use Rattle.xet_records.specs.declared.file_structs.rows.FileDataSequenceEntry.{FileDataSequenceEntry};
ghost use Rattle.xet_records.specs.View.{without_aux, all_with_aux_if};
ghost use Rattle.xet_records.specs.declared.xorb_structs.MDBXorbInfo.{MDBXorbInfo};
ghost use Rattle.xet_records.specs.declared.xorb_structs.XorbChunkSequenceEntry.{XorbChunkSequenceEntry};
ghost use Rattle.xet_shards.specs.ShardInMemory.ChunkLookup.{ChunkLocation};
ghost use Rattle.xet_shards.specs.ShardInMemory.ChunkQuery.{run_length};
ghost use Rattle.xet_shards.specs.Content.Joins.{IsJoinOf, AgreePairwise};
ghost use Rattle.xet_shards.specs.Content.ShardsWithoutAux.{shard_without_aux};
ghost use Rattle.xet_shards.specs.Export.KeyedExport.{keyed_chunk, exported_bytes, export_options, Exports, ExportsWith};
ghost use Rattle.xet_shards.specs.Content.KeyedShards.{keyed_shard};
ghost use Rattle.xet_shards.specs.declared.shard_format.ends.options.LayoutOptions.{LayoutOptions};
ghost use Rattle.xet_shards.specs.Write.Layout.{if_included, layout_of};
ghost use Rattle.xet_shards.specs.Content.SetOperations.{IsUnion, ShardsAgree};
ghost use Rattle.xet_shards.specs.Content.Shard.{Shard, IsShard};
ghost use Rattle.xet_shards.specs.Lookup.WrittenQueries.{HasChunkAt, RunAmong};
ghost use Rattle.xet_shards.specs.Write.WrittenShard.{IsBytesOf, IsBytesWithoutExpiry};
ghost use Rattle.xet_core_structures.specs.declared.set_operations.MergePlan.{MergePlan};
ghost use Rattle.xet_core_structures.specs.TwoShards.ByteResults.{keyed_layout};
ghost use Rattle.xet_core_structures.specs.Trees.ExportTrees.{shard_with_aux_if, IsExportedAt, IsMergeOfExports, run_under};
ghost use Rattle.xet_core_structures.specs.Trees.MergeTrees.{leaves, TreeWrites, TreeRefusal, IsMerge, IsMergeOfWritten, MergeRefused};

/// A shard under a key is a shard, and an export with files is its layout.
pub fn keyed_shards_are_exported()
    ensures shards { (key : DataHash) → (s : Shard) → IsShard s → IsShard (keyed_shard key s) }
    ensures bytes { (s : Shard) → (options : LayoutOptions) → options.file_table ≡ true
        → let keyed = keyed_shard options.key s in
        exported_bytes (values s.files) (values s.xorbs) options
        ≡ layout_of (values keyed.files) (values keyed.xorbs) options }
{}

/// Unions, joins and agreement of shards pass to the shards under one key.
pub fn keys_pass_to_joins()
    ensures union { (key : DataHash) → (a b c : Shard) → IsUnion a b c
        → IsUnion (keyed_shard key a) (keyed_shard key b) (keyed_shard key c) }
    ensures join { (key : DataHash) → (shards : List Shard) → (c : Shard)
        → IsJoinOf (Contains shards) c
        → IsJoinOf (Contains (map (keyed_shard key) shards)) (keyed_shard key c) }
    ensures agree { (key : DataHash) → (a b : Shard) → ShardsAgree a b
        → ShardsAgree (keyed_shard key a) (keyed_shard key b) }
{}

/// A join has the xorb that any of the shards has under a hash, and under a key a run of hashes is
/// at least as long.
pub fn joins_keep_runs()
    ensures xorbs { (shards : List Shard) → (s c : Shard) → (q : DataHash) → (xorb : MDBXorbInfo)
        → IsJoinOf (Contains shards) c → Contains shards s → get s.xorbs q ≡ Some xorb
        → get c.xorbs q ≡ Some xorb }
    ensures runs { (key : DataHash) → (hashes : List DataHash)
        → (chunks : List XorbChunkSequenceEntry)
        → run_length no_key hashes chunks ≤ run_length key hashes (map (keyed_chunk key) chunks) }
{}

/// Exports with files, under one key, of shards that agree, all with auxiliary rows or all without,
/// merge to the export of their join with all tables, creation 0 and no expiry. So exports and
/// unions can be exchanged but for these timestamps. Refused only if an allocation fails or what is
/// joined has too many rows.
pub fn exports_merge_to_the_export_of_the_join()
    ensures exports { (aux : Bool) → (s : Shard) → (options : LayoutOptions) → (old new : Source)
        → (before after : Option (List ℕ)) → (size : ℕ) → IsBytesOf s (bytes_left old)
        → ExportsWith aux options old new before after size
        → Appends before after
        (exported_bytes (all_with_aux_if aux (values s.files)) (values s.xorbs) options) }
    ensures bytes { (aux : Bool) → (inputs : List (List ℕ)) → (plan : MergePlan)
        → (key : DataHash) → (shards : List Shard) → (join : Shard) → (out : List ℕ)
        → IsMergeOfExports aux key inputs plan shards join → TreeWrites inputs plan out
        → out ≡ exported_bytes (all_with_aux_if aux (values join.files)) (values join.xorbs)
        (export_options key 0 18446744073709551615 true true true) }
    ensures timestamps { (aux : Bool) → (s : Shard) → (key : DataHash)
        → (before after : List ℕ) × (length after ≡ 80)
        × ((now valid : ℕ)
        → exported_bytes (all_with_aux_if aux (values s.files)) (values s.xorbs)
        (export_options key now valid true true true)
        ≡ before ++ u64_bytes now ++ u64_bytes (now + valid) ++ after) }
    ensures exchanged { (aux : Bool) → (inputs outs : List (List ℕ)) → (plan : MergePlan)
        → (key : DataHash) → (shards : List Shard) → (join : Shard) → (out bytes : List ℕ)
        → (now valid size : ℕ) → (old new : Source) → IsMergeOfWritten inputs plan shards join
        → TreeWrites inputs plan (bytes_left old)
        → ExportsWith aux (export_options key now valid true true true) old new (Some [])
        (Some bytes) size
        → All (IsExportedAt aux key inputs outs) (leaves plan) → TreeWrites outs plan out
        → (before after : List ℕ) × (length after ≡ 80)
        × (bytes ≡ before ++ u64_bytes now ++ u64_bytes (now + valid) ++ after)
        × (out ≡ before ++ u64_bytes 0 ++ u64_bytes 18446744073709551615 ++ after) }
    ensures refusals { (aux : Bool) → (inputs : List (List ℕ)) → (plan : MergePlan)
        → (key : DataHash) → (shards : List Shard) → (join : Shard) → (e : CoreError)
        → IsMergeOfExports aux key inputs plan shards join → TreeRefusal inputs plan e
        → MergeRefused (shard_with_aux_if aux join) e }
{}

/// A tree of shards that agree keeps their runs of chunks and adds none. Under a key, runs are at
/// least as long.
pub fn merges_keep_runs()
    ensures kept { (inputs : List (List ℕ)) → (plan : MergePlan) → (shards : List Shard)
        → (join s : Shard) → (out : List ℕ) → (q : DataHash) → (index : ℕ)
        → (hashes : List DataHash) → (run : ℕ × FileDataSequenceEntry)
        → IsMerge inputs plan shards join → TreeWrites inputs plan out → Contains shards s
        → run_under no_key s q index hashes ≡ Some run
        → IsBytesWithoutExpiry join out × (run_under no_key join q index hashes ≡ Some run) }
    ensures only { (key : DataHash) → (shards : List Shard) → (join : Shard) → (q : DataHash)
        → (index : ℕ) → (hashes : List DataHash) → (run : ℕ × FileDataSequenceEntry)
        → IsJoinOf (Contains shards) join → run_under key join q index hashes ≡ Some run
        → (s : Shard) × Contains shards s × (run_under key s q index hashes ≡ Some run) }
    ensures answers { (key : DataHash) → (shards : List Shard) → (join : Shard)
        → (hashes : List DataHash) → (run : ℕ × FileDataSequenceEntry)
        → IsJoinOf (Contains shards) join → RunAmong key hashes (values join.xorbs) (Some run)
        → (s : Shard) × Contains shards s × RunAmong key hashes (values s.xorbs) (Some run) }
    ensures chunks { (shards : List Shard) → (join : Shard) → (q : DataHash)
        → (p : ChunkLocation) → IsJoinOf (Contains shards) join
        → HasChunkAt (values join.xorbs) q p
        ↔ ((s : Shard) × Contains shards s × HasChunkAt (values s.xorbs) q p) }
    ensures keyed { (inputs : List (List ℕ)) → (plan : MergePlan) → (key : DataHash)
        → (shards : List Shard) → (join s : Shard) → (out : List ℕ) → (q : DataHash) → (index : ℕ)
        → (hashes : List DataHash) → (run : ℕ × FileDataSequenceEntry)
        → IsMergeOfExports true key inputs plan shards join → TreeWrites inputs plan out
        → Contains shards s → run_under no_key s q index hashes ≡ Some run
        → (out ≡ keyed_layout (keyed_shard key join) key)
        × ((longer : ℕ × FileDataSequenceEntry)
        × (run_under key (keyed_shard key join) q index hashes ≡ Some longer)
        × (run.0 ≤ longer.0)) }
    ensures exported { (inputs : List (List ℕ)) → (plan : MergePlan) → (shards : List Shard)
        → (join : Shard) → (options : LayoutOptions) → (old new : Source) → (before after : Option (List ℕ))
        → (size : ℕ) → IsMerge inputs plan shards join → TreeWrites inputs plan (bytes_left old)
        → Exports options old new before after size
        → let keyed = keyed_shard options.key join in
        Appends before after
        (layout_of (if_included options.file_table (values keyed.files)) (values keyed.xorbs) options) }
    ensures exported_runs { (key : DataHash) → (join : Shard) → (q : DataHash) → (index : ℕ)
        → (hashes : List DataHash) → (run : ℕ × FileDataSequenceEntry)
        → run_under no_key join q index hashes ≡ Some run
        → (longer : ℕ × FileDataSequenceEntry)
        × (run_under key (keyed_shard key join) q index hashes ≡ Some longer)
        × (run.0 ≤ longer.0) }
    ensures keyed_leaves { (key : DataHash) → (shards : List Shard) → (join : Shard)
        → AgreePairwise (Contains shards) → IsJoinOf (Contains shards) join
        → let keyed = Contains (map (keyed_shard key) shards) in
        AgreePairwise keyed × IsJoinOf keyed (keyed_shard key join) }
{}

/// Agreement and joins of shards pass to the shards without auxiliary rows.
pub fn joins_without_auxiliary_rows()
    ensures shards { (s : Shard) → IsShard s → IsShard (shard_without_aux s) }
    ensures files { (s : Shard)
        → values (shard_without_aux s).files ≡ map without_aux (values s.files) }
    ensures agree { (a b : Shard) → ShardsAgree a b
        → ShardsAgree (shard_without_aux a) (shard_without_aux b) }
    ensures join { (shards : List Shard) → (c : Shard) → IsJoinOf (Contains shards) c
        → IsJoinOf (Contains (map shard_without_aux shards)) (shard_without_aux c) }
{}
