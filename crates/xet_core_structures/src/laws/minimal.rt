//! Laws of minimal shards that are read again.

ghost use Rattle.std.specs.Prelude.{◌≡◌, ℕ, Bool, true, List, [], map, flat_map, Option, Some};
ghost use Rattle.std.specs.Fn.{FnReturnsAt};
ghost use Rattle.std.specs.Io.KnownBytes.{Consumes};
ghost use Rattle.xet_base.specs.declared.merklehash.DataHash.{DataHash};
ghost use Rattle.xet_base.specs.Source.{Source, ReadsBytes, bytes_left};
ghost use Rattle.xet_records.specs.declared.file_structs.view.KeptParts.{KeptParts};
ghost use Rattle.xet_records.specs.View.{as_kept};
ghost use Rattle.xet_shards.specs.StreamingShard.MinimalReading.{ReadsMinimal, ReadsEligible};
ghost use Rattle.xet_shards.specs.StreamingShard.MinimalShard.{MinimalShard, is_start, mark_starts, eligible_in, eligible_hashes, ascending_hashes, minimal_options, WritesMinimalKept, WritesKept};

use xet_records::xorb_structs::MDBXorbInfoView;

/// Some xorbs of a shard, written without files and read again, keep their eligible chunks, also
/// those at which a file of the shard starts.
pub fn subsets_keep_eligible_chunks<F: Fn(&MDBXorbInfoView) -> bool>()
    ensures read { (filter : F) → (m n : MinimalShard) → (now size : ℕ) → (expiry : Option ℕ)
        → (first rest left : Option (List ℕ)) → (bytes : List ℕ)
        → (with_files with_xorbs files_again : Bool)
        → ReadsMinimal Consumes with_files with_xorbs first rest m
        → (subset : WritesKept (FnReturnsAt F.Fn filter) (Some []) (Some bytes) [] m
        (minimal_options now expiry) size)
        → ReadsMinimal Consumes files_again true (Some bytes) left n
        → eligible_hashes n.files n.xorbs
        ≡ ascending_hashes (flat_map (eligible_in (is_start m.files)) subset.kept) }
    ensures source { (filter : F) → (m : MinimalShard) → (now size : ℕ) → (expiry : Option ℕ)
        → (first rest : Option (List ℕ)) → (bytes : List ℕ) → (old new : Source)
        → (hashes : List DataHash) → (with_files with_xorbs : Bool)
        → ReadsMinimal Consumes with_files with_xorbs first rest m
        → (subset : WritesKept (FnReturnsAt F.Fn filter) (Some []) (Some bytes) [] m
        (minimal_options now expiry) size)
        → bytes_left old ≡ bytes → ReadsEligible ReadsBytes old new hashes
        → hashes ≡ ascending_hashes (flat_map (eligible_in (is_start m.files)) subset.kept) }
{}

/// A shard that is read, written, read and written again, with the same parts of files and the same
/// timestamp, gives the same bytes. What is read in between has these parts, and marks at the
/// files' starts.
pub fn minimal_shards_are_written_again()
    ensures read { (with_files with_xorbs : Bool) → (kept : KeptParts) → (m n : MinimalShard)
        → (now size : ℕ) → (first rest left : Option (List ℕ)) → (bytes : List ℕ)
        → ReadsMinimal Consumes with_files with_xorbs first rest m
        → WritesMinimalKept (Some []) (Some bytes) kept now m size
        → ReadsMinimal Consumes true true (Some bytes) left n
        → (n.files ≡ map (as_kept kept) m.files)
        × (n.xorbs ≡ map (mark_starts (is_start m.files)) m.xorbs) }
    ensures bytes { (with_files with_xorbs : Bool) → (kept : KeptParts) → (m n : MinimalShard)
        → (now size size_again : ℕ) → (first rest left : Option (List ℕ)) → (bytes again : List ℕ)
        → ReadsMinimal Consumes with_files with_xorbs first rest m
        → WritesMinimalKept (Some []) (Some bytes) kept now m size
        → ReadsMinimal Consumes true true (Some bytes) left n
        → WritesMinimalKept (Some []) (Some again) kept now n size_again → again ≡ bytes }
{}
