//! The call that C and Rust make.

ghost use Rattle.std.specs.Prelude.{◌≡◌, ◌⊎◌, List, ℕ, IfOk};
ghost use Rattle.bench_calls.specs.declared.operation.Operation.{Operation};
ghost use Rattle.xet_core_structures.specs.declared.merklehash.DataHash.{DataHash};
ghost use Rattle.std.specs.Fn.{iterate};
ghost use Rattle.xet_core_structures.specs.Hash.{hash_bytes};
ghost use Rattle.xet_core_structures.specs.KeyedHash.{hmac};
ghost use Rattle.bench_calls.specs.Answers.{number_of, IsAnswerOf, IsCount, Answers, Delivers};

use crate::answer::{Answer, count_bytes};
use crate::call::Call;
use crate::counts::files_found_in_bytes;
use crate::operation::Operation;
use crate::start::Start;
use shard_bytes::load::load_bytes;
use std::alloc::Global;
use xet_core_structures::error::Result;
use xet_core_structures::merklehash::{HMACKey, MerkleHash};

/// The words of a hash.
#[repr(C)]
#[derive(Clone, Copy, Drop)]
pub struct BenchHash {
    pub words: [u64; 4],
}

/// Does an operation, by its number, `times` times on the bytes of shards, with the files to look
/// up, the chunks to query, or the key and what it hashes. Reading what the operation starts from
/// is done once. `written` is the size of the answer, which is put to the front of `out` if it
/// fits.
///
/// 0 if all went well, else 1: `written` is 0 and `out` stays.
#[unsafe(no_mangle)]
pub extern "C" fn bench_run(
    alloc: Global,
    operation: u32,
    first: &[u8],
    second: &[u8],
    hashes: &[BenchHash],
    times: u64,
    out: &mut [u8],
    written: &mut usize,
) -> u32
    ensures { ((bytes : List ℕ) × (o : Operation) × (key : DataHash)
        × (number_of o ≡ operation) × Answers o times first.now second.now key bytes
        × Delivers bytes out.old out.new written.new × (result ≡ 0))
        ⊎ ((result ≡ 1) × (written.new ≡ 0) × (out.new ≡ out.old)) }
{
    *written = 0;
    let Some(operation) = Operation::of_number(operation) else {
        return 1;
    };
    let Ok(bytes) = run(alloc, operation, first, second, hashes, times) else {
        return 1;
    };
    deliver(bytes.as_slice(), out, written);
    0
}

fn deliver(bytes: &[u8], out: &mut [u8], written: &mut usize)
    ensures { Delivers bytes.now out.old out.new written.new }
{
    *written = bytes.len();
    if bytes.len() <= out.len() {
        out[..bytes.len()].copy_from_slice(bytes);
    }
}

fn run(
    alloc: Global,
    operation: Operation,
    first: &[u8],
    second: &[u8],
    hashes: &[BenchHash],
    times: u64,
) -> Result<Vec<u8>>
    ensures { IfOk result (λ bytes. (key : DataHash)
        × Answers operation times first.now second.now key bytes.items) }
{
    let hashes = hashes_of(alloc, hashes)?;
    let hashes = hashes.as_slice();
    let key = first_hash(hashes);
    // Calls as short as these are repeated in a loop of their own, as a caller's loop would be.
    match operation {
        Operation::Hmac => return key_bytes(alloc, keyed_again(key, key, times)),
        Operation::Load => return load_again(alloc, first, times),
        Operation::FindFilesInBytes => return find_again(alloc, first, hashes, times),
        _ => {}
    }
    let call = Call {
        alloc,
        first,
        second,
        hashes,
        key,
    };
    repeat(&call, operation, times)?.into_bytes(alloc)
}

// Does an operation so often, at least once. Returns what the last time gave.
fn repeat(call: &Call<'_>, operation: Operation, times: u64) -> Result<Answer>
    ensures { IfOk result
        (IsAnswerOf operation call.now.first.now call.now.second.now call.now.key) }
{
    let start = Start::of(call.alloc, operation, call.first, call.second)?;
    for _ in 1..times {
        let _again = call.make(operation, &start)?;
    }
    call.make(operation, &start)
}

// Reads header and footer so often. Returns the number of files that the last time gave, else 0.
fn load_again(alloc: Global, shard: &[u8], times: u64) -> Result<Vec<u8>>
    ensures { IfOk result (λ bytes. IsCount bytes.items) }
{
    let mut files = 0;
    for _ in 0..times {
        files = load_bytes(alloc, shard)?.num_file_entries();
    }
    count_bytes(alloc, files)
}

// Looks up files in the bytes of a shard so often. Returns how many the last time found, else 0.
fn find_again(alloc: Global, shard: &[u8], files: &[MerkleHash], times: u64) -> Result<Vec<u8>>
    ensures { IfOk result (λ bytes. IsCount bytes.items) }
{
    let mut found = 0;
    for _ in 0..times {
        found = files_found_in_bytes(alloc, shard, files)?;
    }
    count_bytes(alloc, found)
}

// The keyed hash of the keyed hash of .. of a hash.
#[tactic(auto, using(crate::proofs::Repeated::applied_to_next))]
fn keyed_again(hash: MerkleHash, key: HMACKey, times: u64) -> MerkleHash
    ensures { result ≡ iterate (hmac key) times hash }
{
    let mut keyed = hash;
    for _ in 0..times {
        keyed = keyed.hmac(key);
    }
    keyed
}

fn key_bytes(alloc: Global, hash: MerkleHash) -> Result<Vec<u8>>
    ensures { IfOk result (λ bytes. bytes.items ≡ hash_bytes hash) }
{
    let mut bytes = Vec::new(alloc);
    bytes.extend_from_slice(&hash.as_bytes())?;
    Ok(bytes)
}

fn first_hash(hashes: &[MerkleHash]) -> MerkleHash {
    match hashes.first() {
        Some(hash) => *hash,
        None => MerkleHash::default(),
    }
}

fn hashes_of(alloc: Global, words: &[BenchHash]) -> Result<Vec<MerkleHash>> {
    let mut hashes = Vec::new(alloc);
    for hash in words {
        hashes.push(MerkleHash::from(hash.words))?;
    }
    Ok(hashes)
}
