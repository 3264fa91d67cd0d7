//! Hashes as text, and the names of shard files.

ghost use Rattle.std.specs.Prelude.{◌≡◌, MatchResult, MatchOption, IsOkAnd, IsErrAnd, string_bytes};
ghost use Rattle.std.specs.Str.{IsAscii};
ghost use Rattle.xet_core_structures.specs.declared.error.CoreError.{CoreError};
ghost use Rattle.xet_core_structures.specs.Hex.{hash_hex, IsHexText, Spells};
ghost use Rattle.xet_core_structures.specs.Names.{shard_name, IsShardName, NamesShard};
ghost use Rattle.xet_c.specs.Output.{Outcome};
ghost use Rattle.xet_c.specs.Text.{Reads, WritesTextOf};

use crate::hash::{XetHash, of_hash};
use crate::output::{XET_BAD_FILENAME, XET_HASH_PARSING, deliver, error_number};
use std::alloc::Global;
use xet_core_structures::error::{CoreError, Result};
use xet_core_structures::merklehash::MerkleHash;
use xet_core_structures::utils::{parse_shard_filename, shard_file_name};

/// Puts the 64 digits of a hash to the front of `out`.
#[unsafe(no_mangle)]
pub extern "C" fn xet_hash_to_hex(
    alloc: Global,
    hash: &XetHash,
    out: &mut [u8],
    written: &mut usize,
) -> u32
    ensures { Outcome (WritesTextOf hash_hex hash.now) (λ e. e ≡ CoreError.OutOfMemory) out.old
        out.new written.new result }
{
    let text = MerkleHash::from(hash.words).hex(alloc);
    deliver(text_bytes(text), out, written)
}

/// Reads 64 hexadecimal digits, of either case. `HashParsing` for any other text, and `hash` stays.
#[unsafe(no_mangle)]
pub extern "C" fn xet_hash_from_hex(text: &[u8], hash: &mut XetHash) -> u32
    ensures { Reads Spells IsHexText text.now 16 hash.old hash.new result }
{
    match hash_of_text(text) {
        Some(read) => {
            *hash = of_hash(&read);
            0
        }
        None => XET_HASH_PARSING,
    }
}

/// Puts the name of a shard's file, the 64 digits of this hash and `.mdb`, to the front of `out`.
#[unsafe(no_mangle)]
pub extern "C" fn xet_shard_name(
    alloc: Global,
    hash: &XetHash,
    out: &mut [u8],
    written: &mut usize,
) -> u32
    ensures { Outcome (WritesTextOf shard_name hash.now) (λ e. e ≡ CoreError.OutOfMemory) out.old
        out.new written.new result }
{
    let name = shard_file_name(alloc, &MerkleHash::from(hash.words));
    deliver(text_bytes(name), out, written)
}

/// Reads the hash of such a name, with digits of either case. `BadFilename` for any other text,
/// such as a path, and `hash` stays.
#[unsafe(no_mangle)]
pub extern "C" fn xet_parse_shard_name(name: &[u8], hash: &mut XetHash) -> u32
    ensures { Reads NamesShard IsShardName name.now 6 hash.old hash.new result }
{
    match hash_of_name(name) {
        Some(read) => {
            *hash = of_hash(&read);
            0
        }
        None => XET_BAD_FILENAME,
    }
}

fn text_bytes(text: Result<String>) -> Result<Vec<u8>>
    ensures { MatchResult text
        (λ text. IsOkAnd result (λ bytes. bytes.items ≡ string_bytes text))
        (λ e. IsErrAnd result (λ f. f ≡ e)) }
{
    Ok(text?.into_bytes())
}

fn hash_of_text(bytes: &[u8]) -> Option<MerkleHash>
    ensures { MatchOption result (¬ IsHexText bytes.now) (Spells bytes.now) }
{
    let Some(text) = text_of(bytes) else {
        return None;
    };
    MerkleHash::from_hex(text).ok()
}

fn hash_of_name(bytes: &[u8]) -> Option<MerkleHash>
    ensures { MatchOption result (¬ IsShardName bytes.now) (NamesShard bytes.now) }
{
    let Some(name) = text_of(bytes) else {
        return None;
    };
    parse_shard_filename(name)
}

fn text_of(bytes: &[u8]) -> Option<&str>
    ensures { MatchOption result (¬ IsAscii bytes.now) (λ text. text.now ≡ bytes.now) }
{
    match str::from_utf8(bytes) {
        Ok(text) => Some(text),
        Err(_) => None,
    }
}
