//! Rows of bytes, put together from parts and taken apart again.

ghost use Rattle.std.specs.Prelude.{◌≡◌, ◌+◌, ◌*◌, ◌≤◌, ◌++◌, length, take, drop, flat_map};
ghost use Rattle.xet_base.specs.Bytes.{u32_bytes, u64_bytes, AreBytes};
ghost use Rattle.xet_base.specs.Hash.{hash_bytes};

use crate::merklehash::MerkleHash;

/// Writes `bytes` into `row` at `at`, and returns the offset after them.
#[inline(always)]
pub fn put(row: &mut [u8], at: usize, bytes: &[u8]) -> usize
    requires { at + length bytes.now ≤ length row.old }
    ensures end { result ≡ at + length bytes.now }
    ensures front { take result row.new ≡ take at row.old ++ bytes.now }
    ensures rest { drop result row.new ≡ drop result row.old }
{
    let end = at + bytes.len();
    row[at..end].copy_from_slice(bytes);
    end
}

/// Writes the 32 bytes of `hash` into `row` at `at`, and returns the offset after them.
#[inline(always)]
pub fn put_hash(row: &mut [u8], at: usize, hash: &MerkleHash) -> usize
    requires { at + 32 ≤ length row.old }
    ensures end { result ≡ at + 32 }
    ensures front { take result row.new ≡ take at row.old ++ hash_bytes hash.now }
    ensures rest { drop result row.new ≡ drop result row.old }
{
    put(row, at, &hash.as_bytes())
}

/// Writes four bytes of `value` into `row` at `at`, lowest first, and returns the offset after
/// them.
#[tactic(auto, unfolding(crate::specs::Bytes::u32_bytes))]
#[inline(always)]
pub fn put_u32(row: &mut [u8], at: usize, value: u32) -> usize
    requires { at + 4 ≤ length row.old }
    ensures end { result ≡ at + 4 }
    ensures front { take result row.new ≡ take at row.old ++ u32_bytes value }
    ensures rest { drop result row.new ≡ drop result row.old }
{
    put(row, at, &value.to_le_bytes())
}

/// Writes eight bytes of `value` into `row` at `at`, lowest first, and returns the offset after
/// them.
#[tactic(auto, unfolding(crate::specs::Bytes::u64_bytes))]
#[inline(always)]
pub fn put_u64(row: &mut [u8], at: usize, value: u64) -> usize
    requires { at + 8 ≤ length row.old }
    ensures end { result ≡ at + 8 }
    ensures front { take result row.new ≡ take at row.old ++ u64_bytes value }
    ensures rest { drop result row.new ≡ drop result row.old }
{
    put(row, at, &value.to_le_bytes())
}

/// The hash at the front of `bytes`, and what follows it.
#[tactic(auto, unfolding(crate::specs::Hash::hash_bytes))]
#[inline(always)]
pub fn split_hash(bytes: &[u8]) -> (MerkleHash, &[u8])
    requires { 32 ≤ length bytes.now }
    ensures bytes { bytes.now ≡ hash_bytes result.0 ++ result.1.now }
    ensures len { length result.1.now + 32 ≡ length bytes.now }
{
    let (word0, rest) = split_u64(bytes);
    let (word1, rest) = split_u64(rest);
    let (word2, rest) = split_u64(rest);
    let (word3, rest) = split_u64(rest);
    (MerkleHash::from([word0, word1, word2, word3]), rest)
}

/// The number in the first four bytes, lowest byte first, and what follows them.
#[inline(always)]
pub fn split_u32(bytes: &[u8]) -> (u32, &[u8])
    requires { 4 ≤ length bytes.now }
    ensures bytes { bytes.now ≡ u32_bytes result.0 ++ result.1.now }
    ensures len { length result.1.now + 4 ≡ length bytes.now }
{
    let (front, rest) = bytes.split_at(4);
    (u32_of([front[0], front[1], front[2], front[3]]), rest)
}

/// The number in the first eight bytes, lowest byte first, and what follows them.
#[inline(always)]
pub fn split_u64(bytes: &[u8]) -> (u64, &[u8])
    requires { 8 ≤ length bytes.now }
    ensures bytes { bytes.now ≡ u64_bytes result.0 ++ result.1.now }
    ensures len { length result.1.now + 8 ≡ length bytes.now }
{
    let (front, rest) = bytes.split_at(8);
    let number = u64_of([
        front[0], front[1], front[2], front[3], front[4], front[5], front[6], front[7],
    ]);
    (number, rest)
}

/// Fills `values` with the numbers at the front of `bytes`, eight bytes each, lowest byte first,
/// and returns what follows them.
pub fn split_u64s<'a>(bytes: &'a [u8], values: &mut [u64]) -> &'a [u8]
    requires { 8 * length values.old ≤ length bytes.now }
    ensures bytes { bytes.now ≡ flat_map u64_bytes values.new ++ result.now }
    ensures len { length result.now + 8 * length values.old ≡ length bytes.now }
{
    let mut rest = bytes;
    for value in values.iter_mut() {
        let (number, after) = split_u64(rest);
        *value = number;
        rest = after;
    }
    rest
}

#[tactic(auto, unfolding(crate::specs::Bytes::u32_bytes))]
#[inline(always)]
fn u32_of(bytes: [u8; 4]) -> u32
    ensures { u32_bytes result ≡ bytes }
{
    u32::from_le_bytes(bytes)
}

#[tactic(auto, unfolding(crate::specs::Bytes::u64_bytes))]
#[inline(always)]
fn u64_of(bytes: [u8; 8]) -> u64
    ensures { u64_bytes result ≡ bytes }
{
    u64::from_le_bytes(bytes)
}

/// Does nothing. It says that each element of a slice of bytes is below 256.
pub fn all_bytes(bytes: &[u8])
    ensures { AreBytes bytes.now }
{}
