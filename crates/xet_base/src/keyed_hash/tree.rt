//! BLAKE3's keyed mode for bytes of any length: a binary tree over chunks of 1024 bytes.

ghost use Rattle.std.specs.Prelude.{◌≡◌, ◌+◌, ◌*◌, ◌/◌, ◌%◌, ◌^◌, ◌<◌, ◌≤◌, ◌++◌, length, flat_map, slice_index};
ghost use Rattle.xet_base.specs.Bytes.{u32_bytes};
ghost use Rattle.xet_base.specs.KeyedHash.{word_at};
ghost use Rattle.xet_base.specs.Blake3.{block_state, xor_halves, chaining_value, block_at, block_flags, chunk_words, parent_words, tree_words, blake3_bytes};
ghost use Rattle.xet_base.specs.Steps.Lanes.{words_in};

use super::four::chunks::four_chunks;
use super::{
    CHUNK_END, CHUNK_START, Eight, KEYED, PARENT, ROOT, Rows, Words, compress, words_in, words_of,
};
use crate::fields::put_u32;
use std::simd::u32x4;

// The bytes of a chunk, and of a block of it.
const CHUNK_LEN: usize = 1024;

pub(super) const BLOCK_LEN: usize = 64;

const FOUR_CHUNKS_LEN: usize = 4 * CHUNK_LEN;

// The number of values of a word of 32 bits.
const WORD_VALUES: u64 = 4294967296;

/// The keyed hash of the bytes. Allocates nothing.
#[tactic(auto, unfolding(crate::specs::Blake3::blake3_bytes))]
pub(crate) fn blake3_bytes(key: &[u8; 32], bytes: &[u8]) -> [u8; 32]
    ensures { result ≡ blake3_bytes key.now bytes.now }
{
    let level = level_for(bytes.len());
    words_as_bytes(&tree_words(&words_of(key), level, 0, ROOT, bytes))
}

// A level whose tree has room for so many bytes: 2 ^ level chunks.
fn level_for(len: usize) -> u32
    ensures level { result ≤ 54 }
    ensures room { len ≤ 1024 * 2 ^ result }
{
    let mut level = 0u32;
    while level < 54 && CHUNK_LEN * chunks_below(level) < len {
        level += 1;
    }
    level
}

// The chaining value of the tree over at most 2 ^ level chunks, the first of which is chunk t. Four
// whole chunks are hashed side by side.
fn tree_words(key: &Eight, level: u32, t: u64, top: u32, bytes: &[u8]) -> Eight
    requires level { level ≤ 54 }
    requires room { length bytes.now ≤ 1024 * 2 ^ level }
    requires counter { 1024 * t + length bytes.now ≤ 2 ^ 64 }
    requires top { top ≤ 8 }
    ensures { result ≡ tree_words key.now level t top bytes.now }
{
    if level == 0 {
        return chunk_words(key, t, top, bytes);
    }
    if level == 2 && bytes.len() == FOUR_CHUNKS_LEN {
        return four_words(key, t, top, bytes);
    }
    let below = level - 1;
    let half = chunks_below(below);
    let size = CHUNK_LEN * half;
    if bytes.len() <= size {
        return tree_words(key, below, t, top, bytes);
    }
    let (front, rest) = bytes.split_at(size);
    let left = tree_words(key, below, t, 0, front);
    let right = tree_words(key, below, t + half as u64, 0, rest);
    parent_words(key, top, &left, &right)
}

// How many chunks a tree of this level has room for.
#[inline(always)]
fn chunks_below(level: u32) -> usize
    requires { level < 54 }
    ensures is { result ≡ 2 ^ level }
    ensures fits { result ≤ 2 ^ 53 }
{
    1usize << level
}

// The chaining value of the tree over four whole chunks.
fn four_words(key: &Eight, t: u64, top: u32, bytes: &[u8]) -> Eight
    requires len { length bytes.now ≡ 4096 }
    requires counter { t + 4 ≤ 2 ^ 64 }
    requires top { top ≤ 8 }
    ensures { result ≡ tree_words key.now 2 t top bytes.now }
{
    let (front, back) = bytes.split_at(2 * CHUNK_LEN);
    let (a, b) = front.split_at(CHUNK_LEN);
    let (c, d) = back.split_at(CHUNK_LEN);
    let words = four_chunks(key, t, a, b, c, d);
    let left = parent_words(key, 0, &words[0], &words[1]);
    let right = parent_words(key, 0, &words[2], &words[3]);
    parent_words(key, top, &left, &right)
}

// The chaining value of chunk t.
#[tactic(auto, unfolding(crate::specs::Blake3::chunk_words))]
fn chunk_words(key: &Eight, t: u64, top: u32, bytes: &[u8]) -> Eight
    requires len { length bytes.now ≤ 1024 }
    requires top { top ≤ 8 }
    ensures { result ≡ chunk_words key.now t top bytes.now }
{
    let whole = bytes.len().saturating_sub(1) / BLOCK_LEN;
    let mut words = *key;
    for n in 0..whole {
        words = chaining_value(
            &words,
            block_at(bytes, n),
            t,
            BLOCK_LEN as u32,
            block_flags(n),
        );
    }
    let last_len = (bytes.len() - BLOCK_LEN * whole) as u32;
    chaining_value(
        &words,
        block_at(bytes, whole),
        t,
        last_len,
        block_flags(whole) + CHUNK_END + top,
    )
}

// The chaining value of a node, from those of its two subtrees.
#[tactic(auto, unfolding(crate::specs::Blake3::parent_words))]
fn parent_words(key: &Eight, top: u32, left: &Eight, right: &Eight) -> Eight
    requires { top ≤ 8 }
    ensures { result ≡ parent_words key.now top left.now right.now }
{
    chaining_value(
        key,
        concat(left, right),
        0,
        BLOCK_LEN as u32,
        KEYED + PARENT + top,
    )
}

#[inline(always)]
fn concat(left: &Eight, right: &Eight) -> Words
    ensures { result ≡ left.now ++ right.now }
{
    [
        left[0], left[1], left[2], left[3], left[4], left[5], left[6], left[7], right[0], right[1],
        right[2], right[3], right[4], right[5], right[6], right[7],
    ]
}

#[inline(always)]
pub(super) fn block_flags(n: usize) -> u32
    ensures is { result ≡ block_flags n }
    ensures fits { result ≤ 17 }
{
    if n == 0 { KEYED + CHUNK_START } else { KEYED }
}

// The chaining value after a block.
#[tactic(auto, unfolding(crate::specs::Blake3::chaining_value))]
fn chaining_value(before: &Eight, block: Words, counter: u64, len: u32, flags: u32) -> Eight
    ensures { result ≡ chaining_value before.now block counter len flags }
{
    xor_halves(&words_in(compress(block_state(before, counter, len, flags), block)))
}

#[inline(always)]
fn block_state(before: &Eight, counter: u64, len: u32, flags: u32) -> Rows
    ensures { words_in result ≡ block_state before.now counter len flags }
{
    (
        u32x4::from_array([before[0], before[1], before[2], before[3]]),
        u32x4::from_array([before[4], before[5], before[6], before[7]]),
        u32x4::from_array([0x6A09E667, 0xBB67AE85, 0x3C6EF372, 0xA54FF53A]),
        u32x4::from_array([low_word(counter), high_word(counter), len, flags]),
    )
}

#[inline(always)]
pub(super) fn low_word(counter: u64) -> u32
    ensures { result ≡ counter % 2 ^ 32 }
{
    (counter % WORD_VALUES) as u32
}

#[inline(always)]
pub(super) fn high_word(counter: u64) -> u32
    ensures { result ≡ counter / 2 ^ 32 }
{
    (counter / WORD_VALUES) as u32
}

#[inline(always)]
#[tactic(auto, unfolding(crate::specs::Blake3::xor_halves))]
fn xor_halves(v: &Words) -> Eight
    ensures { result ≡ xor_halves v.now }
{
    [
        v[0] ^ v[8],
        v[1] ^ v[9],
        v[2] ^ v[10],
        v[3] ^ v[11],
        v[4] ^ v[12],
        v[5] ^ v[13],
        v[6] ^ v[14],
        v[7] ^ v[15],
    ]
}

// Block n, with zeros after the last byte.
#[inline(always)]
fn block_at(bytes: &[u8], n: usize) -> Words
    requires { n ≤ 16 }
    ensures { result ≡ block_at bytes.now n }
{
    if BLOCK_LEN * n + BLOCK_LEN <= bytes.len() {
        whole_block(bytes, n)
    } else {
        last_block(bytes, n)
    }
}

#[inline(always)]
#[tactic(auto, unfolding(crate::specs::Blake3::block_at))]
pub(super) fn whole_block(bytes: &[u8], n: usize) -> Words
    requires { 64 * n + 64 ≤ length bytes.now }
    ensures { result ≡ block_at bytes.now n }
{
    let at = 16 * n;
    [
        word(bytes, at),
        word(bytes, at + 1),
        word(bytes, at + 2),
        word(bytes, at + 3),
        word(bytes, at + 4),
        word(bytes, at + 5),
        word(bytes, at + 6),
        word(bytes, at + 7),
        word(bytes, at + 8),
        word(bytes, at + 9),
        word(bytes, at + 10),
        word(bytes, at + 11),
        word(bytes, at + 12),
        word(bytes, at + 13),
        word(bytes, at + 14),
        word(bytes, at + 15),
    ]
}

#[tactic(auto, unfolding(crate::specs::Blake3::block_at))]
fn last_block(bytes: &[u8], n: usize) -> Words
    requires { n ≤ 16 }
    ensures { result ≡ block_at bytes.now n }
{
    let at = 16 * n;
    [
        last_word(bytes, at),
        last_word(bytes, at + 1),
        last_word(bytes, at + 2),
        last_word(bytes, at + 3),
        last_word(bytes, at + 4),
        last_word(bytes, at + 5),
        last_word(bytes, at + 6),
        last_word(bytes, at + 7),
        last_word(bytes, at + 8),
        last_word(bytes, at + 9),
        last_word(bytes, at + 10),
        last_word(bytes, at + 11),
        last_word(bytes, at + 12),
        last_word(bytes, at + 13),
        last_word(bytes, at + 14),
        last_word(bytes, at + 15),
    ]
}

// Word i, whose four bytes are all there.
#[inline(always)]
#[tactic(auto, unfolding(crate::specs::KeyedHash::word_at))]
fn word(bytes: &[u8], i: usize) -> u32
    requires { 4 * i + 4 ≤ length bytes.now }
    ensures { result ≡ word_at bytes.now i }
{
    u32::from_le_bytes([
        bytes[4 * i],
        bytes[4 * i + 1],
        bytes[4 * i + 2],
        bytes[4 * i + 3],
    ])
}

// Word i, with zeros after the last byte.
#[tactic(auto, unfolding(crate::specs::KeyedHash::word_at))]
fn last_word(bytes: &[u8], i: usize) -> u32
    requires { i < 272 }
    ensures { result ≡ word_at bytes.now i }
{
    u32::from_le_bytes([
        byte_at(bytes, 4 * i),
        byte_at(bytes, 4 * i + 1),
        byte_at(bytes, 4 * i + 2),
        byte_at(bytes, 4 * i + 3),
    ])
}

fn byte_at(bytes: &[u8], i: usize) -> u8
    ensures { result ≡ slice_index bytes.now i }
{
    if i < bytes.len() { bytes[i] } else { 0 }
}

// The bytes of eight words, lowest byte first.
#[inline(always)]
fn words_as_bytes(w: &Eight) -> [u8; 32]
    ensures { result ≡ flat_map u32_bytes w.now }
{
    let mut bytes = [0u8; 32];
    let at = put_u32(&mut bytes, 0, w[0]);
    let at = put_u32(&mut bytes, at, w[1]);
    let at = put_u32(&mut bytes, at, w[2]);
    let at = put_u32(&mut bytes, at, w[3]);
    let at = put_u32(&mut bytes, at, w[4]);
    let at = put_u32(&mut bytes, at, w[5]);
    let at = put_u32(&mut bytes, at, w[6]);
    put_u32(&mut bytes, at, w[7]);
    bytes
}
