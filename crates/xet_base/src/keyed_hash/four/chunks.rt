//! Four chunks of BLAKE3 at once: one lane of a vector for each.

ghost use Rattle.std.specs.Prelude.{◌≡◌, ℕ, ◌+◌, ◌*◌, ◌^◌, ◌<◌, ◌≤◌, [], ◌∷◌, length, bit_xor, slice_index, slice_index_or};
ghost use Rattle.xet_base.specs.Blake3.{block_state, xor_halves, chaining_value, block_at, after_blocks, chunk_words};
ghost use Rattle.xet_base.specs.Steps.Lanes.{lane, lane_of_eight};

use super::super::tree::{BLOCK_LEN, block_flags, high_word, low_word, whole_block};
use super::super::{CHUNK_END, Eight};
use super::{Lanes, compress, word};
use std::simd::u32x4;

// A chaining value in each of four lanes.
type EightLanes = [u32x4; 8];

/// The chaining values of four whole chunks, the first of which is chunk t.
pub(crate) fn four_chunks(key: &Eight, t: u64, a: &[u8], b: &[u8], c: &[u8], d: &[u8]) -> [Eight; 4]
    requires a { length a.now ≡ 1024 }
    requires b { length b.now ≡ 1024 }
    requires c { length c.now ≡ 1024 }
    requires d { length d.now ≡ 1024 }
    requires counter { t + 4 ≤ 2 ^ 64 }
    ensures { result ≡ chunk_words key.now t 0 a.now ∷ chunk_words key.now (t + 1) 0 b.now
        ∷ chunk_words key.now (t + 2) 0 c.now ∷ chunk_words key.now (t + 3) 0 d.now ∷ [] }
{
    let mut words = in_each_lane(key);
    for n in 0..15 {
        words = chaining_value(&words, &blocks_at(a, b, c, d, n), t, block_flags(n));
    }
    let last = chaining_value(
        &words,
        &blocks_at(a, b, c, d, 15),
        t,
        block_flags(15) + CHUNK_END,
    );
    [
        lane_of_eight(&last, 0),
        lane_of_eight(&last, 1),
        lane_of_eight(&last, 2),
        lane_of_eight(&last, 3),
    ]
}

// A key in each lane.
#[inline(always)]
fn in_each_lane(key: &Eight) -> EightLanes
    ensures { (j : ℕ) → j < 4 → lane_of_eight j result ≡ key.now }
{
    [
        u32x4::splat(key[0]),
        u32x4::splat(key[1]),
        u32x4::splat(key[2]),
        u32x4::splat(key[3]),
        u32x4::splat(key[4]),
        u32x4::splat(key[5]),
        u32x4::splat(key[6]),
        u32x4::splat(key[7]),
    ]
}

// The chaining value of each lane after a block.
#[tactic(auto, unfolding(crate::specs::Blake3::chaining_value))]
fn chaining_value(before: &EightLanes, blocks: &Lanes, t: u64, flags: u32) -> EightLanes
    requires { t + 4 ≤ 2 ^ 64 }
    ensures { (j : ℕ) → j < 4
        → lane_of_eight j result
        ≡ chaining_value (lane_of_eight j before.now) (lane j blocks.now) (t + j) 64 flags }
{
    xor_halves(&compress(block_states(before, t, flags), blocks))
}

#[inline(always)]
fn block_states(before: &EightLanes, t: u64, flags: u32) -> Lanes
    requires { t + 4 ≤ 2 ^ 64 }
    ensures { (j : ℕ) → j < 4
        → lane j result ≡ block_state (lane_of_eight j before.now) (t + j) 64 flags }
{
    [
        before[0],
        before[1],
        before[2],
        before[3],
        before[4],
        before[5],
        before[6],
        before[7],
        u32x4::splat(0x6A09E667),
        u32x4::splat(0xBB67AE85),
        u32x4::splat(0x3C6EF372),
        u32x4::splat(0xA54FF53A),
        u32x4::from_array([
            low_word(t),
            low_word(t + 1),
            low_word(t + 2),
            low_word(t + 3),
        ]),
        u32x4::from_array([
            high_word(t),
            high_word(t + 1),
            high_word(t + 2),
            high_word(t + 3),
        ]),
        u32x4::splat(BLOCK_LEN as u32),
        u32x4::splat(flags),
    ]
}

// Block n of each chunk.
#[inline(always)]
fn blocks_at(a: &[u8], b: &[u8], c: &[u8], d: &[u8], n: usize) -> Lanes
    requires a { 64 * n + 64 ≤ length a.now }
    requires b { 64 * n + 64 ≤ length b.now }
    requires c { 64 * n + 64 ≤ length c.now }
    requires d { 64 * n + 64 ≤ length d.now }
    ensures { (j : ℕ) → j < 4
        → lane j result ≡ block_at (slice_index_or (a.now ∷ b.now ∷ c.now ∷ d.now ∷ []) j []) n }
{
    let a = whole_block(a, n);
    let b = whole_block(b, n);
    let c = whole_block(c, n);
    let d = whole_block(d, n);
    [
        u32x4::from_array([a[0], b[0], c[0], d[0]]),
        u32x4::from_array([a[1], b[1], c[1], d[1]]),
        u32x4::from_array([a[2], b[2], c[2], d[2]]),
        u32x4::from_array([a[3], b[3], c[3], d[3]]),
        u32x4::from_array([a[4], b[4], c[4], d[4]]),
        u32x4::from_array([a[5], b[5], c[5], d[5]]),
        u32x4::from_array([a[6], b[6], c[6], d[6]]),
        u32x4::from_array([a[7], b[7], c[7], d[7]]),
        u32x4::from_array([a[8], b[8], c[8], d[8]]),
        u32x4::from_array([a[9], b[9], c[9], d[9]]),
        u32x4::from_array([a[10], b[10], c[10], d[10]]),
        u32x4::from_array([a[11], b[11], c[11], d[11]]),
        u32x4::from_array([a[12], b[12], c[12], d[12]]),
        u32x4::from_array([a[13], b[13], c[13], d[13]]),
        u32x4::from_array([a[14], b[14], c[14], d[14]]),
        u32x4::from_array([a[15], b[15], c[15], d[15]]),
    ]
}

#[inline(always)]
#[tactic(auto, unfolding(crate::specs::Blake3::xor_halves))]
fn xor_halves(v: &Lanes) -> EightLanes
    ensures { (j : ℕ) → j < 4 → lane_of_eight j result ≡ xor_halves (lane j v.now) }
{
    [
        xor(v[0], v[8]),
        xor(v[1], v[9]),
        xor(v[2], v[10]),
        xor(v[3], v[11]),
        xor(v[4], v[12]),
        xor(v[5], v[13]),
        xor(v[6], v[14]),
        xor(v[7], v[15]),
    ]
}

#[inline(always)]
fn xor(a: u32x4, b: u32x4) -> u32x4
    ensures { (j : ℕ) → j < 4 → slice_index result j ≡ bit_xor (slice_index a j) (slice_index b j) }
{
    a ^ b
}

// The chaining value in one lane.
#[inline(always)]
fn lane_of_eight(words: &EightLanes, j: usize) -> Eight
    requires { j < 4 }
    ensures { result ≡ lane_of_eight j words.now }
{
    [
        word(words[0], j),
        word(words[1], j),
        word(words[2], j),
        word(words[3], j),
        word(words[4], j),
        word(words[5], j),
        word(words[6], j),
        word(words[7], j),
    ]
}
