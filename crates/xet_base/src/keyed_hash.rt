//! The keyed hash, BLAKE3's keyed mode: here for one block of 32 bytes, in `tree` for any bytes.

ghost use Rattle.std.specs.Prelude.{◌≡◌, ℕ, ◌+◌, ◌*◌, ◌<◌, ◌≤◌, [], ◌∷◌, length, slice_index};
ghost use Rattle.xet_base.specs.KeyedHash.{add32, xor_rotate, mix, mix_columns, mix_diagonals, next_message, state_after, message_after, word_at, words_before, initial_state, message_of, digest, keyed_bytes};
ghost use Rattle.xet_base.specs.Steps.Lanes.{words_in};

mod four;
mod tree;

use crate::fields::put_u32;
pub(crate) use four::keyed_bytes_four;
use std::simd::u32x4;
pub(crate) use tree::blake3_bytes;

// The state or the message.
type Words = [u32; 16];

// A key, or a chaining value.
type Eight = [u32; 8];

// The state as four rows of four words. A step on rows is one on each column.
type Rows = (u32x4, u32x4, u32x4, u32x4);

// The flags of a block, which are added up.
const CHUNK_START: u32 = 1;

const CHUNK_END: u32 = 2;

const PARENT: u32 = 4;

const ROOT: u32 = 8;

const KEYED: u32 = 16;

// The flags of a block that is all there is to hash.
const ONE_BLOCK: u32 = CHUNK_START + CHUNK_END + ROOT + KEYED;

/// The keyed hash of 32 bytes.
#[tactic(auto, unfolding(crate::specs::KeyedHash::keyed_bytes))]
pub(crate) fn keyed_bytes(key: &[u8; 32], message: &[u8; 32]) -> [u8; 32]
    ensures { result ≡ keyed_bytes key.now message.now }
{
    digest(&words_in(compress(initial_state(key), message_of(message))))
}

// The state that begins with a key: four words of the function, a counter of 0, the length of the
// block, and flags.
#[inline(always)]
fn initial_state(key: &[u8; 32]) -> Rows
    ensures { words_in result ≡ initial_state key.now }
{
    let k = words_of(key);
    (
        u32x4::from_array([k[0], k[1], k[2], k[3]]),
        u32x4::from_array([k[4], k[5], k[6], k[7]]),
        u32x4::from_array([0x6A09E667, 0xBB67AE85, 0x3C6EF372, 0xA54FF53A]),
        u32x4::from_array([0, 0, 32, ONE_BLOCK]),
    )
}

// The message, and zeros after it.
#[inline(always)]
fn message_of(message: &[u8; 32]) -> Words
    ensures { result ≡ message_of message.now }
{
    let m = words_of(message);
    [
        m[0], m[1], m[2], m[3], m[4], m[5], m[6], m[7], 0, 0, 0, 0, 0, 0, 0, 0,
    ]
}

#[inline(always)]
fn words_of(bytes: &[u8; 32]) -> [u32; 8]
    ensures { result ≡ words_before bytes.now [] }
{
    [
        word_at(bytes, 0),
        word_at(bytes, 1),
        word_at(bytes, 2),
        word_at(bytes, 3),
        word_at(bytes, 4),
        word_at(bytes, 5),
        word_at(bytes, 6),
        word_at(bytes, 7),
    ]
}

// Seven rounds, written out: so each word of the message is read where it is, and adding the zeros
// among them costs nothing.
#[inline(always)]
#[tactic(auto, unfolding(crate::specs::KeyedHash::state_after, crate::specs::KeyedHash::message_after))]
fn compress(start: Rows, message: Words) -> Rows
    ensures { words_in result ≡ state_after 7 (words_in start) message }
{
    let (state, words) = round(start, message);
    let (state, words) = round(state, words);
    let (state, words) = round(state, words);
    let (state, words) = round(state, words);
    let (state, words) = round(state, words);
    let (state, words) = round(state, words);
    let (state, _words) = round(state, words);
    state
}

// The state after a round, and the message for the next one.
#[inline(always)]
fn round(state: Rows, words: Words) -> (Rows, Words)
    ensures state { words_in result.0
        ≡ mix_diagonals (mix_columns (words_in state) words) words }
    ensures words { result.1 ≡ next_message words }
{
    let state = mix_columns(state, &words);
    let state = mix_diagonals(state, &words);
    (state, permute(&words))
}

#[inline(always)]
fn mix_columns(state: Rows, m: &Words) -> Rows
    ensures { words_in result ≡ mix_columns (words_in state) m.now }
{
    let (a, b, c, d) = state;
    let x = u32x4::from_array([m[0], m[2], m[4], m[6]]);
    let y = u32x4::from_array([m[1], m[3], m[5], m[7]]);
    mix(a, b, c, d, x, y)
}

// The diagonals are the columns once three rows are turned.
#[inline(always)]
fn mix_diagonals(state: Rows, m: &Words) -> Rows
    ensures { words_in result ≡ mix_diagonals (words_in state) m.now }
{
    let (a, b, c, d) = state;
    let x = u32x4::from_array([m[8], m[10], m[12], m[14]]);
    let y = u32x4::from_array([m[9], m[11], m[13], m[15]]);
    let b_diagonal = rotate_lanes(b);
    let c_diagonal = turned_twice(c);
    let d_diagonal = turned_back(d);
    let (a, b, c, d) = mix(a, b_diagonal, c_diagonal, d_diagonal, x, y);
    let b_row = turned_back(b);
    let c_row = turned_twice(c);
    let d_row = rotate_lanes(d);
    (a, b_row, c_row, d_row)
}

// Four words of the state mixed with two of the message, for each lane.
#[inline(always)]
fn mix(a: u32x4, b: u32x4, c: u32x4, d: u32x4, x: u32x4, y: u32x4) -> Rows
    ensures { (j : ℕ) → j < 4
        → (slice_index result.0 j, slice_index result.1 j, slice_index result.2 j, slice_index result.3 j)
        ≡ mix (slice_index a j) (slice_index b j) (slice_index c j) (slice_index d j) (slice_index x j) (slice_index y j) }
{
    let ab = add(a, b);
    let a1 = add(ab, x);
    let d1 = xor_rotate(d, a1, 16);
    let c1 = add(c, d1);
    let b1 = xor_rotate(b, c1, 12);
    let ab1 = add(a1, b1);
    let a2 = add(ab1, y);
    let d2 = xor_rotate(d1, a2, 8);
    let c2 = add(c1, d2);
    let b2 = xor_rotate(b1, c2, 7);
    (a2, b2, c2, d2)
}

#[inline(always)]
fn add(a: u32x4, b: u32x4) -> u32x4
    ensures { (j : ℕ) → j < 4 → slice_index result j ≡ add32 (slice_index a j) (slice_index b j) }
{
    a + b
}

#[inline(always)]
fn xor_rotate(a: u32x4, b: u32x4, k: u32) -> u32x4
    requires low { 0 < k }
    requires high { k < 32 }
    ensures { (j : ℕ) → j < 4
        → slice_index result j ≡ xor_rotate (slice_index a j) (slice_index b j) k }
{
    let x = a ^ b;
    (x >> u32x4::splat(k)) | (x << u32x4::splat(32 - k))
}

// The lanes, each one place to the left.
#[inline(always)]
fn rotate_lanes(v: u32x4) -> u32x4
    ensures { result ≡ slice_index v 1 ∷ slice_index v 2 ∷ slice_index v 3 ∷ slice_index v 0 ∷ [] }
{
    let [v0, v1, v2, v3] = v.to_array();
    u32x4::from_array([v1, v2, v3, v0])
}

#[inline(always)]
fn turned_twice(v: u32x4) -> u32x4
    ensures { result ≡ slice_index v 2 ∷ slice_index v 3 ∷ slice_index v 0 ∷ slice_index v 1 ∷ [] }
{
    let [v0, v1, v2, v3] = v.to_array();
    u32x4::from_array([v2, v3, v0, v1])
}

#[inline(always)]
fn turned_back(v: u32x4) -> u32x4
    ensures { result ≡ slice_index v 3 ∷ slice_index v 0 ∷ slice_index v 1 ∷ slice_index v 2 ∷ [] }
{
    let [v0, v1, v2, v3] = v.to_array();
    u32x4::from_array([v3, v0, v1, v2])
}

// The words of a state.
#[inline(always)]
fn words_in(state: Rows) -> Words
    ensures { result ≡ words_in state }
{
    let (a, b, c, d) = state;
    let [a0, a1, a2, a3] = a.to_array();
    let [b0, b1, b2, b3] = b.to_array();
    let [c0, c1, c2, c3] = c.to_array();
    let [d0, d1, d2, d3] = d.to_array();
    [
        a0, a1, a2, a3, b0, b1, b2, b3, c0, c1, c2, c3, d0, d1, d2, d3,
    ]
}

// The message for the next round.
#[inline(always)]
#[tactic(auto, unfolding(crate::specs::KeyedHash::next_message))]
fn permute(m: &Words) -> Words
    ensures { result ≡ next_message m.now }
{
    [
        m[2], m[6], m[3], m[10], m[7], m[0], m[4], m[13], m[1], m[11], m[12], m[5], m[9], m[14],
        m[15], m[8],
    ]
}

// Word i of some bytes, lowest byte first.
#[inline(always)]
#[tactic(auto, unfolding(crate::specs::KeyedHash::word_at))]
fn word_at(bytes: &[u8; 32], i: usize) -> u32
    requires { i < 8 }
    ensures { result ≡ word_at bytes.now i }
{
    u32::from_le_bytes([
        bytes[4 * i],
        bytes[4 * i + 1],
        bytes[4 * i + 2],
        bytes[4 * i + 3],
    ])
}

// Both halves of a state together, as bytes.
#[inline(always)]
#[tactic(auto, unfolding(crate::specs::KeyedHash::digest))]
fn digest(v: &Words) -> [u8; 32]
    ensures { result ≡ digest v.now }
{
    let mut bytes = [0u8; 32];
    let at = put_u32(&mut bytes, 0, v[0] ^ v[8]);
    let at = put_u32(&mut bytes, at, v[1] ^ v[9]);
    let at = put_u32(&mut bytes, at, v[2] ^ v[10]);
    let at = put_u32(&mut bytes, at, v[3] ^ v[11]);
    let at = put_u32(&mut bytes, at, v[4] ^ v[12]);
    let at = put_u32(&mut bytes, at, v[5] ^ v[13]);
    let at = put_u32(&mut bytes, at, v[6] ^ v[14]);
    put_u32(&mut bytes, at, v[7] ^ v[15]);
    bytes
}
