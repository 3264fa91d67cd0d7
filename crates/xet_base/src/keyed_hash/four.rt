//! Four keyed hashes at once: each word of a state is a vector, with one lane for each hash.

ghost use Rattle.std.specs.Prelude.{◌≡◌, ℕ, ◌<◌, [], ◌∷◌, map, slice_index, slice_index_or};
ghost use Rattle.xet_base.specs.KeyedHash.{mix_columns, mix_diagonals, next_message, state_after, initial_state, message_of, keyed_bytes};
ghost use Rattle.xet_base.specs.Steps.Lanes.{lane};

pub(super) mod chunks;

use super::{ONE_BLOCK, Words, digest, mix, words_of};
use std::simd::u32x4;

// Four states, or four messages.
type Lanes = [u32x4; 16];

/// The keyed hashes of four messages of 32 bytes.
pub(crate) fn keyed_bytes_four(key: &[u8; 32], messages: &[[u8; 32]; 4]) -> [[u8; 32]; 4]
    ensures { result ≡ map (keyed_bytes key.now) messages.now }
{
    let states = compress(starts_of(key), &messages_of(messages));
    [
        digest(&lane(&states, 0)),
        digest(&lane(&states, 1)),
        digest(&lane(&states, 2)),
        digest(&lane(&states, 3)),
    ]
}

// The state that begins with a key, in each lane.
#[inline(always)]
fn starts_of(key: &[u8; 32]) -> Lanes
    ensures { (j : ℕ) → j < 4 → lane j result ≡ initial_state key.now }
{
    let k = words_of(key);
    [
        u32x4::splat(k[0]),
        u32x4::splat(k[1]),
        u32x4::splat(k[2]),
        u32x4::splat(k[3]),
        u32x4::splat(k[4]),
        u32x4::splat(k[5]),
        u32x4::splat(k[6]),
        u32x4::splat(k[7]),
        u32x4::splat(0x6A09E667),
        u32x4::splat(0xBB67AE85),
        u32x4::splat(0x3C6EF372),
        u32x4::splat(0xA54FF53A),
        u32x4::splat(0),
        u32x4::splat(0),
        u32x4::splat(32),
        u32x4::splat(ONE_BLOCK),
    ]
}

// The messages, and zeros after each.
#[inline(always)]
fn messages_of(messages: &[[u8; 32]; 4]) -> Lanes
    ensures { (j : ℕ) → j < 4
        → lane j result ≡ message_of (slice_index_or messages.now j []) }
{
    let a = words_of(&messages[0]);
    let b = words_of(&messages[1]);
    let c = words_of(&messages[2]);
    let d = words_of(&messages[3]);
    let zero = u32x4::splat(0);
    [
        u32x4::from_array([a[0], b[0], c[0], d[0]]),
        u32x4::from_array([a[1], b[1], c[1], d[1]]),
        u32x4::from_array([a[2], b[2], c[2], d[2]]),
        u32x4::from_array([a[3], b[3], c[3], d[3]]),
        u32x4::from_array([a[4], b[4], c[4], d[4]]),
        u32x4::from_array([a[5], b[5], c[5], d[5]]),
        u32x4::from_array([a[6], b[6], c[6], d[6]]),
        u32x4::from_array([a[7], b[7], c[7], d[7]]),
        zero,
        zero,
        zero,
        zero,
        zero,
        zero,
        zero,
        zero,
    ]
}

// Seven rounds, written out as those of one hash are.
#[inline(always)]
#[tactic(auto, unfolding(crate::specs::KeyedHash::state_after, crate::specs::KeyedHash::message_after))]
fn compress(starts: Lanes, messages: &Lanes) -> Lanes
    ensures { (j : ℕ) → j < 4
        → lane j result ≡ state_after 7 (lane j starts) (lane j messages.now) }
{
    let second = permute(messages);
    let third = permute(&second);
    let fourth = permute(&third);
    let fifth = permute(&fourth);
    let sixth = permute(&fifth);
    let seventh = permute(&sixth);
    let states = round(starts, messages);
    let states = round(states, &second);
    let states = round(states, &third);
    let states = round(states, &fourth);
    let states = round(states, &fifth);
    let states = round(states, &sixth);
    round(states, &seventh)
}

// The states after a round.
#[inline(always)]
fn round(states: Lanes, m: &Lanes) -> Lanes
    ensures { (j : ℕ) → j < 4
        → lane j result ≡ mix_diagonals (mix_columns (lane j states) (lane j m.now)) (lane j m.now) }
{
    let columns = mix_columns(states, m);
    mix_diagonals(columns, m)
}

#[inline(always)]
fn mix_columns(states: Lanes, m: &Lanes) -> Lanes
    ensures { (j : ℕ) → j < 4 → lane j result ≡ mix_columns (lane j states) (lane j m.now) }
{
    let [
        v0,
        v1,
        v2,
        v3,
        v4,
        v5,
        v6,
        v7,
        v8,
        v9,
        v10,
        v11,
        v12,
        v13,
        v14,
        v15,
    ] = states;
    let (v0, v4, v8, v12) = mix(v0, v4, v8, v12, m[0], m[1]);
    let (v1, v5, v9, v13) = mix(v1, v5, v9, v13, m[2], m[3]);
    let (v2, v6, v10, v14) = mix(v2, v6, v10, v14, m[4], m[5]);
    let (v3, v7, v11, v15) = mix(v3, v7, v11, v15, m[6], m[7]);
    [
        v0, v1, v2, v3, v4, v5, v6, v7, v8, v9, v10, v11, v12, v13, v14, v15,
    ]
}

#[inline(always)]
fn mix_diagonals(states: Lanes, m: &Lanes) -> Lanes
    ensures { (j : ℕ) → j < 4 → lane j result ≡ mix_diagonals (lane j states) (lane j m.now) }
{
    let [
        v0,
        v1,
        v2,
        v3,
        v4,
        v5,
        v6,
        v7,
        v8,
        v9,
        v10,
        v11,
        v12,
        v13,
        v14,
        v15,
    ] = states;
    let (v0, v5, v10, v15) = mix(v0, v5, v10, v15, m[8], m[9]);
    let (v1, v6, v11, v12) = mix(v1, v6, v11, v12, m[10], m[11]);
    let (v2, v7, v8, v13) = mix(v2, v7, v8, v13, m[12], m[13]);
    let (v3, v4, v9, v14) = mix(v3, v4, v9, v14, m[14], m[15]);
    [
        v0, v1, v2, v3, v4, v5, v6, v7, v8, v9, v10, v11, v12, v13, v14, v15,
    ]
}

// The messages for the next round.
#[inline(always)]
#[tactic(auto, unfolding(crate::specs::KeyedHash::next_message))]
fn permute(m: &Lanes) -> Lanes
    ensures { (j : ℕ) → j < 4 → lane j result ≡ next_message (lane j m.now) }
{
    [
        m[2], m[6], m[3], m[10], m[7], m[0], m[4], m[13], m[1], m[11], m[12], m[5], m[9], m[14],
        m[15], m[8],
    ]
}

// The words of one lane.
#[inline(always)]
fn lane(states: &Lanes, j: usize) -> Words
    requires { j < 4 }
    ensures { result ≡ lane j states.now }
{
    [
        word(states[0], j),
        word(states[1], j),
        word(states[2], j),
        word(states[3], j),
        word(states[4], j),
        word(states[5], j),
        word(states[6], j),
        word(states[7], j),
        word(states[8], j),
        word(states[9], j),
        word(states[10], j),
        word(states[11], j),
        word(states[12], j),
        word(states[13], j),
        word(states[14], j),
        word(states[15], j),
    ]
}

#[inline(always)]
fn word(vector: u32x4, j: usize) -> u32
    requires { j < 4 }
    ensures { result ≡ slice_index vector j }
{
    vector.to_array()[j]
}
