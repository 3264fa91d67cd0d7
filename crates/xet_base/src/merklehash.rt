//! Hashes: four 64-bit words, their order, bytes and text.

ghost use Rattle.std.specs.Prelude.{◌≡◌, ◌+◌, ◌*◌, ◌<◌, ◌≤◌, ◌↔◌, ◌++◌, length, IsTrue, IsOk, IsSome, IfOk, IfSome, IfErr, OnOk, Ok, Some, string_bytes, slice_index, map, flat_map, All};
ghost use Rattle.std.specs.Char.{to_ascii_lowercase};
ghost use Rattle.std.specs.Cmp.{IsTotalOrder};
ghost use Rattle.std.specs.Hash as fed;
ghost use Rattle.std.specs.Str.{str_to_ascii_lowercase};
ghost use Rattle.std.specs.declared.cmp.Ordering.TheVariants.{Equal};
ghost use Rattle.xet_base.specs.Bytes.{u64_bytes};
ghost use Rattle.xet_base.specs.Hash.{IsHash, words_of, hash_bytes, hash_cmp, IsEligible};
ghost use Rattle.xet_base.specs.KeyedHash.{hmac};
ghost use Rattle.xet_base.specs.Blake3.{keyed_hash};
ghost use Rattle.xet_base.specs.Hex.{hex_digit, hex_digits, hash_hex, IsHexDigit, IsHexText, Spells};

use crate::error::{CoreError, Result};
use crate::fields::split_u64;
use crate::keyed_hash::{blake3_bytes, keyed_bytes, keyed_bytes_four};
use std::alloc::{AllocError, Global};
use std::fmt;
use std::hash::Hash;
use std::ops::Index;
use thiserror::Error;

/// Four 64-bit words, ordered by word 0, then 1, 2 and 3.
#[derive(Clone, Copy, Default, PartialEq, Eq, PartialOrd, Ord, Hash)]
pub struct DataHash {
    pub word0: u64,
    pub word1: u64,
    pub word2: u64,
    pub word3: u64,
}

/// The hash of a file, a xorb or a chunk.
pub type MerkleHash = DataHash;

/// The key of a keyed hash; all zero means no key.
pub type HMACKey = DataHash;

/// A SHA-256, kept in the words of a hash.
pub type Sha256 = DataHash;

/// The bytes are not 32.
#[derive(Clone, Copy, Debug, PartialEq, Eq, Error)]
#[error("a hash has 32 bytes")]
pub struct DataHashBytesParseError;

/// The text is not 64 hexadecimal digits.
#[derive(Clone, Copy, Debug, PartialEq, Eq, Error)]
#[error("the text of a hash has 64 hexadecimal digits")]
pub struct DataHashHexParseError;

/// The global index keeps one chunk hash in this many.
pub const MDB_SHARD_GLOBAL_DEDUP_CHUNK_MODULUS: u64 = 1024;

/// Whether the global index keeps a chunk for its hash alone: word 3 is a multiple of
/// [`MDB_SHARD_GLOBAL_DEDUP_CHUNK_MODULUS`].
pub fn hash_is_global_dedup_eligible(hash: &MerkleHash) -> bool
    ensures { IsTrue result ↔ IsEligible hash.now }
{
    hash.word3 % MDB_SHARD_GLOBAL_DEDUP_CHUNK_MODULUS == 0
}

/// `cmp` and `partial_cmp` order hashes by word 0, then 1, 2 and 3. The order is total, and only
/// equal hashes compare as equal. The function does nothing; its contract is the law.
pub fn hashes_are_ordered_by_words()
    ensures words { (a b : DataHash) → ⟦<DataHash as Ord>⟧.cmp a b ≡ hash_cmp a b }
    ensures partial { (a b : DataHash)
        → ⟦<DataHash as PartialOrd>⟧.partial_cmp a b ≡ Some (hash_cmp a b) }
    ensures total { IsTotalOrder ⟦<DataHash as Ord>⟧.cmp }
    ensures ties { (a b : DataHash) → (⟦<DataHash as Ord>⟧.cmp a b ≡ Equal) ↔ (a ≡ b) }
{}

/// Hashes are equal by `==` if and only if all their words are equal, and `hash` feeds these words
/// to a hasher in order, so equal hashes have equal hash values. The function does nothing; its
/// contract is the law.
pub fn hashes_are_equal_by_words()
    ensures equality { (a b : DataHash) → IsTrue (⟦<DataHash as PartialEq>⟧.eq a b) ↔ (a ≡ b) }
    ensures words { (a b : DataHash) → (a ≡ b) ↔ (words_of a ≡ words_of b) }
    ensures hashing { (a : DataHash)
        → ⟦<DataHash as Hash>⟧.hash_input a ≡ flat_map fed.u64 (words_of a) }
{}

/// BLAKE3's keyed hash of the bytes. Allocates nothing.
pub fn keyed_hash(key: HMACKey, bytes: &[u8]) -> DataHash
    ensures { result ≡ keyed_hash key bytes.now }
{
    DataHash::from_32(&blake3_bytes(&key.as_bytes(), bytes))
}

impl From<[u64; 4]> for DataHash {
    ghost from_gives = { λ words hash. words_of hash ≡ words };

    fn from(words: [u64; 4]) -> DataHash {
        let [word0, word1, word2, word3] = words;
        DataHash {
            word0,
            word1,
            word2,
            word3,
        }
    }
}

/// The words by index, 0 to 3.
impl Index<usize> for DataHash {
    type Output = u64;

    ghost can_index = { λ hash index. index < 4 };

    ghost index_gives = { λ hash index word. slice_index (words_of hash) index ≡ word };

    fn index(&self, index: usize) -> &u64 {
        match index {
            0 => &self.word0,
            1 => &self.word1,
            2 => &self.word2,
            3 => &self.word3,
            _ => unreachable!(),
        }
    }
}

/// The 64 digits of [`DataHash::hex`].
impl fmt::Display for DataHash {
    ghost output = { λ hash. Some (hash_hex hash) };

    fn fmt<W: fmt::Write>(&self, f: &mut fmt::Formatter<W>) -> fmt::Result {
        let DataHash {
            word0,
            word1,
            word2,
            word3,
        } = *self;
        write!(f, "{word0:016x}{word1:016x}{word2:016x}{word3:016x}")
    }
}

/// The same digits.
impl fmt::Debug for DataHash {
    fn fmt<W: fmt::Write>(&self, f: &mut fmt::Formatter<W>) -> fmt::Result {
        write!(f, "{self}")
    }
}

impl DataHash {
    /// The words in order, each lowest byte first.
    #[tactic(auto, unfolding(crate::specs::Hash::hash_bytes, crate::specs::Bytes::u64_bytes))]
    #[inline(always)]
    pub fn as_bytes(&self) -> [u8; 32]
        ensures { result ≡ hash_bytes self.now }
    {
        let a = self.word0.to_le_bytes();
        let b = self.word1.to_le_bytes();
        let c = self.word2.to_le_bytes();
        let d = self.word3.to_le_bytes();
        [
            a[0], a[1], a[2], a[3], a[4], a[5], a[6], a[7], b[0], b[1], b[2], b[3], b[4], b[5],
            b[6], b[7], c[0], c[1], c[2], c[3], c[4], c[5], c[6], c[7], d[0], d[1], d[2], d[3],
            d[4], d[5], d[6], d[7],
        ]
    }

    /// The hash with these 32 bytes. Fails if there are more or fewer.
    pub fn from_slice(bytes: &[u8]) -> std::result::Result<DataHash, DataHashBytesParseError>
        ensures found { IfOk result (λ hash. hash_bytes hash ≡ bytes.now) }
        ensures accepted { IsOk result ↔ (length bytes.now ≡ 32) }
    {
        if bytes.len() != 32 {
            return Err(DataHashBytesParseError);
        }
        Ok(DataHash::from_32(bytes))
    }

    /// The keyed hash of this hash: BLAKE3's keyed mode for the one block of its 32 bytes.
    pub fn hmac(self, key: HMACKey) -> DataHash
        ensures { result ≡ hmac key self }
    {
        DataHash::from_32(&keyed_bytes(&key.as_bytes(), &self.as_bytes()))
    }

    /// The keyed hashes of four hashes: [`DataHash::hmac`] of each, in less time.
    pub fn hmac_four(hashes: &[DataHash; 4], key: HMACKey) -> [DataHash; 4]
        ensures { result ≡ map (hmac key) hashes.now }
    {
        let messages = [
            hashes[0].as_bytes(),
            hashes[1].as_bytes(),
            hashes[2].as_bytes(),
            hashes[3].as_bytes(),
        ];
        let [a, b, c, d] = keyed_bytes_four(&key.as_bytes(), &messages);
        [
            DataHash::from_32(&a),
            DataHash::from_32(&b),
            DataHash::from_32(&c),
            DataHash::from_32(&d),
        ]
    }

    #[tactic(auto, unfolding(crate::specs::Hash::hash_bytes))]
    #[inline(always)]
    fn from_32(bytes: &[u8]) -> DataHash
        requires { length bytes.now ≡ 32 }
        ensures { hash_bytes result ≡ bytes.now }
    {
        let (word0, rest) = split_u64(bytes);
        let (word1, rest) = split_u64(rest);
        let (word2, rest) = split_u64(rest);
        let (word3, _) = split_u64(rest);
        DataHash {
            word0,
            word1,
            word2,
            word3,
        }
    }

    /// Each word as 16 lower-case hexadecimal digits, most significant first, words in order.
    /// May fail with `OutOfMemory`.
    #[tactic(auto, unfolding(crate::specs::Hex::hash_hex))]
    pub fn hex(&self, alloc: Global) -> Result<String>
        ensures text { IfOk result (λ text. string_bytes text ≡ hash_hex self.now) }
        ensures causes { IfErr result (λ e. e ≡ CoreError.OutOfMemory) }
    {
        let mut text = String::with_capacity(alloc, 64)?;
        push_word(&mut text, self.word0)?;
        push_word(&mut text, self.word1)?;
        push_word(&mut text, self.word2)?;
        push_word(&mut text, self.word3)?;
        Ok(text)
    }

    /// The hash with these 64 hexadecimal digits, of either case. Fails on any other text.
    pub fn from_hex(text: &str) -> std::result::Result<DataHash, DataHashHexParseError>
        ensures found { IfOk result (λ hash. Spells text.now hash) }
        ensures accepted { IsOk result ↔ IsHexText text.now }
        ensures back { (hash : DataHash) → IsHash hash → text.now ≡ hash_hex hash
            → result ≡ Ok hash }
    {
        let digits = text.as_bytes();
        if !is_hex_text(digits) {
            return Err(DataHashHexParseError);
        }
        Ok(hash_of_digits(digits))
    }
}

// Appends the sixteen digits of a word.
fn push_word(text: &mut String, word: u64) -> std::result::Result<(), AllocError>
    ensures { OnOk result (string_bytes text.new ≡ string_bytes text.old ++ hex_digits 16 word) }
{
    for i in 0..16u32 {
        let digit = (word >> (60 - 4 * i)) % 16;
        text.push(hex_char(digit as u8))?;
    }
    Ok(())
}

fn hex_char(digit: u8) -> char
    requires { digit < 16 }
    ensures digit { result ≡ hex_digit digit }
    ensures ascii { result < 128 }
{
    let code = if digit < 10 {
        b'0' + digit
    } else {
        b'a' - 10 + digit
    };
    char::from(code)
}

fn is_hex_text(text: &[u8]) -> bool
    ensures { IsTrue result ↔ IsHexText text.now }
{
    text.len() == 64 && text.iter().all(|digit| is_hex_digit(*digit))
}

#[tactic(auto, unfolding(crate::specs::Hex::hash_hex))]
fn hash_of_digits(digits: &[u8]) -> DataHash
    requires { IsHexText digits.now }
    ensures found { Spells digits.now result }
    ensures fits { IsHash result }
{
    DataHash {
        word0: word_of_digits(&digits[..16]),
        word1: word_of_digits(&digits[16..32]),
        word2: word_of_digits(&digits[32..48]),
        word3: word_of_digits(&digits[48..64]),
    }
}

fn word_of_digits(digits: &[u8]) -> u64
    requires len { length digits.now ≡ 16 }
    requires digits { All IsHexDigit digits.now }
    ensures { hex_digits 16 result ≡ str_to_ascii_lowercase digits.now }
{
    let mut word = 0u64;
    for digit in digits {
        word = word * 16 + u64::from(hex_value(*digit));
    }
    word
}

fn is_hex_digit(digit: u8) -> bool
    ensures { IsTrue result ↔ IsHexDigit digit }
{
    matches!(digit, b'0'..=b'9' | b'A'..=b'F' | b'a'..=b'f')
}

fn hex_value(digit: u8) -> u8
    requires { IsHexDigit digit }
    ensures below { result < 16 }
    ensures digit { hex_digit result ≡ to_ascii_lowercase digit }
{
    match digit {
        b'0'..=b'9' => digit - b'0',
        b'A'..=b'F' => digit - b'A' + 10,
        _ => digit - b'a' + 10,
    }
}
