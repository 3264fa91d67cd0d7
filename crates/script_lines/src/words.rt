//! The words of a line, and the names, numbers and hashes that they spell.

ghost use Rattle.std.specs.Prelude.{◌≡◌, ◌≢◌, ℕ, Bool, Option, List, length, ◌↔◌, ◌∷◌, ◌++◌, drop, IsTrue, IsOk, IfOk, IsOkAnd, OnErr, IfErr, MatchOption};
ghost use Rattle.std.specs.Result.{OkIff};
ghost use Rattle.std.specs.Str.Parse.{digits_value};
ghost use Rattle.xet_core_structures.specs.Hash.{words_of};
ghost use Rattle.xet_core_structures.specs.Hex.{IsHexText, Spells};
ghost use Rattle.script_lines.specs.declared.words.ParseError.TheVariants.{OutOfMemory};
ghost use Rattle.xet_core_structures.specs.declared.merklehash.DataHash.{DataHash};
ghost use Rattle.script_lines.specs.Commands.{texts, SpellsKey, SpellNumber, SpellsNumberOrDash, flag_byte, flags_word};
ghost use Rattle.script_lines.specs.Words.{IsName, IsNameByte, IsNumber, SpellsHash, small_words};

use std::alloc::{AllocError, AllocFailed};
use xet_core_structures::merklehash::{DataHash, HMACKey, MerkleHash};

/// Why a line can't be read.
#[derive(Clone, Copy)]
pub enum ParseError {
    /// A word does not have the form that its position requires.
    Unreadable,
    /// An allocation for the lists of the line failed.
    OutOfMemory,
}

impl From<AllocError> for ParseError {
    ghost from_gives = { λ _ error. error ≡ OutOfMemory };

    fn from(_error: AllocError) -> ParseError {
        ParseError::OutOfMemory
    }
}

impl<T: Drop> From<AllocFailed<T>> for ParseError {
    ghost from_gives = { λ _ error. error ≡ OutOfMemory };

    fn from(_error: AllocFailed<T>) -> ParseError {
        ParseError::OutOfMemory
    }
}

/// The rest of the first word after `prefix`, and the words after it. If the first word does not
/// begin with `prefix`, or there is none, `None` and all words.
pub fn split_option<'w, 'a>(words: &'w [&'a str], prefix: &str) -> (Option<&'a str>, &'w [&'a str])
    ensures { MatchOption result.0 (result.1.now ≡ words.now)
        (λ _. result.1.now ≡ drop 1 words.now) }
{
    let Some((first, rest)) = words.split_first() else {
        return (None, words);
    };
    match first.strip_prefix(prefix) {
        Some(value) => (Some(value), rest),
        None => (None, words),
    }
}

/// The parts of a word before and after its first colon. `Unreadable` if it has none.
pub fn split_at_colon(word: &str) -> Result<(&str, &str), ParseError>
    ensures parts { IfOk result (λ parts. word.now ≡ parts.0.now ++ 58 ∷ parts.1.now) }
    ensures causes { IfErr result (λ e. e ≡ ParseError.Unreadable) }
{
    word.split_once(':').ok_or(ParseError::Unreadable)
}

/// The word as a name. `Unreadable` unless it has 1 to 32 ASCII letters, digits or `_`.
pub fn parse_name(word: &str) -> Result<&str, ParseError>
    ensures name { IfOk result (λ name. name.now ≡ word.now) }
    ensures accepted { IsOk result ↔ IsName word.now }
    ensures causes { IfErr result (λ e. e ≡ ParseError.Unreadable) }
{
    if !is_name(word) {
        return Err(ParseError::Unreadable);
    }
    Ok(word)
}

fn is_name(word: &str) -> bool
    ensures { IsTrue result ↔ IsName word.now }
{
    let bytes = word.as_bytes();
    !bytes.is_empty() && bytes.len() <= 32 && bytes.iter().all(|byte| is_name_byte(*byte))
}

fn is_name_byte(byte: u8) -> bool
    ensures { IsTrue result ↔ IsNameByte byte }
{
    byte.is_ascii_alphanumeric() || byte == b'_'
}

/// The hash that a word spells: 64 hexadecimal digits are the hash with these digits, and a decimal
/// number n that fits `u64` is the small hash n. `Unreadable` if the word is neither.
pub fn parse_hash(word: &str) -> Result<MerkleHash, ParseError>
    ensures digits { IsHexText word.now → IsOkAnd result (Spells word.now) }
    ensures number { ¬ (IsHexText word.now) → (IsOk result ↔ IsNumber 64 word.now) }
    ensures small { ¬ (IsHexText word.now) → IfOk result
        (λ hash. words_of hash ≡ small_words (digits_value 10 word.now)) }
    ensures hash { IfOk result (SpellsHash word.now) }
    ensures none { OnErr result ((hash : DataHash) → ¬ (SpellsHash word.now hash)) }
    ensures causes { IfErr result (λ e. e ≡ ParseError.Unreadable) }
{
    match DataHash::from_hex(word) {
        Ok(hash) => Ok(hash),
        Err(_) => Ok(small_hash(parse_u64(word)?)),
    }
}

/// The key that a word spells: `0` is the key of zeros, which is no key, and any other word is the
/// hash that it spells. `Unreadable` if it spells none.
pub fn parse_key(word: &str) -> Result<HMACKey, ParseError>
    ensures found { IfOk result (SpellsKey word.now) }
    ensures none { OnErr result ((key : DataHash) → ¬ (SpellsKey word.now key)) }
    ensures causes { IfErr result (λ e. e ≡ ParseError.Unreadable) }
{
    if word == "0" {
        return Ok(DataHash::default());
    }
    parse_hash(word)
}

/// Whether a character of a word of options is set: it is this letter, or else it is `-`.
/// `Unreadable` if it is neither.
pub fn parse_flag(character: u8, letter: u8) -> Result<bool, ParseError>
    ensures found { IfOk result (λ flag. character ≡ flag_byte letter flag) }
    ensures none { OnErr result ((flag : Bool) → character ≢ flag_byte letter flag) }
    ensures causes { IfErr result (λ e. e ≡ ParseError.Unreadable) }
{
    if character == letter {
        Ok(true)
    } else if character == b'-' {
        Ok(false)
    } else {
        Err(ParseError::Unreadable)
    }
}

/// Whether each of these letters stands in a word at its place, or `-` in its stead. `Unreadable`
/// if the word has anything else.
pub fn parse_flags<const N: usize>(word: &str, letters: &[u8; N]) -> Result<[bool; N], ParseError>
    ensures found { IfOk result (λ flags. word.now ≡ flags_word letters.now flags) }
    ensures none { OnErr result
        ((flags : List Bool) → length flags ≡ N → word.now ≢ flags_word letters.now flags) }
    ensures causes { IfErr result (λ e. e ≡ ParseError.Unreadable) }
{
    let characters = word.as_bytes();
    if characters.len() != N {
        return Err(ParseError::Unreadable);
    }
    let mut flags = [false; N];
    for i in 0..N {
        flags[i] = parse_flag(characters[i], letters[i])?;
    }
    Ok(flags)
}

/// The small hash of a number: the hash with the words number, 1, 0 and 0.
pub fn small_hash(number: u64) -> MerkleHash
    ensures { words_of result ≡ small_words number }
{
    DataHash::from([number, 1, 0, 0])
}

/// The number that a word spells in decimal. `Unreadable` if the word is empty, has a sign or any
/// other byte that is not a digit, or the number does not fit `u64`.
pub fn parse_u64(word: &str) -> Result<u64, ParseError>
    ensures value { OkIff result (IsNumber 64 word.now) (digits_value 10 word.now) }
    ensures causes { IfErr result (λ e. e ≡ ParseError.Unreadable) }
{
    // `parse` accepts a plus.
    if word.as_bytes().first() == Some(&b'+') {
        return Err(ParseError::Unreadable);
    }
    word.parse().map_err(|_| ParseError::Unreadable)
}

/// As [`parse_u64`], for numbers that fit `u32`.
pub fn parse_u32(word: &str) -> Result<u32, ParseError>
    ensures value { OkIff result (IsNumber 32 word.now) (digits_value 10 word.now) }
    ensures causes { IfErr result (λ e. e ≡ ParseError.Unreadable) }
{
    u32::try_from(parse_u64(word)?).map_err(|_| ParseError::Unreadable)
}

/// The number of a word that may be left out. `Unreadable` if there are more words, or the word
/// spells no number.
pub fn parse_optional_u64(words: &[&str]) -> Result<Option<u64>, ParseError>
    ensures found { IfOk result (SpellNumber (texts words.now)) }
    ensures none { OnErr result
        ((number : Option ℕ) → ¬ (SpellNumber (texts words.now) number)) }
    ensures causes { IfErr result (λ e. e ≡ ParseError.Unreadable) }
{
    match words {
        [] => Ok(None),
        [word] => Ok(Some(parse_u64(word)?)),
        _ => Err(ParseError::Unreadable),
    }
}

/// The number that a word spells, or none if it is `-`. `Unreadable` if it is neither.
pub fn parse_u64_or_dash(word: &str) -> Result<Option<u64>, ParseError>
    ensures found { IfOk result (SpellsNumberOrDash word.now) }
    ensures none { OnErr result
        ((number : Option ℕ) → ¬ (SpellsNumberOrDash word.now number)) }
    ensures causes { IfErr result (λ e. e ≡ ParseError.Unreadable) }
{
    if word == "-" {
        return Ok(None);
    }
    Ok(Some(parse_u64(word)?))
}
