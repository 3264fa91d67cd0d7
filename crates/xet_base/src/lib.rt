//! Hashes, errors, little-endian codecs and sources: the base of every layer of the shard format.
#![tactic(auto)]

pub mod count;
pub mod error;
pub mod fields;
pub mod input;
pub mod interpolation_search;
mod keyed_hash;
pub mod merklehash;
pub mod serialization_utils;
pub mod sorted_hashes;
pub mod source;
