//! The lines of scripts about metadata shards: their words, the values that these spell, and the
//! output. Only programs that read scripts use it.
#![tactic(auto)]

pub mod command;
pub mod fields;
pub mod files_and_xorbs;
pub mod lines;
pub mod print;
pub mod ranges;
pub mod records;
pub mod refusal;
pub mod show;
pub mod tree;
pub mod verb;
pub mod words;
