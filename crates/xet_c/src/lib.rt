//! Shards as bytes, for C: `bindings/c/xet.h` declares the functions. They return 0, or the number
//! of an error: 1 to 18 are the variants of `CoreError` in their order; 19: the output is larger
//! than the memory given; 20: two shards disagree; 21: a shard is malformed.
#![tactic(auto)]

mod agree;
mod check;
mod chunk_rows;
mod complete;
mod concatenate;
mod convert;
mod difference;
mod eligible;
mod export;
mod find;
mod hash;
mod keyed;
mod listed;
mod load;
mod merge;
mod minimal;
mod output;
mod part_lookups;
mod query;
mod records;
mod release;
mod segment;
mod subset;
mod text;
mod version;
mod walk;
mod write;
