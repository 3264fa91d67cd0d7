//! Concatenation of shards whose records follow one another: sections are copied, tables joined.
#![tactic(auto)]

mod chunk_cuts;
mod chunk_merging;
mod concatenate;
mod gathering;
pub mod laws;
mod ordered_parts;
mod part_order;
mod part_split;
mod section_parts;
mod spans;
mod table_merge;
mod version;

pub use concatenate::concatenate_shards_into;
pub use spans::concatenated_span_into;
