//! Shards that are not written yet: records where they lie in memory, what is made of them, and
//! their bytes. `OutOfMemory` means that an allocation failed.
//!
//! `open`, `by_tables`, `change`, `unions`, `merge` and `strict` choose the records of a shard,
//! `sink` its version and target.
#![tactic(auto)]

mod agreement;
pub mod anew;
pub mod by_tables;
pub mod change;
mod collecting;
mod differing;
pub mod findings;
mod in_rows;
mod keys;
pub mod laws;
mod malformed;
mod marks;
pub mod merge;
mod next_record;
pub mod of_agreeing;
pub mod of_union;
pub mod open;
mod optional_parts;
pub mod placed_file;
pub mod placed_record;
pub mod placed_shard;
pub mod placed_xorb;
mod places;
mod putting;
pub mod range;
pub mod records;
pub mod section;
pub mod selection;
pub mod sets;
pub mod sink;
pub mod strict;
pub mod tables;
pub mod unions;
mod values;
pub mod well_formed;
