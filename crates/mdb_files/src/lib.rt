//! Shards in files: reading them, replacing them as a whole, and their stamps.
#![tactic(auto)]

pub mod files;
pub mod free_memory;
pub mod new_file;
pub mod stamp;
