//! What `mdb` prints of records, hashes, times and sizes, as text and as JSON, and records read
//! from JSON.
#![tactic(auto)]

pub mod flags;
pub mod hex;
pub mod line;
pub mod moment;
pub mod record_line;
pub mod records;
pub mod shown;
pub mod size;
