//! The words of `eligible`.

use mdb_report::inquiry::Inquiry;

/// What is asked of each shard, which no word changes.
pub fn inquiry() -> Inquiry {
    Inquiry::Eligible
}
