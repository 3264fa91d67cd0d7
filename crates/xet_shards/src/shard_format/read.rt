//! Reading sections and tables whole.

pub(super) mod file_ranges;
pub(crate) mod placed_record;
pub(super) mod section_reader;
pub(super) mod section_walk;
pub(super) mod table_reader;
pub(super) mod truncated_hashes;
