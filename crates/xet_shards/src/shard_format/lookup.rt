//! Single records and runs of chunks, found by the tables.

pub(super) mod chunk_query;
pub(super) mod file_lookup;
pub(super) mod run_reader;
pub(super) mod table_search;
pub(super) mod xorb_lookup;
