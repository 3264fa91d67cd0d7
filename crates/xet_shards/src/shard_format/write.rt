//! Writing sections, tables and footer.

pub(super) mod file_writer;
pub(super) mod record_table;
pub(super) mod row_order;
pub(crate) mod shard_end;
pub(crate) mod view_writer;
pub(crate) mod writer;
pub(crate) mod written;
pub(crate) mod xorb_writer;
