//! Keyed exports, copied record by record.

pub(crate) mod keyed_chunks;
pub(super) mod keyed_export;
