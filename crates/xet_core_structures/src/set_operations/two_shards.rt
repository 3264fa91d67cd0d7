//! Union and difference of two shards, read side by side.

pub(super) mod mix;
pub(super) mod record_operation;
pub(super) mod results;
pub(super) mod sections;
