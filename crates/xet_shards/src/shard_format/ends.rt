//! Header, footer and layout options.

pub(super) mod footer;
pub(super) mod footer_facts;
pub(super) mod header;
pub(crate) mod info;
pub(crate) mod options;
