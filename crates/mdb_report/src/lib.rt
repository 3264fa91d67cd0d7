//! What `mdb` says of shards: values that print as text and as JSON, and faults in words.
#![tactic(auto)]

pub mod brief;
pub mod counting;
pub mod expiry;
pub mod fault;
pub mod file_finding;
pub mod files;
pub mod garbage;
pub mod inquiry;
pub mod lookup;
pub mod name;
pub mod paged_file;
pub mod paged_inquiry;
pub mod paged_source;
pub mod pages;
pub mod parts_bar;
pub mod section;
pub mod summary;
pub mod tables;
pub mod tally;
pub mod xorb_lookup;
pub mod xorb_printing;
