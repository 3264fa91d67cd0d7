//! What the commands of `mdb` share.
#![tactic(auto)]

pub mod expiry;
pub mod failure;
pub mod host;
pub mod infos;
pub mod input_failure;
pub mod messages;
pub mod outputs;
pub mod progress;
pub mod request;
pub mod shard_file;
pub mod status;
pub mod terminals;
pub mod words;
