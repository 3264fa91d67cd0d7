//! An overview of shards, and its page: one HTML file that needs nothing else.
#![tactic(auto)]

pub mod counts;
pub mod escape;
pub mod expiries;
mod failures;
mod numbers;
pub mod overview;
pub mod page;
mod plot;
mod plots;
pub mod sharing;
mod sizes;
mod style;
mod table;
