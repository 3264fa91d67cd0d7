//! What does not fit together in files and xorbs: xorbs that no file names, segments without a xorb
//! or outside of it, and sums that do not add up.
#![tactic(auto)]

mod adding;
pub mod finding;
pub mod garbage;
pub mod misfit;
pub mod range;
pub mod segments;
mod sorted;
