//! Operations that `bench/` measures, each done as often as the caller says. It has no clock: the
//! caller measures a call that does an operation many times and one that does it once.
#![tactic(auto)]

mod answer;
mod call;
mod counts;
mod operation;
mod run;
mod start;
