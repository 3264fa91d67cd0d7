//! The commands of the program, each with its arguments and its help.

mod check;
mod chunks;
mod diff;
mod drop;
mod eligible;
mod export;
mod files;
mod find;
mod gc;
mod info;
mod make;
mod merge;
mod minimal;
mod name;
mod query;
mod report;
mod subset;
mod union;
mod xorbs;

use crate::row::Row;

/// The commands that look into shards, in the order of the help.
pub fn inquiries() -> &'static [Row] {
    INQUIRIES
}

/// The commands that write shards, in the order of the help, behind those that look into them.
pub fn makings() -> &'static [Row] {
    MAKINGS
}

const INQUIRIES: &[Row] = &[
    info::ROW,
    files::ROW,
    xorbs::ROW,
    chunks::ROW,
    find::ROW,
    query::ROW,
    check::ROW,
    gc::ROW,
    report::ROW,
    name::ROW,
];

const MAKINGS: &[Row] = &[
    union::ROW,
    diff::ROW,
    merge::ROW,
    export::ROW,
    minimal::ROW,
    subset::ROW,
    drop::ROW,
    make::ROW,
    eligible::ROW,
];
