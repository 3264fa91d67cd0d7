//! Printing a value as text or as JSON, with its shard's name.

ghost use Rattle.std.specs.Prelude.{◌≡◌};
ghost use Rattle.mdb_records.specs.declared.line.Origin.{Origin};

use crate::shown::ShownText;
use serde::Serialize;
use std::alloc::Global;
use std::fmt::Display;
use std::io;
use std::io::Write;

/// How values are printed.
#[derive(Clone, Copy)]
pub enum Style {
    /// As text, with sizes in bytes.
    Text,
    /// As text, with sizes as `1.5 KiB`.
    Human,
    /// As one JSON value a line.
    Json,
}

/// The shard that has a value. In JSON its name is the member `shard`.
#[derive(Clone, Copy)]
pub enum Origin<'a> {
    /// The value says it itself.
    Said,
    /// No shard has it, or all have.
    NoShard,
    /// The only shard, with this name.
    Only(&'a str),
    /// One of several, whose name stands before each line of text.
    OneOf(&'a str),
}

/// How values are printed, and of which shard they are.
#[derive(Clone, Copy)]
pub struct Layout<'a> {
    pub style: Style,
    pub origin: Origin<'a>,
}

impl<'a> Layout<'a> {
    /// A style, for values that say their shard.
    pub fn plain(style: Style) -> Layout<'a>
        ensures style { result.style ≡ style }
        ensures origin { result.origin ≡ Origin.Said }
    {
        Layout {
            style,
            origin: Origin::Said,
        }
    }

    /// A style, for values of no shard or of all.
    pub fn of_no_shard(style: Style) -> Layout<'a>
        ensures style { result.style ≡ style }
        ensures origin { result.origin ≡ Origin.NoShard }
    {
        Layout {
            style,
            origin: Origin::NoShard,
        }
    }

    /// Whether it is of one of several shards, so that another may have what it lacks.
    pub fn is_of_one(&self) -> bool {
        matches!(self.origin, Origin::OneOf(_))
    }
}

/// Prints a value as a line: `Human` by `{:#}`, except with a shard's name before each line. Fails
/// if the output does, or if memory is lacking for JSON or for such lines.
pub fn print<T: Display + Serialize, W: Write>(
    alloc: Global,
    value: &T,
    layout: Layout<'_>,
    output: &mut W,
) -> io::Result<()> {
    match (layout.style, layout.origin) {
        (Style::Text | Style::Human, Origin::OneOf(shard)) => {
            print_lines(alloc, value, shard, output)
        }
        (Style::Text, _) => writeln!(output, "{value}"),
        (Style::Human, _) => writeln!(output, "{value:#}"),
        (Style::Json, Origin::Said) => print_json(alloc, value, output),
        (Style::Json, Origin::NoShard) => {
            let shard = None;
            print_json(alloc, &OfShard { shard, value }, output)
        }
        (Style::Json, Origin::Only(shard) | Origin::OneOf(shard)) => {
            let shard = Some(shard);
            print_json(alloc, &OfShard { shard, value }, output)
        }
    }
}

fn print_lines<T: Display, W: Write>(
    alloc: Global,
    value: &T,
    shard: &str,
    output: &mut W,
) -> io::Result<()> {
    let text = format!(in alloc; "{value}")?;
    let shard = ShownText(shard);
    for line in text.as_str().lines() {
        writeln!(output, "{shard}: {line}")?;
    }
    Ok(())
}

fn print_json<T: Serialize, W: Write>(alloc: Global, value: &T, output: &mut W) -> io::Result<()> {
    let json = json_of(alloc, value)?;
    writeln!(output, "{json}")
}

/// A value as JSON. Fails only with `OutOfMemory`.
pub fn json_of<T: Serialize>(alloc: Global, value: &T) -> io::Result<String> {
    match serde_json::to_string(alloc, value) {
        Ok(json) => Ok(json),
        Err(_) => Err(io::Error::from(io::ErrorKind::OutOfMemory)),
    }
}

#[derive(Drop, Serialize)]
struct OfShard<'a, T> {
    shard: Option<&'a str>,
    #[serde(flatten)]
    value: &'a T,
}
