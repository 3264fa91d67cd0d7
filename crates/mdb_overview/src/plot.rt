//! Plots of bars, as SVG.

use crate::numbers::GroupedNumber;
use mdb_records::size::Size;
use std::alloc::{AllocError, Global};

/// In pixels: the widths of all and of names, the heights of a row and of column heads, and the
/// width for a number.
const WIDTH: u64 = 960;

const LABELS: u64 = 250;

const ROW: u64 = 22;

const HEAD: u64 = 24;

const NUMBER: u64 = 120;

/// A column of a plot.
#[derive(Clone, Copy)]
pub(crate) struct Column {
    pub(crate) name: &'static str,
    /// Whether its numbers are of bytes.
    pub(crate) is_size: bool,
}

impl Column {
    fn shown(&self, alloc: Global, value: Option<u64>) -> Result<String, AllocError> {
        match value {
            Some(bytes) if self.is_size => format!(in alloc; "{}", Size::new(bytes, true)),
            value => format!(in alloc; "{}", GroupedNumber(value)),
        }
    }
}

/// A row of a plot.
#[derive(Drop)]
pub(crate) struct PlotRow {
    /// Its name, in HTML.
    pub(crate) label: String,
    /// Its number in each column, if known.
    pub(crate) values: [Option<u64>; 2],
    /// Whether its bars are pale.
    pub(crate) pale: bool,
}

impl PlotRow {
    fn value(&self, column: usize) -> Option<u64> {
        self.values.get(column).copied().unwrap_or(None)
    }
}

/// Prints a plot with a bar for each row in one or two columns; `about` is HTML.
pub(crate) fn print_plot(
    alloc: Global,
    page: &mut String,
    title: &str,
    about: &str,
    columns: &[Column],
    rows: &[PlotRow],
) -> Result<(), AllocError> {
    let height = ROW.saturating_mul(rows.len() as u64).saturating_add(HEAD);
    write!(
        page,
        "<section>\n<h2>{title}</h2>\n<p>{about}</p>\n<figure>"
    )?;
    write!(
        page,
        "<svg viewBox=\"0 0 {WIDTH} {height}\" role=\"group\" aria-label=\"{title}\">\n"
    )?;
    for (index, column) in columns.iter().enumerate() {
        let x = start_of(index, columns.len());
        let name = column.name;
        write!(
            page,
            "<text class=\"head\" x=\"{x}\" y=\"14\">{name}</text>\n"
        )?;
    }
    let mut top = HEAD;
    for row in rows {
        print_row(alloc, page, columns, row, rows, top)?;
        top = top.saturating_add(ROW);
    }
    page.push_str("</svg></figure>\n</section>\n")
}

fn width_of(columns: usize) -> u64 {
    (WIDTH - LABELS).checked_div(columns as u64).unwrap_or(0)
}

fn start_of(column: usize, columns: usize) -> u64 {
    width_of(columns)
        .saturating_mul(column as u64)
        .saturating_add(LABELS)
}

// Its title says all that the row shows.
fn print_row(
    alloc: Global,
    page: &mut String,
    columns: &[Column],
    row: &PlotRow,
    rows: &[PlotRow],
    top: u64,
) -> Result<(), AllocError> {
    print_label(alloc, page, columns, row, top)?;
    for (index, column) in columns.iter().enumerate() {
        let x = start_of(index, columns.len());
        let room = width_of(columns.len()).saturating_sub(NUMBER);
        let value = row.value(index);
        let width = share(value.unwrap_or(0), greatest_value(rows, index), room);
        let shown = column.shown(alloc, value)?;
        print_bar(page, shown.as_str(), x, top, width)?;
    }
    page.push_str("</g>\n")
}

fn print_label(
    alloc: Global,
    page: &mut String,
    columns: &[Column],
    row: &PlotRow,
    top: u64,
) -> Result<(), AllocError> {
    let label = row.label.as_str();
    let pale = if row.pale { " class=\"pale\"" } else { "" };
    let base = top.saturating_add(15);
    let end = LABELS - 10;
    write!(page, "<g{pale} role=\"img\"><title>{label}")?;
    for (index, column) in columns.iter().enumerate() {
        let name = column.name;
        write!(page, ", {name}: {}", column.shown(alloc, row.value(index))?)?;
    }
    write!(
        page,
        "</title><text class=\"label\" x=\"{end}\" y=\"{base}\">{label}</text>"
    )
}

fn print_bar(
    page: &mut String,
    shown: &str,
    x: u64,
    top: u64,
    width: u64,
) -> Result<(), AllocError> {
    let y = top.saturating_add(3);
    let behind = x.saturating_add(width).saturating_add(6);
    let base = top.saturating_add(15);
    write!(
        page,
        "<rect x=\"{x}\" y=\"{y}\" width=\"{width}\" height=\"16\" rx=\"2\"/>"
    )?;
    write!(page, "<text x=\"{behind}\" y=\"{base}\">{shown}</text>")
}

fn greatest_value(rows: &[PlotRow], column: usize) -> u64 {
    let mut greatest = 0;
    for row in rows {
        greatest = greatest.max(row.value(column).unwrap_or(0));
    }
    greatest
}

// In proportion to the greatest number, and at least a pixel if not 0.
fn share(value: u64, greatest: u64, width: u64) -> u64 {
    let part = u128::from(value)
        .saturating_mul(u128::from(width))
        .checked_div(u128::from(greatest))
        .unwrap_or(0);
    let part = u64::try_from(part).unwrap_or(width).min(width);
    part.max(value.min(1))
}
