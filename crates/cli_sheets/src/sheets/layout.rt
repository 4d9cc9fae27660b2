//! The layout of a chart.

ghost use Rattle.std.specs.Prelude.{◌≡◌, ◌++◌, OnOk};
ghost use Rattle.cli_sheets.specs.SheetsWords.Layout as layout;

use crate::sheets::items::write_items;
use crate::sheets::lines::{draw_line, item_on};
use crate::sheets::rulers::wheel_ruler;
use crate::wording;
use chart_line_rules::print_rules::PrintedLine;
use chart_lines::charts::{BodyLine, HeadingLine, Level};
use chart_numerals::write_numbered;
use chart_rules::Chart;
use page_text::without_trailing_blanks;
use std::alloc::Global;
use std::io;
use std::io::Write;

/// The lines of a report, from the top of a page down, the totals by level.
static REPORT_LINES: [PrintedLine; 8] = [
    PrintedLine::Heading(HeadingLine::First),
    PrintedLine::Heading(HeadingLine::Second),
    PrintedLine::Heading(HeadingLine::Third),
    PrintedLine::Body(BodyLine::Detail),
    PrintedLine::Body(BodyLine::Total(Level::Minor)),
    PrintedLine::Body(BodyLine::Total(Level::Intermediate)),
    PrintedLine::Body(BodyLine::Total(Level::Major)),
    PrintedLine::Body(BodyLine::Total(Level::Final)),
];

#[tactic(auto, unfolding(crate::specs::SheetsWords::Layout::key))]
// What the letters stand for.
fn key() -> &'static str
    ensures { result.now ≡ layout.key }
{
    wording::WHAT_CHARACTERS_STAND_FOR
}

// Whether the chart puts something on a line of the report.
fn has_items(chart: &Chart, printed: PrintedLine) -> bool
    ensures { result ≡ layout.has_items chart.now.lines printed }
{
    chart
        .lines()
        .iter()
        .any(|line| item_on(chart, printed, &line.statement).is_some())
}

// Which line of the report.
fn write_title(text: &mut Vec<u8>, printed: PrintedLine) -> io::Result<()>
    ensures { OnOk result (text.new.items ≡ text.old.items ++ layout.title printed) }
{
    match printed {
        PrintedLine::Heading(line) => write_numbered(text, wording::HEAD, line.number()),
        PrintedLine::Body(BodyLine::Detail) => text.write_all(b"DETAIL"),
        PrintedLine::Body(BodyLine::Total(level)) => {
            write_numbered(text, wording::TOTAL, level.number())
        }
    }
}

// A line of the report under the ruler, and its items below.
fn write_line(
    text: &mut Vec<u8>,
    chart: &Chart,
    printed: PrintedLine,
    characters: &mut Vec<u8>,
) -> io::Result<()>
    ensures { OnOk result (text.new.items ≡ text.old.items ++ layout.line_drawn chart.now.lines printed) }
{
    let drawn = draw_line(chart, printed, characters)?;
    text.write_all(b"\n")?;
    write_title(text, printed)?;
    text.write_all(b"\n")?;
    text.write_all(wheel_ruler().as_bytes())?;
    text.write_all(without_trailing_blanks(&drawn))?;
    text.write_all(b"\n")?;
    write_items(text, chart, printed)
}

// A line of the report, if the chart puts something on it.
fn write_section(
    text: &mut Vec<u8>,
    chart: &Chart,
    printed: PrintedLine,
    characters: &mut Vec<u8>,
) -> io::Result<()>
    ensures { OnOk result (text.new.items ≡ text.old.items ++ layout.section chart.now.lines printed) }
{
    if has_items(chart, printed) {
        write_line(text, chart, printed, characters)
    } else {
        Ok(())
    }
}

#[tactic(auto, using(crate::proofs::SheetsWords::Growing::piece_more))]
// The sections of some lines of the report.
fn write_sections(
    text: &mut Vec<u8>,
    chart: &Chart,
    report_lines: &[PrintedLine],
    characters: &mut Vec<u8>,
) -> io::Result<()>
    ensures { OnOk result (text.new.items ≡ text.old.items ++ layout.sections chart.now.lines report_lines.now) }
{
    for printed in report_lines {
        write_section(text, chart, *printed, characters)?;
    }
    Ok(())
}

/// Writes the layout of a chart behind a text: what its letters stand for, and each line of the chart's report on which it puts something,
/// under a ruler of the wheels, with its items below by their wheels and their lines of the chart.
///
/// # Errors
///
/// `OutOfMemory` alone. The text may then have gained a part of the layout.
pub fn write_layout(alloc: Global, text: &mut Vec<u8>, chart: &Chart) -> io::Result<()>
    ensures { OnOk result (text.new.items ≡ text.old.items ++ layout.layout chart.now.lines) }
{
    let mut characters = Vec::new(alloc);
    text.write_all(key().as_bytes())?;
    write_sections(text, chart, &REPORT_LINES, &mut characters)
}
