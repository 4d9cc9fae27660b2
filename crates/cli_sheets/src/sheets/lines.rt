//! A line of the report, drawn.

ghost use Rattle.std.specs.Prelude.{◌≡◌, ◌++◌, ◌-◌, ℕ, IfOk, OnOk, ◌<◌, ◌+◌, slice_index, true};
ghost use Rattle.chart_lines.specs.ChartsWords.Literals.{literal_in};
ghost use Rattle.report_definition.specs.Edits.{marked};
ghost use Rattle.cli_sheets.specs.SheetsWords.Helper.{over};
ghost use Rattle.cli_sheets.specs.SheetsWords.Layout as layout;

use crate::sheets::runs::write_run;
use chart_line_rules::print_rules::{Figure, Item, PrintedLine};
use chart_lines::charts::{Mark, Statement};
use chart_rules::Chart;
use std::io;
use std::io::Write;

/// How many wheels a line has.
pub(crate) const WHEELS: usize = 120;

// What a line of the chart puts on this line of the report.
pub(crate) fn item_on(chart: &Chart, printed: PrintedLine, statement: &Statement) -> Option<Item>
    ensures { result ≡ layout.item_on chart.now.lines printed statement.now }
{
    let item = chart.item(statement)?;
    if item.line.is(printed) {
        Some(item)
    } else {
        None
    }
}

// The mark of an amount, as of a negative one.
fn write_mark(text: &mut Vec<u8>, mark: Option<Mark>) -> io::Result<()>
    ensures { OnOk result (text.new.items ≡ text.old.items ++ marked mark true) }
{
    match mark {
        Some(Mark::Credit) => text.write_all(b"CR"),
        Some(Mark::Minus) => text.write_all(b"-"),
        None => Ok(()),
    }
}

// An amount.
fn write_figure(text: &mut Vec<u8>, figure: Figure) -> io::Result<()>
    ensures { OnOk result (text.new.items ≡ text.old.items ++ layout.drawn_figure figure) }
{
    let digits = figure.digits as usize;
    let free = digits.saturating_sub(usize::from(figure.decimals.max(1)));
    write_run(text, b'z', free)?;
    if figure.decimals > 0 {
        text.write_all(b".")?;
    }
    write_run(text, b'9', digits - free)?;
    write_mark(text, figure.mark)
}

// A field.
fn write_field(text: &mut Vec<u8>, item: Item) -> io::Result<()>
    ensures { OnOk result (text.new.items ≡ text.old.items ++ layout.drawn_field item.figure (item.end - item.first)) }
{
    match item.figure {
        Some(figure) => write_figure(text, figure),
        None => write_run(text, b'x', item.end.saturating_sub(item.first)),
    }
}

// What is drawn of an item.
fn write_drawn(text: &mut Vec<u8>, statement: &Statement, item: Item) -> io::Result<()>
    ensures { OnOk result (text.new.items ≡ text.old.items ++ layout.drawn (literal_in statement.now) item) }
{
    match statement {
        Statement::Head { literal, .. }
        | Statement::DetailLiteral { literal, .. }
        | Statement::TotalLiteral { literal, .. } => text.write_all(literal.characters()),
        _ => write_field(text, item),
    }
}

// The character on a wheel where characters stand from a wheel on, and another below them.
fn over(first: usize, characters: &[u8], wheel: usize, below: u8) -> u8
    ensures { result ≡ over first characters.now wheel below }
{
    if first <= wheel && wheel - first < characters.len() {
        characters[wheel - first]
    } else {
        below
    }
}

// Puts characters from a wheel on over what stands on a line.
fn put(line: &mut [u8; WHEELS], first: usize, characters: &[u8])
    ensures { (k : ℕ) → k < 120 → slice_index line.new k ≡ over first characters.now (k + 1) (slice_index line.old k) }
{
    for place in 0..WHEELS {
        line[place] = over(first, characters, place + 1, line[place]);
    }
}

// The wheels of a line of the report. The first item that comes at a wheel is put there last.
pub(crate) fn draw_line(
    chart: &Chart,
    printed: PrintedLine,
    characters: &mut Vec<u8>,
) -> io::Result<[u8; WHEELS]>
    ensures { IfOk result (λ line. line ≡ layout.drawn_line chart.now.lines printed) }
{
    let mut drawn = [b' '; WHEELS];
    let lines = chart.lines();
    for place in (0..lines.len()).rev() {
        let statement = &lines[place].statement;
        if let Some(item) = item_on(chart, printed, statement) {
            characters.clear();
            write_drawn(characters, statement, item)?;
            put(&mut drawn, item.first, characters.as_slice());
        }
    }
    Ok(drawn)
}
