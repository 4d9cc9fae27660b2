//! The items of a line of the report, told.

ghost use Rattle.std.specs.Prelude.{◌≡◌, ◌++◌, OnOk, option_to_list};
ghost use Rattle.std.specs.List.{flat_map};
ghost use Rattle.cli_sheets.specs.SheetsWords.Layout as layout;

use crate::sheets::lines::item_on;
use crate::wording;
use chart_line_rules::print_rules::{Item, PrintedLine};
use chart_lines::charts::{DetailOption, Line, Name, Statement};
use chart_numerals::{write_between, write_number, write_numbered};
use chart_rules::Chart;
use std::io;
use std::io::Write;

// The wheels of an item.
fn write_wheels(text: &mut Vec<u8>, item: Item) -> io::Result<()>
    ensures { OnOk result (text.new.items ≡ text.old.items ++ layout.wheels_told item) }
{
    if item.end.saturating_sub(item.first) == 1 {
        return write_numbered(text, wording::WHEEL, item.first);
    }
    write_numbered(text, wording::WHEELS, item.first)?;
    write_numbered(text, " to ", item.end.saturating_sub(1))
}

// How a field is shown on the line of a card.
fn write_option(text: &mut Vec<u8>, shown: DetailOption) -> io::Result<()>
    ensures { OnOk result (text.new.items ≡ text.old.items ++ layout.option_told shown) }
{
    match shown {
        DetailOption::Indicated(level) => {
            write_numbered(text, wording::ON_THE_FIRST_CARD, level.number())
        }
        DetailOption::Plain | DetailOption::Marked(_) => Ok(()),
    }
}

// A literal between apostrophes.
fn write_literal(text: &mut Vec<u8>, literal: &[u8]) -> io::Result<()>
    ensures { OnOk result (text.new.items ≡ text.old.items ++ layout.literal_told literal.now) }
{
    text.write_all(b"'")?;
    text.write_all(literal)?;
    text.write_all(b"'")
}

// A field on the line of a card.
fn write_shown(text: &mut Vec<u8>, name: &Name, shown: DetailOption) -> io::Result<()>
    ensures { OnOk result (text.new.items ≡ text.old.items ++ layout.shown_told name.now shown) }
{
    text.write_all(name.as_bytes())?;
    write_option(text, shown)
}

// A total.
fn write_total(text: &mut Vec<u8>, name: &Name) -> io::Result<()>
    ensures { OnOk result (text.new.items ≡ text.old.items ++ layout.total_told name.now) }
{
    text.write_all(wording::TOTAL_OF)?;
    text.write_all(name.as_bytes())
}

// What an item shows.
fn write_content(text: &mut Vec<u8>, statement: &Statement) -> io::Result<()>
    ensures { OnOk result (text.new.items ≡ text.old.items ++ layout.content_told statement.now) }
{
    match statement {
        Statement::Head { literal, .. }
        | Statement::DetailLiteral { literal, .. }
        | Statement::TotalLiteral { literal, .. } => write_literal(text, literal.characters()),
        Statement::DetailField { name, shown, .. } => write_shown(text, name, *shown),
        Statement::TotalText { name, .. } => text.write_all(name.as_bytes()),
        Statement::TotalAmount(total) => write_total(text, &total.name),
        _ => Ok(()),
    }
}

// An item by its wheels, what it shows, and its line of the chart.
fn write_item(text: &mut Vec<u8>, line: &Line, item: Item) -> io::Result<()>
    ensures { OnOk result (text.new.items ≡ text.old.items ++ layout.item_told line.now item) }
{
    write_wheels(text, item)?;
    text.write_all(b": ")?;
    write_content(text, &line.statement)?;
    write_between(text, wording::OF_LINE, line.number, ")\n")
}

// What a line of the chart puts on a line of the report, if it does.
fn write_item_on(
    text: &mut Vec<u8>,
    chart: &Chart,
    printed: PrintedLine,
    line: &Line,
) -> io::Result<()>
    ensures { OnOk result (text.new.items ≡ text.old.items
        ++ flat_map (layout.item_told line.now) (option_to_list (layout.item_on chart.now.lines printed line.now.statement))) }
{
    match item_on(chart, printed, &line.statement) {
        Some(item) => write_item(text, line, item),
        None => Ok(()),
    }
}

#[tactic(auto, using(crate::proofs::SheetsWords::Growing::piece_more))]
// The items of a line of the report, in the order of the chart.
pub(crate) fn write_items(text: &mut Vec<u8>, chart: &Chart, printed: PrintedLine) -> io::Result<()>
    ensures { OnOk result (text.new.items ≡ text.old.items ++ layout.items_told chart.now.lines printed) }
{
    for line in chart.lines() {
        write_item_on(text, chart, printed, line)?;
    }
    Ok(())
}
