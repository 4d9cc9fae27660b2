//! The origin of the text that a storage unit holds.

ghost use Rattle.std.specs.Prelude.{◌≡◌, ◌<◌, ◌++◌, OnOk, length};
ghost use Rattle.explain_origins.specs.Storage.{column_line, column_of_exit, column_of_way, entry_text, is_read, led_text, line_at, lines_of, row_label, since_line, storage_line, storage_text};

use crate::changes::PassedCycle;
use crate::holes::{Hole, hole_in_cycle, write_brush, write_column};
use card_code::{Card, ROWS, Row};
use explain_ledgers::ledgers::ledger_text::write_cycle;
use hubs::Hub;
use hubs::setups::Setup;
use std::io;
use std::io::Write;

// The column of a storage unit whose exit a hub is.
fn column_of_exit(unit: u8, hub: Hub) -> Option<u8>
    ensures { result ≡ column_of_exit unit hub }
{
    match hub {
        Hub::SX(own, column) if own == unit => Some(column),
        _ => None,
    }
}

// The column of a storage unit at whose exit a way begins, if there is one.
fn column_of_way(unit: u8, way: &Option<Vec<Hub>>) -> Option<u8>
    ensures { result ≡ column_of_way unit way.now }
{
    match way {
        Some(way) => column_of_exit(unit, *way.first()?),
        None => None,
    }
}

// Whether one of some ways begins at an exit of a storage unit, 1 to 4.
pub(crate) fn is_read(unit: u8, ways: &[Option<Vec<Hub>>]) -> bool
    ensures { result ≡ is_read unit ways.now }
{
    for way in ways {
        if column_of_way(unit, way).is_some() {
            return true;
        }
    }
    false
}

// An entry of a storage unit.
fn write_entry(text: &mut Vec<u8>, unit: u8, column: u8) -> io::Result<()>
    ensures { OnOk result (text.new.items ≡ text.old.items ++ entry_text unit column) }
{
    write!(text, "SE.{unit}.{column}")
}

// What led to the entry of a column, and which hole that was.
fn write_led(
    text: &mut Vec<u8>,
    hole: Option<Hole>,
    card: u32,
    unit: u8,
    column: u8,
) -> io::Result<()>
    ensures { OnOk result (text.new.items ≡ text.old.items ++ led_text hole card (entry_text unit column)) }
{
    let Some(hole) = hole else {
        write_entry(text, unit, column)?;
        return text.write_all(b", by no wire straight from a card");
    };
    write_brush(text, hole)?;
    text.write_all(b" -> ")?;
    write_entry(text, unit, column)?;
    write_column(text, hole, card)
}

// What a line of a row begins with.
pub(crate) fn write_row(text: &mut Vec<u8>, row: Row) -> io::Result<()>
    ensures { OnOk result (text.new.items ≡ text.old.items ++ row_label row) }
{
    let number = row.number();
    write!(text, "  row {number}: ")
}

// The line of a row that a column of a unit took in.
fn write_storage_line(
    text: &mut Vec<u8>,
    setup: &Setup,
    cards: &[Card],
    since: PassedCycle,
    unit: u8,
    row: Row,
    column: u8,
) -> io::Result<()>
    ensures { OnOk result (text.new.items ≡ text.old.items ++ storage_line setup.now cards.now since unit row column) }
{
    let entry = Hub::SE(unit, column);
    let hole = hole_in_cycle(setup, cards, since.cycle, since.card, row, entry);
    write_row(text, row)?;
    write_led(text, hole, since.card, unit, column)?;
    text.write_all(b"\n")
}

// That line, if a way at the row begins at an exit of the unit.
fn write_column_line(
    text: &mut Vec<u8>,
    setup: &Setup,
    cards: &[Card],
    since: PassedCycle,
    unit: u8,
    row: Row,
    column: Option<u8>,
) -> io::Result<()>
    ensures { OnOk result (text.new.items ≡ text.old.items ++ column_line setup.now cards.now since unit row column) }
{
    match column {
        Some(column) => write_storage_line(text, setup, cards, since, unit, row, column),
        None => Ok(()),
    }
}

// The line of the row of a place in the order of the points.
fn write_line_at(
    text: &mut Vec<u8>,
    setup: &Setup,
    cards: &[Card],
    since: PassedCycle,
    unit: u8,
    ways: &[Option<Vec<Hub>>],
    place: usize,
) -> io::Result<()>
    requires place { place < 12 }
    requires ways { length ways.now ≡ 12 }
    ensures { OnOk result (text.new.items ≡ text.old.items ++ line_at setup.now cards.now since unit ways.now place) }
{
    let column = column_of_way(unit, &ways[place]);
    write_column_line(text, setup, cards, since, unit, ROWS[place], column)
}

// The lines of all rows.
fn write_lines(
    text: &mut Vec<u8>,
    setup: &Setup,
    cards: &[Card],
    since: PassedCycle,
    unit: u8,
    ways: &[Option<Vec<Hub>>],
) -> io::Result<()>
    requires { length ways.now ≡ 12 }
    ensures { OnOk result (text.new.items ≡ text.old.items ++ lines_of setup.now cards.now since unit ways.now) }
{
    for place in 0..12 {
        write_line_at(text, setup, cards, since, unit, ways, place)?;
    }
    Ok(())
}

// Since which cycle a unit holds its text.
fn write_since(text: &mut Vec<u8>, unit: u8, since: PassedCycle) -> io::Result<()>
    ensures { OnOk result (text.new.items ≡ text.old.items ++ since_line unit since) }
{
    write!(text, "storage {unit} since ")?;
    write_cycle(text, since.cycle, since.card)?;
    text.write_all(b"\n")
}

// What is told of a storage unit, 1 to 4, by the last cycle that changed its text: for each of some ways that begins at an exit of the unit, at
// the rows of a cycle, by which hole the row came in.
pub(crate) fn write_storage(
    text: &mut Vec<u8>,
    setup: &Setup,
    cards: &[Card],
    unit: u8,
    ways: &[Option<Vec<Hub>>],
    last: Option<PassedCycle>,
) -> io::Result<()>
    requires { length ways.now ≡ 12 }
    ensures { OnOk result (text.new.items ≡ text.old.items ++ storage_text setup.now cards.now unit ways.now last) }
{
    let Some(since) = last else {
        return Ok(());
    };
    write_since(text, unit, since)?;
    write_lines(text, setup, cards, since, unit, ways)
}
