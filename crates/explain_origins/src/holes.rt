//! Holes of the cards in the machine from which a wire leads to an entry.

ghost use Rattle.std.specs.Prelude.{◌≡◌, ◌≤◌, ◌-◌, ◌++◌, OnOk, slice_get};
ghost use Rattle.explain_origins.specs.Holes.{brush, brush_letters, brush_text, card_at, column_text, column_to, hole_at, hole_in_cycle, hole_to, leads_to};
ghost use Rattle.hubs.specs.SetupsWords.Wiring.{is_wired};
ghost use Rattle.stations.specs.Punches.{is_punched_at};

use card_code::{Card, Row};
use hubs::Hub;
use hubs::setups::Setup;
use net::Cycle;
use std::io;
use std::io::Write;

/// How many columns a card has.
const COLUMNS: u8 = 80;

/// A reading station.
#[derive(Clone, Copy, Debug, PartialEq, Eq)]
pub enum Station {
    /// First reading: the next card stands there while a card is read.
    First,
    /// Second reading, where a card is read.
    Second,
}

/// A hole of a card at a station, in a row that is known.
#[derive(Clone, Copy, Debug, PartialEq, Eq)]
pub struct Hole {
    /// The station.
    pub station: Station,
    /// The column, 1 to 80.
    pub column: u8,
}

// Whether a card, by how many are before it in the deck, has a hole in a row of a column.
fn is_punched_at(cards: &[Card], place: usize, row: Row, column: u8) -> bool
    requires from { 1 ≤ column }
    requires to { column ≤ 80 }
    ensures { result ≡ is_punched_at (slice_get cards.now place) row column }
{
    match cards.get(place) {
        Some(card) => card.column(column).has_row(row),
        None => false,
    }
}

// The brush of a column at a station.
fn brush(station: Station, column: u8) -> Hub
    ensures { result ≡ brush station column }
{
    match station {
        Station::First => Hub::FR(column),
        Station::Second => Hub::SR(column),
    }
}

/// Whether a wire of a setup leads from an exit to an entry.
pub fn is_wired(setup: &Setup, exit: Hub, entry: Hub) -> bool
    ensures { result ≡ is_wired setup.now exit entry }
{
    setup.has(exit, entry)
}

// Whether a card has a hole in a row of a column, and from its brush at a station a wire leads to an entry.
fn leads_to(
    setup: &Setup,
    cards: &[Card],
    place: usize,
    station: Station,
    row: Row,
    entry: Hub,
    column: u8,
) -> bool
    requires from { 1 ≤ column }
    requires to { column ≤ 80 }
    ensures { result ≡ leads_to setup.now (slice_get cards.now place) station row entry column }
{
    is_punched_at(cards, place, row, column) && is_wired(setup, brush(station, column), entry)
}

// The lowest of so many columns that has such a hole.
fn column_to(
    setup: &Setup,
    cards: &[Card],
    place: usize,
    station: Station,
    row: Row,
    entry: Hub,
    columns: u8,
) -> Option<u8>
    requires { columns ≤ 80 }
    ensures { result ≡ column_to setup.now (slice_get cards.now place) station row entry columns }
{
    if columns == 0 {
        return None;
    }
    if let Some(column) = column_to(setup, cards, place, station, row, entry, columns - 1) {
        return Some(column);
    }
    if leads_to(setup, cards, place, station, row, entry, columns) {
        Some(columns)
    } else {
        None
    }
}

// The hole in the lowest of all columns.
fn hole_at(
    setup: &Setup,
    cards: &[Card],
    place: usize,
    station: Station,
    row: Row,
    entry: Hub,
) -> Option<Hole>
    ensures { result ≡ hole_at setup.now (slice_get cards.now place) station row entry }
{
    let column = column_to(setup, cards, place, station, row, entry, COLUMNS)?;
    Some(Hole { station, column })
}

/// A hole in a row from which a wire leads to an entry while a card is read: of this card, else of the next one. The cards are those of the
/// whole deck, and the card is told by its number from 1.
pub fn hole_to(setup: &Setup, cards: &[Card], card: u32, row: Row, entry: Hub) -> Option<Hole>
    ensures { result ≡ hole_to setup.now cards.now card row entry }
{
    let place = card as usize;
    let before = place.saturating_sub(1);
    if let Some(hole) = hole_at(setup, cards, before, Station::Second, row, entry) {
        return Some(hole);
    }
    hole_at(setup, cards, place, Station::First, row, entry)
}

// A hole from which a wire leads to an entry in a cycle: in the run-in the first card stands at first reading, and program and heading
// cycles read none.
pub(crate) fn hole_in_cycle(
    setup: &Setup,
    cards: &[Card],
    cycle: Cycle,
    card: u32,
    row: Row,
    entry: Hub,
) -> Option<Hole>
    ensures { result ≡ hole_in_cycle setup.now cards.now cycle card row entry }
{
    match cycle {
        Cycle::RunIn => hole_at(setup, cards, card as usize, Station::First, row, entry),
        Cycle::Card => hole_to(setup, cards, card, row, entry),
        Cycle::Prog(_, _) | Cycle::Head(_) => None,
    }
}

// The letters of the brushes of a station.
fn brush_letters(station: Station) -> &'static [u8]
    ensures { result.now ≡ brush_letters station }
{
    match station {
        Station::First => b"FR.",
        Station::Second => b"SR.",
    }
}

/// Puts behind a text the brush that reads a hole. Fails only if no memory is left.
pub fn write_brush(text: &mut Vec<u8>, hole: Hole) -> io::Result<()>
    ensures { OnOk result (text.new.items ≡ text.old.items ++ brush_text hole) }
{
    let column = hole.column;
    text.write_all(brush_letters(hole.station))?;
    write!(text, "{column}")
}

// The number of the card at a station while a card is read.
fn card_at(station: Station, card: u32) -> u64
    ensures { result ≡ card_at station card }
{
    match station {
        Station::First => u64::from(card) + 1,
        Station::Second => u64::from(card),
    }
}

/// Puts behind a text the column of a hole and its card, by the number of the card that is read. Fails only if no memory is left.
pub fn write_column(text: &mut Vec<u8>, hole: Hole, card: u32) -> io::Result<()>
    ensures { OnOk result (text.new.items ≡ text.old.items ++ column_text hole card) }
{
    let column = hole.column;
    let card = card_at(hole.station, card);
    write!(text, " (column {column} of card {card})")
}
