//! The origin of a pilot that is transferred.

ghost use Rattle.std.specs.Prelude.{◌≡◌, ◌++◌, OnOk};
ghost use Rattle.explain_origins.specs.Pilots.{pickup_line, pickup_text, pilot_text, since_line};
ghost use Rattle.explain_origins.specs.Storage.{led_text};

use crate::changes::PassedCycle;
use crate::holes::{Hole, hole_in_cycle, write_brush, write_column};
use crate::storage::write_row;
use card_code::{Card, Row};
use explain_ledgers::ledgers::ledger_text::write_cycle;
use hubs::Hub;
use hubs::setups::Setup;
use std::io;
use std::io::Write;

// The pickup of a pilot.
fn write_pickup(text: &mut Vec<u8>, pilot: u8) -> io::Result<()>
    ensures { OnOk result (text.new.items ≡ text.old.items ++ pickup_text pilot) }
{
    write!(text, "PIX.{pilot}")
}

// What led to a pickup, and which hole that was.
fn write_led(text: &mut Vec<u8>, hole: Option<Hole>, card: u32, pilot: u8) -> io::Result<()>
    ensures { OnOk result (text.new.items ≡ text.old.items ++ led_text hole card (pickup_text pilot)) }
{
    let Some(hole) = hole else {
        write_pickup(text, pilot)?;
        return text.write_all(b", by no wire straight from a card");
    };
    write_brush(text, hole)?;
    text.write_all(b" -> ")?;
    write_pickup(text, pilot)?;
    write_column(text, hole, card)
}

// The line of the row at which pilots are picked up.
fn write_pickup_line(
    text: &mut Vec<u8>,
    setup: &Setup,
    cards: &[Card],
    since: PassedCycle,
    pilot: u8,
) -> io::Result<()>
    ensures { OnOk result (text.new.items ≡ text.old.items ++ pickup_line setup.now cards.now since pilot) }
{
    let entry = Hub::PIX(pilot);
    let hole = hole_in_cycle(setup, cards, since.cycle, since.card, Row::Eleven, entry);
    write_row(text, Row::Eleven)?;
    write_led(text, hole, since.card, pilot)?;
    text.write_all(b"\n")
}

// By which cycle a pilot is transferred.
fn write_since(text: &mut Vec<u8>, pilot: u8, since: PassedCycle) -> io::Result<()>
    ensures { OnOk result (text.new.items ≡ text.old.items ++ since_line pilot since) }
{
    write!(text, "pilot {pilot} transferred by ")?;
    write_cycle(text, since.cycle, since.card)?;
    text.write_all(b"\n")
}

// What is told of a pilot that is transferred, by the last cycle that moved the pilots.
pub(crate) fn write_pilot(
    text: &mut Vec<u8>,
    setup: &Setup,
    cards: &[Card],
    pilot: u8,
    last: Option<PassedCycle>,
) -> io::Result<()>
    ensures { OnOk result (text.new.items ≡ text.old.items ++ pilot_text setup.now cards.now pilot last) }
{
    let Some(since) = last else {
        return Ok(());
    };
    write_since(text, pilot, since)?;
    write_pickup_line(text, setup, cards, since, pilot)
}
