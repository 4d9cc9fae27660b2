//! Why the program cycles of a level run.

ghost use Rattle.std.specs.Prelude.{◌≡◌, ◌≤◌, ◌++◌, IfOk, OnOk};
ghost use Rattle.card_code.specs.Rows.{rows};
ghost use Rattle.explain_origins.specs.Levels.{called_by, called_text, card_text, called_to, calling_text, called_by_holes, calls, is_led_from, is_of_brushes, last_text, level_text, missing_text, no_row, others_lead, position_text, positions_text, runs_text, unlike_at, unlike_line, unlike_lines, unlike_text};

use crate::holes::{Hole, hole_to, is_wired, write_brush, write_column};
use crate::storage::write_row;
use card_code::{Card, ROWS, Row};
use hubs::Hub;
use hubs::setups::Setup;
use net::Cycle;
use std::alloc::{AllocError, Global};
use std::io;
use std::io::Write;

/// How many comparing positions there are.
const POSITIONS: u8 = 30;

/// How many levels can be called.
const LEVELS: u8 = 3;

/// How many brushes there are at both stations: they are the first exits by number.
const BRUSHES: u32 = 160;

/// How many other exits there are.
const OTHERS: u32 = 880;

// Whether a wire from a comparing position calls a level that is not below another.
fn calls(setup: &Setup, position: u8, from: u8, level: u8) -> bool
    ensures { result ≡ calls setup.now position from level }
{
    from <= level && is_wired(setup, Hub::CX(position), Hub::ST(level))
}

// The lowest of so many levels that it calls.
fn called_to(setup: &Setup, position: u8, from: u8, levels: u8) -> Option<u8>
    ensures { result ≡ called_to setup.now position from levels }
{
    if levels == 0 {
        return None;
    }
    if let Some(level) = called_to(setup, position, from, levels - 1) {
        return Some(level);
    }
    if calls(setup, position, from, levels) {
        Some(levels)
    } else {
        None
    }
}

// Whether a wire leads to an entry from the exit with a number.
fn is_led_from(setup: &Setup, entry: Hub, number: u32) -> bool
    requires from { 1 ≤ number }
    requires to { number ≤ 1936 }
    ensures { result ≡ is_led_from setup.now entry number }
{
    let Some(exit) = Hub::of_number(number) else {
        unreachable!();
    };
    is_wired(setup, exit, entry)
}

// Whether one leads there from one of so many exits behind the brushes.
#[tactic(auto, unfolding(crate::specs::Levels::others_lead))]
pub(crate) fn others_lead(setup: &Setup, entry: Hub, count: u32) -> bool
    requires { count ≤ 880 }
    ensures { result ≡ others_lead setup.now entry count }
{
    if count == 0 {
        return false;
    }
    is_led_from(setup, entry, BRUSHES + count) || others_lead(setup, entry, count - 1)
}

// Whether wires lead to an entry from brushes alone.
#[tactic(auto, unfolding(crate::specs::Levels::is_of_brushes))]
fn is_of_brushes(setup: &Setup, entry: Hub) -> bool
    ensures { result ≡ is_of_brushes setup.now entry }
{
    !others_lead(setup, entry, OTHERS)
}

// The lowest level that a comparing position calls, if wires lead to both of its entries from brushes alone.
fn called_by_holes(setup: &Setup, position: u8, from: u8) -> Option<u8>
    ensures { result ≡ called_by_holes setup.now position from }
{
    if is_of_brushes(setup, Hub::CA(position)) && is_of_brushes(setup, Hub::CB(position)) {
        called_to(setup, position, from, LEVELS)
    } else {
        None
    }
}

// No hole in a row leads to an entry of a comparing position.
fn write_no_row(text: &mut Vec<u8>, row: Row) -> io::Result<()>
    ensures { OnOk result (text.new.items ≡ text.old.items ++ no_row row) }
{
    let number = row.number();
    write!(text, ", and no row {number} to ")
}

fn write_missing(text: &mut Vec<u8>, position: u8, row: Row, entry: &[u8]) -> io::Result<()>
    ensures { OnOk result (text.new.items ≡ text.old.items ++ missing_text position row entry.now) }
{
    write_no_row(text, row)?;
    text.write_all(entry)?;
    write!(text, "{position}\n")
}

// A hole in a row of which a wire leads to one entry of a comparing position, while none in that row leads to the other.
fn write_unlike(
    text: &mut Vec<u8>,
    hole: Hole,
    card: u32,
    position: u8,
    row: Row,
    entry: &[u8],
    other: &[u8],
) -> io::Result<()>
    ensures { OnOk result (text.new.items ≡ text.old.items ++ unlike_text hole card position row entry.now other.now) }
{
    write_brush(text, hole)?;
    text.write_all(b" -> ")?;
    text.write_all(entry)?;
    write!(text, "{position}")?;
    write_column(text, hole, card)?;
    write_missing(text, position, row, other)
}

// The line of a row at a comparing position, by the holes of which wires lead to its entries.
fn write_unlike_line(
    text: &mut Vec<u8>,
    one: Option<Hole>,
    other: Option<Hole>,
    card: u32,
    position: u8,
    row: Row,
) -> io::Result<()>
    ensures { OnOk result (text.new.items ≡ text.old.items ++ unlike_line one other card position row) }
{
    match (one, other) {
        (Some(one), None) => {
            write_row(text, row)?;
            write_unlike(text, one, card, position, row, b"CA.", b"CB.")
        }
        (None, Some(other)) => {
            write_row(text, row)?;
            write_unlike(text, other, card, position, row, b"CB.", b"CA.")
        }
        (Some(_), Some(_)) | (None, None) => Ok(()),
    }
}

// The line of a row at a comparing position.
fn write_unlike_at(
    text: &mut Vec<u8>,
    setup: &Setup,
    cards: &[Card],
    card: u32,
    position: u8,
    row: Row,
) -> io::Result<()>
    ensures { OnOk result (text.new.items ≡ text.old.items ++ unlike_at setup.now cards.now card position row) }
{
    let one = hole_to(setup, cards, card, row, Hub::CA(position));
    let other = hole_to(setup, cards, card, row, Hub::CB(position));
    write_unlike_line(text, one, other, card, position, row)
}

// The lines of some rows.
fn write_unlike_lines(
    text: &mut Vec<u8>,
    setup: &Setup,
    cards: &[Card],
    card: u32,
    position: u8,
    rows: &[Row],
) -> io::Result<()>
    ensures { OnOk result (text.new.items ≡ text.old.items ++ unlike_lines setup.now cards.now card position rows.now) }
{
    for row in rows {
        write_unlike_at(text, setup, cards, card, position, *row)?;
    }
    Ok(())
}

// A card cycle.
fn write_card(text: &mut Vec<u8>, card: u32) -> io::Result<()>
    ensures { OnOk result (text.new.items ≡ text.old.items ++ card_text card) }
{
    write!(text, "Card {card}")
}

// Which level runs by which card.
fn write_runs(text: &mut Vec<u8>, level: u8, card: u32) -> io::Result<()>
    ensures { OnOk result (text.new.items ≡ text.old.items ++ runs_text level card) }
{
    write!(text, "Prog {level} runs by ")?;
    write_card(text, card)?;
    Ok(())
}

// The wire of a comparing position that calls a level.
fn write_calling(text: &mut Vec<u8>, position: u8, called: u8) -> io::Result<()>
    ensures { OnOk result (text.new.items ≡ text.old.items ++ calling_text position called) }
{
    write!(text, ": CX.{position} -> ST.{called}\n")
}

// What is told of a position that calls a level, by its lines: nothing if there are none.
fn write_called(
    text: &mut Vec<u8>,
    level: u8,
    card: u32,
    position: u8,
    called: u8,
    lines: &[u8],
) -> io::Result<()>
    ensures { OnOk result (text.new.items ≡ text.old.items ++ called_text level card position called lines.now) }
{
    if lines.is_empty() {
        return Ok(());
    }
    write_runs(text, level, card)?;
    write_calling(text, position, called)?;
    text.write_all(lines)
}

// What is told of a position.
#[tactic(auto, unfolding(crate::specs::Levels::position_text))]
fn position_text(
    alloc: Global,
    setup: &Setup,
    cards: &[Card],
    card: u32,
    level: u8,
    position: u8,
) -> io::Result<Vec<u8>>
    ensures { IfOk result (λ text. text.items ≡ position_text setup.now cards.now card level position) }
{
    let mut text = Vec::new(alloc);
    let Some(called) = called_by_holes(setup, position, level) else {
        return Ok(text);
    };
    let mut lines = Vec::new(alloc);
    write_unlike_lines(&mut lines, setup, cards, card, position, &ROWS)?;
    write_called(&mut text, level, card, position, called, lines.as_slice())?;
    Ok(text)
}

// What is told of the lowest of so many positions of which something is.
#[tactic(auto, unfolding(crate::specs::Levels::positions_text))]
fn positions_text(
    alloc: Global,
    setup: &Setup,
    cards: &[Card],
    card: u32,
    level: u8,
    positions: u8,
) -> io::Result<Vec<u8>>
    ensures { IfOk result (λ text. text.items ≡ positions_text setup.now cards.now card level positions) }
{
    if positions == 0 {
        return Ok(Vec::new(alloc));
    }
    let lower = positions_text(alloc, setup, cards, card, level, positions - 1)?;
    if !lower.as_slice().is_empty() {
        return Ok(lower);
    }
    let here = position_text(alloc, setup, cards, card, level, positions)?;
    Ok(here)
}

// That the last card calls all levels.
fn last_text(alloc: Global, level: u8, card: u32) -> io::Result<Vec<u8>>
    ensures { IfOk result (λ text. text.items ≡ last_text level card) }
{
    let mut text = Vec::new(alloc);
    write_runs(&mut text, level, card)?;
    text.write_all(b", the last one\n")?;
    Ok(text)
}

// Why the program cycles of a level run behind a card.
fn level_text(
    alloc: Global,
    setup: &Setup,
    cards: &[Card],
    card: u32,
    level: u8,
) -> io::Result<Vec<u8>>
    ensures { IfOk result (λ text. text.items ≡ level_text setup.now cards.now card level) }
{
    if card as usize == cards.len() {
        last_text(alloc, level, card)
    } else {
        positions_text(alloc, setup, cards, card, level, POSITIONS)
    }
}

/// Why a cycle runs, if it is a program cycle, in a run of these cards through a setup, by how many cards were read: which card calls its level,
/// and by which hole, or that it is the last one. No text for other cycles, and if no comparing position tells it to whose entries wires
/// lead from brushes alone. Fails only if no memory is left.
pub fn called_by(
    alloc: Global,
    setup: &Setup,
    cards: &[Card],
    card: u32,
    cycle: Cycle,
) -> io::Result<Vec<u8>>
    ensures { IfOk result (λ text. text.items ≡ called_by setup.now cards.now card cycle) }
{
    match cycle {
        Cycle::Prog(level, _) => level_text(alloc, setup, cards, card, level.number()),
        Cycle::RunIn | Cycle::Card | Cycle::Head(_) => Ok(Vec::new(alloc)),
    }
}

// Puts behind a text why a cycle runs.
pub(crate) fn add_called_by(
    alloc: Global,
    text: &mut Vec<u8>,
    setup: &Setup,
    cards: &[Card],
    card: u32,
    cycle: Cycle,
) -> Result<(), AllocError>
    ensures { OnOk result (text.new.items ≡ text.old.items ++ called_by setup.now cards.now card cycle) }
{
    match called_by(alloc, setup, cards, card, cycle) {
        Ok(why) => Ok(text.extend_from_slice(why.as_slice())?),
        Err(_) => Err(AllocError),
    }
}
