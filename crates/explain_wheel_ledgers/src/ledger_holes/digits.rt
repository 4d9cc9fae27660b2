//! By which holes of a card, or by which ways, the digits of a number came in.

ghost use Rattle.std.specs.Prelude.{◌≡◌, ◌<◌, ◌≤◌, ◌+◌, ◌-◌, ◌++◌, ℕ, List, IfOk, OnOk};
ghost use Rattle.explain_ledgers.specs.CycleWays.Points.{ArePointsOf};
ghost use Rattle.explain_wheels.specs.ExplanationsWords.Explanations.{row_passing};
ghost use Rattle.explain_ledgers.specs.LedgersWords.Accounts.{IsAccount};
ghost use Rattle.explain_wheel_ledgers.specs.LedgerHoles.Positions.{entry_at};
ghost use Rattle.explain_wheel_ledgers.specs.LedgerHoles.Ways.{IsWayLine};
ghost use Rattle.explain_wheel_ledgers.specs.LedgerHoles.Digits.{AreDigitLines, IsDigitLine, IsLineBy, digit_label, hole_for, hole_line, row_of};

use crate::ledger_holes::positions::{Position, entry_at, position_in, write_entry};
use crate::ledger_holes::way_lines::way_told;
use crate::texts::put_together;
use card_code::{Card, ROWS, Row};
use explain_ledgers::ledgers::Account;
use explain_origins::{Hole, hole_to, write_brush, write_column};
use hubs::Hub;
use hubs::setups::Setup;
use machine::KeptPoint;
use net::Cycle;
use std::alloc::{AllocError, Global};
use std::io;
use std::io::Write;

// The row of a place in the order in which they pass.
fn row_at(place: usize) -> Row
    requires { place < 12 }
    ensures { result ≡ row_passing place }
{
    ROWS[place]
}

// The row of a digit, 1 to 9.
fn row_of(digit: u8) -> Row
    requires { digit ≤ 9 }
    ensures { result ≡ row_of digit }
{
    row_at(9 - digit as usize)
}

// What a line of a row begins with.
fn write_row(text: &mut Vec<u8>, row: Row) -> io::Result<()>
    ensures { OnOk result (text.new.items ≡ text.old.items ++ digit_label row) }
{
    let number = row.number();
    write!(text, "    row {number}:")
}

// The line of a row that came in at a position by a hole.
fn write_hole(
    text: &mut Vec<u8>,
    card: u32,
    at_position: Position,
    row: Row,
    hole: Hole,
) -> io::Result<()>
    ensures { OnOk result (text.new.items ≡ text.old.items ++ hole_line card at_position row hole) }
{
    write_row(text, row)?;
    text.write_all(b" ")?;
    write_brush(text, hole)?;
    text.write_all(b" -> ")?;
    write_entry(text, at_position)?;
    write_column(text, hole, card)?;
    text.write_all(b"\n")
}

// The same, alone.
fn hole_line(
    alloc: Global,
    card: u32,
    at_position: Position,
    row: Row,
    hole: Hole,
) -> Result<Vec<u8>, AllocError>
    ensures { IfOk result (λ line. line.items ≡ hole_line card at_position row hole) }
{
    let mut line = Vec::new(alloc);
    match write_hole(&mut line, card, at_position, row, hole) {
        Ok(()) => Ok(line),
        Err(_) => Err(AllocError),
    }
}

// What a line of a row begins with, alone.
fn row_front(alloc: Global, row: Row) -> Result<Vec<u8>, AllocError>
    ensures { IfOk result (λ front. front.items ≡ digit_label row) }
{
    let mut front = Vec::new(alloc);
    match write_row(&mut front, row) {
        Ok(()) => Ok(front),
        Err(_) => Err(AllocError),
    }
}

// A hole in a row from which a wire leads to an entry in a cycle; it is told of card cycles alone.
fn hole_for(
    setup: &Setup,
    cards: &[Card],
    cycle: Cycle,
    card: u32,
    row: Row,
    entry: Hub,
) -> Option<Hole>
    ensures { result ≡ hole_for setup.now cards.now cycle card row entry }
{
    match cycle {
        Cycle::Card => hole_to(setup, cards, card, row, entry),
        Cycle::RunIn | Cycle::Prog(_, _) | Cycle::Head(_) => None,
    }
}

// The line of a digit, 1 to 9, that came in at a position, by its way.
fn row_line(
    alloc: Global,
    setup: &Setup,
    points: &[KeptPoint; 14],
    at_position: Position,
    digit: u8,
) -> Result<Vec<u8>, AllocError>
    requires { digit ≤ 9 }
    ensures { (deck : List (List ℕ)) (passed : ℕ) (is : ArePointsOf setup.now deck passed points.now)
        → IfOk result (λ line. IsWayLine is.has (10 - digit) (entry_at at_position) (digit_label (row_of digit)) line.items) }
{
    let front = row_front(alloc, row_of(digit))?;
    let entry = entry_at(at_position);
    let place = 10 - digit as usize;
    let line = way_told(alloc, setup, points, place, entry, front.as_slice())?;
    Ok(line)
}

// The same, unless a wire leads there straight from a hole, which is then told.
fn line_by(
    alloc: Global,
    setup: &Setup,
    points: &[KeptPoint; 14],
    card: u32,
    at_position: Position,
    digit: u8,
    hole: Option<Hole>,
) -> Result<Vec<u8>, AllocError>
    requires { digit ≤ 9 }
    ensures { (deck : List (List ℕ)) (passed : ℕ) (is : ArePointsOf setup.now deck passed points.now)
        → IfOk result (λ line. IsLineBy is.has card at_position digit hole line.items) }
{
    match hole {
        Some(hole) => hole_line(alloc, card, at_position, row_of(digit), hole),
        None => row_line(alloc, setup, points, at_position, digit),
    }
}

// The line of a digit that came in at a position; no row of a 0 comes in.
fn digit_line(
    alloc: Global,
    setup: &Setup,
    cards: &[Card],
    points: &[KeptPoint; 14],
    cycle: Cycle,
    card: u32,
    at_position: Position,
    digit: u8,
) -> Result<Vec<u8>, AllocError>
    requires { digit ≤ 9 }
    ensures { (passed : ℕ) (is : ArePointsOf setup.now cards.now passed points.now)
        → IfOk result (λ line. IsDigitLine is.has cycle card at_position digit line.items) }
{
    if digit == 0 {
        return Ok(Vec::new(alloc));
    }
    let entry = entry_at(at_position);
    let hole = hole_for(setup, cards, cycle, card, row_of(digit), entry);
    let line = line_by(alloc, setup, points, card, at_position, digit, hole)?;
    Ok(line)
}

// The lines of so many digits of a number, from a position on upwards; the top one comes first.
pub(crate) fn digit_lines(
    alloc: Global,
    setup: &Setup,
    cards: &[Card],
    points: &[KeptPoint; 14],
    cycle: Cycle,
    card: u32,
    account: Account,
    count: u8,
    position: u8,
    number: u64,
) -> Result<Vec<u8>, AllocError>
    requires account { IsAccount account }
    requires positions { count + position ≤ 17 }
    ensures { (passed : ℕ) (is : ArePointsOf setup.now cards.now passed points.now)
        → IfOk result (λ lines. AreDigitLines is.has cycle card account count position number lines.items) }
{
    if count == 0 {
        return Ok(Vec::new(alloc));
    }
    let above = digit_lines(
        alloc,
        setup,
        cards,
        points,
        cycle,
        card,
        account,
        count - 1,
        position + 1,
        number / 10,
    )?;
    let line = digit_line(
        alloc,
        setup,
        cards,
        points,
        cycle,
        card,
        position_in(account, position),
        (number % 10) as u8,
    )?;
    let lines = put_together(alloc, above.as_slice(), line.as_slice())?;
    Ok(lines)
}
