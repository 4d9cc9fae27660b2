//! The totals of an amount by their levels, and the transfer of one to the next.

ghost use Rattle.std.specs.Prelude.{◌≡◌, ◌↔◌, ◌≤◌, ℕ, OnOk, IsTrue, MatchOption};
ghost use Rattle.chart_lines.specs.ChartsWords.Levels.{level_number};
ghost use Rattle.wiring_lines.specs.LineWires.HelperAdds.{Adds};
ghost use Rattle.wiring_totals.specs.HelperCounters.{IsCounterOnPanel, positions_of};
ghost use Rattle.wiring_totals.specs.HelperLevels.{HasCounterFor, NextWires, total_at};
ghost use Rattle.wiring_totals.specs.HelperTotalRows.{SignedTransfer, TransferDigits, TransferSense};
ghost use Rattle.wiring_lines.specs.Below.wiring_table.Parts.{IsLowest, IsNextHigher, is_total_at};

use crate::counter::{Control, place_of, top_group, wire_controls};
use chart_lines::charts::{Level, Name, SignRule, Statement, TotalLine};
use chart_plans::plans::{Plan, TotalCounter};
use chart_rules::Chart;
use hubs::Hub;
use hubs::setups::Setup;
use std::alloc::AllocError;
use wiring_lines::line_wires::connect;

// Whether a line is a total of the amount of a name, at a level.
fn is_total_at(wanted: Name, wanted_level: u8, statement: &Statement) -> bool
    ensures { result ≡ is_total_at wanted wanted_level statement.now }
{
    match statement {
        Statement::TotalAmount(total) => {
            total.level.number() == wanted_level && total.name.is(wanted)
        }
        _ => false,
    }
}

// The number of the first line with a total of the amount of a name, at a level.
fn total_at(chart: &Chart, name: Name, level: u8) -> Option<u16>
    ensures { result ≡ total_at chart.now.lines name level }
{
    let line = chart
        .lines()
        .iter()
        .find(|line| is_total_at(name, level, &line.statement))?;
    Some(line.number)
}

/// Whether no total of the amount of a name has a level below one.
pub(crate) fn is_lowest(chart: &Chart, name: Name, level: Level) -> bool
    ensures { IsTrue result ↔ IsLowest chart.now.lines name (level_number level) }
{
    for lower in 0..level.number() {
        if total_at(chart, name, lower).is_some() {
            return false;
        }
    }
    true
}

// The line of the next higher total of the amount of a name above a level.
fn next_higher(chart: &Chart, name: Name, level: Level) -> Option<u16>
    ensures { MatchOption result
        ((number : ℕ) → ¬ IsNextHigher chart.now.lines name (level_number level) number)
        (IsNextHigher chart.now.lines name (level_number level)) }
{
    for higher in level.number() + 1..5 {
        if let Some(number) = total_at(chart, name, higher) {
            return Some(number);
        }
    }
    None
}

// Wires the digits of a total to another counter.
fn wire_transfer_digits(
    setup: &mut Setup,
    digits: u16,
    counter: TotalCounter,
    higher: TotalCounter,
) -> Result<(), AllocError>
    requires counter { IsCounterOnPanel counter }
    requires wide { digits ≤ positions_of counter }
    requires higher { IsCounterOnPanel higher }
    requires higher_wide { digits ≤ positions_of higher }
    ensures { OnOk result (Adds (TransferDigits digits counter higher) setup.old setup.new) }
{
    for place in 0..digits as u8 {
        let position = place + 1;
        let (group, place) = place_of(counter, position);
        let (upper, upper_place) = place_of(higher, position);
        connect(setup, Hub::GX(group, place), Hub::GE(upper, upper_place))?;
    }
    Ok(())
}

// Wires the higher counter so that it adds the lower one, or subtracts it where the latch of that is set.
fn wire_signed_transfer(
    setup: &mut Setup,
    program: u8,
    counter: TotalCounter,
    higher: TotalCounter,
) -> Result<(), AllocError>
    requires program { (1 ≤ program) × (program ≤ 4) }
    requires counter { IsCounterOnPanel counter }
    requires higher { IsCounterOnPanel higher }
    ensures { OnOk result (Adds (SignedTransfer program counter higher) setup.old setup.new) }
{
    let top = top_group(counter);
    connect(setup, Hub::PX(program, 3), Hub::BAC(top, 2))?;
    wire_controls(setup, Hub::BAN(top, 2), Control::Plus, higher)?;
    wire_controls(setup, Hub::BAT(top, 2), Control::Minus, higher)
}

// Wires what the higher counter does with the lower one.
fn wire_transfer_sense(
    setup: &mut Setup,
    level: Level,
    counter: TotalCounter,
    higher: TotalCounter,
    rule: Option<SignRule>,
) -> Result<(), AllocError>
    requires counter { IsCounterOnPanel counter }
    requires higher { IsCounterOnPanel higher }
    ensures { OnOk result (Adds (TransferSense level counter higher rule) setup.old setup.new) }
{
    let program = level.number();
    match rule {
        Some(_) => wire_signed_transfer(setup, program, counter, higher),
        None => wire_controls(setup, Hub::PX(program, 3), Control::Plus, higher),
    }
}

/// Wires the transfer of a total to the next higher one of its amount, if there is one.
pub(crate) fn wire_transfer(
    setup: &mut Setup,
    chart: &Chart,
    plan: &Plan,
    total: &TotalLine,
    counter: TotalCounter,
    rule: Option<SignRule>,
) -> Result<(), AllocError>
    requires counter { IsCounterOnPanel counter }
    requires wide { total.now.digits ≤ positions_of counter }
    requires higher { (number : ℕ) → IsNextHigher chart.now.lines total.now.name (level_number total.now.level) number
        → HasCounterFor chart.now.lines plan.now number total.now.digits }
    requires alone { (one other : ℕ) → IsNextHigher chart.now.lines total.now.name (level_number total.now.level) one
        → IsNextHigher chart.now.lines total.now.name (level_number total.now.level) other → one ≡ other }
    ensures { OnOk result (Adds (NextWires chart.now.lines plan.now total.now counter rule) setup.old setup.new) }
{
    let Some(line) = next_higher(chart, total.name, total.level) else {
        return Ok(());
    };
    // Every total has a counter.
    let Some(higher) = plan.counter_on(chart, line) else {
        unreachable!()
    };
    wire_transfer_digits(setup, total.digits, counter, higher)?;
    wire_transfer_sense(setup, total.level, counter, higher, rule)
}
