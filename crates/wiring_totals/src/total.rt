//! Totals: their read-out and the sign conversion.

ghost use Rattle.std.specs.Prelude.{◌≡◌, ◌+◌, ◌≤◌, OnOk, length};
ghost use Rattle.wiring_lines.specs.Below.wiring_table.Figures.{mark_text, mark_wheel};
ghost use Rattle.wiring_lines.specs.LineWires.HelperAdds.{Adds};
ghost use Rattle.wiring_lines.specs.LineWires.HelperItems.{HasFigureWheels};
ghost use Rattle.wiring_totals.specs.HelperCounters.{EachGroup, IsCounterOnPanel, IsOnPanel, positions_of};
ghost use Rattle.wiring_totals.specs.HelperTotalRows.{TotalDigits, ReadOutWires, FeedbackWires, BalanceWires, ConversionWires, TotalMark, SignedTotal};

use crate::counter::{Control, panel_group, place_of, top_group, wire_controls, wire_ring};
use chart_lines::charts::{Level, Mark, TotalLine};
use chart_plans::plans::TotalCounter;
use hubs::setups::Setup;
use hubs::{Group, Hub};
use std::alloc::AllocError;
use wiring_lines::line_wires::{connect, digit_wheel, mark_characters, mark_wheel, wire_character};

// Wires the digits of a total to their wheels.
fn wire_total_digits(
    setup: &mut Setup,
    total: &TotalLine,
    decimals: u16,
    counter: TotalCounter,
) -> Result<(), AllocError>
    requires counter { IsCounterOnPanel counter }
    requires wide { total.now.digits ≤ positions_of counter }
    requires first { 1 ≤ total.now.wheel }
    requires last { mark_wheel total.now.wheel total.now.digits decimals ≤ 121 }
    ensures { OnOk result (Adds (TotalDigits total.now decimals counter) setup.old setup.new) }
{
    let digits = total.digits as u32;
    for place in 0..digits {
        let position = place + 1;
        let entry = digit_wheel(total.wheel, digits, decimals, position) as u8;
        let (group, place) = place_of(counter, position as u8);
        connect(setup, Hub::GX(group, place), Hub::W(entry))?;
    }
    Ok(())
}

/// Wires the read-out of a total in the cycle that prints it.
pub(crate) fn wire_read_out(
    setup: &mut Setup,
    total: &TotalLine,
    decimals: u16,
    counter: TotalCounter,
) -> Result<(), AllocError>
    requires counter { IsCounterOnPanel counter }
    requires wide { total.now.digits ≤ positions_of counter }
    requires first { 1 ≤ total.now.wheel }
    requires last { mark_wheel total.now.wheel total.now.digits decimals ≤ 121 }
    ensures { OnOk result (Adds (ReadOutWires total.now decimals counter) setup.old setup.new) }
{
    let read_out = Hub::PX(total.level.number(), 3);
    wire_controls(setup, read_out, Control::ReadOut, counter)?;
    wire_total_digits(setup, total, decimals, counter)
}

// Wires a counter group back into itself, on all its positions.
fn wire_feedback(setup: &mut Setup, group: Group) -> Result<(), AllocError>
    requires { IsOnPanel group }
    ensures { OnOk result (Adds (FeedbackWires group) setup.old setup.new) }
{
    for place in 0..group.width {
        let position = place + 1;
        connect(setup, Hub::GX(group, position), Hub::GE(group, position))?;
    }
    Ok(())
}

// Wires each group of a counter back into itself.
fn wire_feedbacks(setup: &mut Setup, counter: TotalCounter) -> Result<(), AllocError>
    requires { IsCounterOnPanel counter }
    ensures { OnOk result (Adds (EachGroup counter FeedbackWires) setup.old setup.new) }
{
    match counter {
        TotalCounter::Single { group } => wire_feedback(setup, panel_group(group)),
        TotalCounter::Coupled { lower, upper } => {
            wire_feedback(setup, panel_group(lower))?;
            wire_feedback(setup, panel_group(upper))
        }
    }
}

// Wires the balance test of a counter, and the minus read-out into itself where that sets the latch: for a number below 0, and for a 0 that
// stands as all nines.
fn wire_balance(setup: &mut Setup, level: Level, counter: TotalCounter) -> Result<(), AllocError>
    requires { IsCounterOnPanel counter }
    ensures { OnOk result (Adds (BalanceWires level counter) setup.old setup.new) }
{
    let program = level.number();
    let top = top_group(counter);
    connect(setup, Hub::PX(program, 1), Hub::BT(top))?;
    connect(setup, Hub::PX(program, 2), Hub::BAC(top, 1))?;
    wire_controls(setup, Hub::BAT(top, 1), Control::ReadOut, counter)?;
    wire_controls(setup, Hub::BAT(top, 1), Control::Minus, counter)
}

// Wires the sign conversion of a signed total: its ring, its balance, and each of its groups back into itself.
fn wire_conversion(setup: &mut Setup, level: Level, counter: TotalCounter) -> Result<(), AllocError>
    requires { IsCounterOnPanel counter }
    ensures { OnOk result (Adds (ConversionWires level counter) setup.old setup.new) }
{
    wire_ring(setup, counter)?;
    wire_balance(setup, level, counter)?;
    wire_feedbacks(setup, counter)
}

// Wires the mark of a signed total, through the balance positions 3 and 4.
fn wire_total_mark(
    setup: &mut Setup,
    level: Level,
    wheel: u16,
    mark: Mark,
    group: Group,
) -> Result<(), AllocError>
    requires group { IsOnPanel group }
    requires wheels { (1 ≤ wheel) × (wheel + length (mark_text mark) ≤ 121) }
    ensures { OnOk result (Adds (TotalMark level wheel mark group) setup.old setup.new) }
{
    let emitter = 4 + level.number();
    for (k, character) in mark_characters(mark).iter().enumerate() {
        let position = 3 + k as u8;
        wire_character(setup, emitter, Hub::BAC(group, position), *character)?;
        connect(
            setup,
            Hub::BAT(group, position),
            Hub::W((wheel as usize + k) as u8),
        )?;
    }
    Ok(())
}

/// Wires the sign conversion of a signed total, and its mark.
pub(crate) fn wire_signed_total(
    setup: &mut Setup,
    total: &TotalLine,
    decimals: u16,
    counter: TotalCounter,
) -> Result<(), AllocError>
    requires counter { IsCounterOnPanel counter }
    requires wheels { HasFigureWheels total.now.wheel total.now.digits decimals total.now.mark }
    ensures { OnOk result (Adds (SignedTotal total.now decimals counter) setup.old setup.new) }
{
    wire_conversion(setup, total.level, counter)?;
    let Some(mark) = total.mark else {
        return Ok(());
    };
    let wheel = mark_wheel(total.wheel, total.digits as u32, decimals) as u16;
    wire_total_mark(setup, total.level, wheel, mark, top_group(counter))
}
