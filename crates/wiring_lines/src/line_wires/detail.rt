//! The line of a card: its texts and its amounts.

ghost use Rattle.std.specs.Prelude.{◌≡◌, ◌+◌, ◌-◌, ◌≤◌, ◌<◌, OnOk, None, Option, true, length, max};
ghost use Rattle.chart_rules.specs.HelperOnCard.{IsOnCard};
ghost use Rattle.chart_lines.specs.ChartsWords.Field.{columns_of, decimals_of};
ghost use Rattle.wiring_table.specs.Figures.{mark_wheel};
ghost use Rattle.wiring_lines.specs.LineWires.HelperAdds.{Adds};
ghost use Rattle.wiring_lines.specs.LineWires.HelperRows.{TextWires, IndicatedColumn, IndicatedWires, DigitWires, DetailDigits};

use crate::line_wires::adding::connect;
use crate::line_wires::figures::digit_wheel;
use chart_lines::charts::{ControlLevel, Field};
use chart_plans::plans::Plan;
use chart_plans::wanted::Position;
use hubs::Hub;
use hubs::setups::Setup;
use std::alloc::AllocError;

/// Wires a text: each column at second reading to its wheel.
pub(crate) fn wire_text(setup: &mut Setup, wheel: u16, field: Field) -> Result<(), AllocError>
    requires card { IsOnCard field }
    requires wheels { (1 ≤ wheel) × (wheel + columns_of field ≤ 121) }
    ensures { OnOk result (Adds (TextWires wheel field) setup.old setup.new) }
{
    let (wheel, first) = (wheel as u8, field.first as u8);
    for j in 0..field.columns() as u8 {
        connect(setup, Hub::SR(first + j), Hub::W(wheel + j))?;
    }
    Ok(())
}

// Wires a column of an indicated text through its position of a level to its wheel.
fn wire_indicated_column(
    setup: &mut Setup,
    plan: &Plan,
    level: ControlLevel,
    at: Position,
    wheel: u8,
) -> Result<(), AllocError>
    requires column { (1 ≤ at.column) × (at.column ≤ 80) }
    requires wheel { (1 ≤ wheel) × (wheel ≤ 120) }
    ensures { OnOk result (Adds (IndicatedColumn plan.now level at.line at.column wheel) setup.old setup.new) }
{
    let Some(position) = plan.indicate_position(level, at) else {
        return Ok(());
    };
    let number = level.number();
    connect(setup, Hub::SR(at.column as u8), Hub::IE(number, position))?;
    connect(setup, Hub::IX(number, position), Hub::W(wheel))
}

/// Wires an indicated text of a line of the chart.
pub(crate) fn wire_indicated(
    setup: &mut Setup,
    plan: &Plan,
    level: ControlLevel,
    line: u16,
    wheel: u16,
    field: Field,
) -> Result<(), AllocError>
    requires card { IsOnCard field }
    requires wheels { (1 ≤ wheel) × (wheel + columns_of field ≤ 121) }
    ensures { OnOk result (Adds (IndicatedWires plan.now level line wheel field) setup.old setup.new) }
{
    let first = field.first;
    for j in 0..field.columns() as u16 {
        let column = first + j;
        wire_indicated_column(
            setup,
            plan,
            level,
            Position { line, column },
            (wheel + j) as u8,
        )?;
    }
    Ok(())
}

// Wires a column to the wheel of its digit; where the sign stands in it, through the split of the line.
fn wire_digit(
    setup: &mut Setup,
    plan: &Plan,
    line: u16,
    sign: Option<u16>,
    column: u16,
    wheel: u8,
) -> Result<(), AllocError>
    requires column { (1 ≤ column) × (column ≤ 80) }
    requires wheel { (1 ≤ wheel) × (wheel ≤ 120) }
    ensures { OnOk result (Adds (DigitWires plan.now line sign column wheel) setup.old setup.new) }
{
    let (exit, entry) = (Hub::SR(column as u8), Hub::W(wheel));
    if sign != Some(column) {
        return connect(setup, exit, entry);
    }
    let Some(split) = plan.split_on(line) else {
        return Ok(());
    };
    connect(setup, exit, Hub::CSE(split))?;
    connect(setup, Hub::CSD(split), entry)
}

/// Wires the columns of an amount to the wheels of its digits.
pub(crate) fn wire_digits(
    setup: &mut Setup,
    plan: &Plan,
    line: u16,
    wheel: u16,
    field: Field,
) -> Result<(), AllocError>
    requires card { IsOnCard field }
    requires first { 1 ≤ wheel }
    requires last { mark_wheel wheel (columns_of field) (decimals_of field.kind) ≤ 121 }
    ensures { OnOk result (Adds (DetailDigits plan.now line wheel field) setup.old setup.new) }
{
    let (end, kind) = (field.last + 1, field.kind);
    let digits = field.columns();
    let (sign, decimals) = (kind.sign_column(), kind.decimals());
    for place in 0..digits {
        let position = place + 1;
        let entry = digit_wheel(wheel, digits, decimals, position) as u8;
        wire_digit(setup, plan, line, sign, end - position as u16, entry)?;
    }
    Ok(())
}
