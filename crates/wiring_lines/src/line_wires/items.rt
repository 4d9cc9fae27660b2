//! The items of the line of a card.

ghost use Rattle.std.specs.Prelude.{OnOk};
ghost use Rattle.chart_lines.specs.ChartsWords.Field.{columns_of, decimals_of};
ghost use Rattle.wiring_lines.specs.LineWires.HelperAdds.{Adds};
ghost use Rattle.wiring_lines.specs.LineWires.HelperItems.{DetailAmount, DetailMarks, DetailRanges, DetailText, DetailWires, HasFigureWheels, HasWheels, IsGoodDetail};
ghost use Rattle.wiring_lines.specs.LineWires.HelperRanges.{HasWheelsForMark};
ghost use Rattle.chart_rules.specs.HelperOnCard.{IsOnCard};

use crate::line_wires::character::wire_point;
use crate::line_wires::detail::{wire_digits, wire_indicated, wire_text};
use crate::line_wires::figures::mark_wheel;
use crate::line_wires::pilot::{rule_of, wire_detail_mark};
use chart_line_rules::print_rules::mark_shown;
use chart_lines::charts::{DetailOption, Field, FieldKind, Mark, Name, SignRule};
use chart_plans::plans::Plan;
use hubs::setups::Setup;
use std::alloc::AllocError;

// Wires a text on the line of a card.
fn wire_detail_text(
    setup: &mut Setup,
    plan: &Plan,
    line: u16,
    wheel: u16,
    field: Field,
    shown: DetailOption,
) -> Result<(), AllocError>
    requires card { IsOnCard field }
    requires wheels { HasWheels wheel (columns_of field) }
    ensures { OnOk result (Adds (DetailText plan.now line wheel field shown) setup.old setup.new) }
{
    match shown {
        DetailOption::Plain => wire_text(setup, wheel, field),
        DetailOption::Indicated(level) => wire_indicated(setup, plan, level, line, wheel, field),
        DetailOption::Marked(_) => Ok(()),
    }
}

// Wires the mark of an amount on the line of a card, if it has one.
fn wire_detail_marks(
    setup: &mut Setup,
    plan: &Plan,
    name: Name,
    wheel: u16,
    rule: Option<SignRule>,
    mark: Option<Mark>,
) -> Result<(), AllocError>
    requires { HasWheelsForMark wheel mark }
    ensures { OnOk result (Adds (DetailMarks plan.now name wheel rule mark) setup.old setup.new) }
{
    let Some(mark) = mark else {
        return Ok(());
    };
    let Some(rule) = rule else {
        return Ok(());
    };
    match plan.pilot_of(name) {
        Some(pilot) => wire_detail_mark(setup, rule, pilot, wheel, mark),
        None => Ok(()),
    }
}

// Wires an amount on the line of a card.
fn wire_detail_amount(
    setup: &mut Setup,
    plan: &Plan,
    line: u16,
    wheel: u16,
    name: Name,
    field: Field,
    mark: Option<Mark>,
) -> Result<(), AllocError>
    requires card { IsOnCard field }
    requires wheels { HasFigureWheels wheel (columns_of field) (decimals_of field.kind) mark }
    ensures { OnOk result (Adds (DetailAmount plan.now line wheel name field mark) setup.old setup.new) }
{
    let kind = field.kind;
    let digits = field.last + 1 - field.first;
    let (decimals, rule) = (kind.decimals(), rule_of(kind));
    let after = mark_wheel(wheel, digits as u32, decimals) as u16;
    wire_digits(setup, plan, line, wheel, field)?;
    wire_point(setup, 4, wheel, digits, decimals)?;
    wire_detail_marks(setup, plan, name, after, rule, mark)
}

/// Wires a field on the line of a card.
pub fn wire_detail(
    setup: &mut Setup,
    plan: &Plan,
    line: u16,
    wheel: u16,
    name: Name,
    field: Field,
    shown: DetailOption,
) -> Result<(), AllocError>
    requires { IsGoodDetail wheel shown field }
    ensures { OnOk result (Adds
        (DetailWires plan.now line wheel name field shown field.kind) setup.old setup.new) }
{
    match field.kind {
        FieldKind::Text => wire_detail_text(setup, plan, line, wheel, field, shown),
        FieldKind::Amount { .. } => {
            wire_detail_amount(setup, plan, line, wheel, name, field, mark_shown(shown))
        }
    }
}
