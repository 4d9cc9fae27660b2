//! The entry of an amount into the counter of its lowest total.

ghost use Rattle.std.specs.Prelude.{◌≡◌, ◌+◌, ◌≤◌, OnOk};
ghost use Rattle.chart_rules.specs.HelperOnCard.{IsOnCard};
ghost use Rattle.chart_lines.specs.ChartsWords.Field.{columns_of};
ghost use Rattle.wiring_lines.specs.LineWires.HelperAdds.{Adds};
ghost use Rattle.wiring_totals.specs.HelperCounters.{IsCounterOnPanel, positions_of};
ghost use Rattle.wiring_totals.specs.HelperTotalRows.{AddingWires, EntryDigits, EntrySense, EntryWires, SignedEntry};

use crate::counter::{Control, place_of, wire_controls};
use chart_lines::charts::{Field, Name, SignRule};
use chart_plans::plans::{Plan, TotalCounter};
use hubs::Hub;
use hubs::setups::Setup;
use std::alloc::AllocError;
use wiring_lines::line_wires::{connect, negative_side, positive_side, rule_of};

// Wires a counter so that each card adds.
fn wire_adding(setup: &mut Setup, counter: TotalCounter) -> Result<(), AllocError>
    requires { IsCounterOnPanel counter }
    ensures { OnOk result (Adds (AddingWires counter) setup.old setup.new) }
{
    wire_controls(setup, Hub::CC, Control::Plus, counter)
}

// Wires a counter so that each card adds or subtracts, by position 1 of the pilot of the amount.
fn wire_signed_entry(
    setup: &mut Setup,
    plan: &Plan,
    name: Name,
    counter: TotalCounter,
    rule: SignRule,
) -> Result<(), AllocError>
    requires { IsCounterOnPanel counter }
    ensures { OnOk result (Adds (SignedEntry plan.now name counter rule) setup.old setup.new) }
{
    let Some(pilot) = plan.pilot_of(name) else {
        return Ok(());
    };
    let (plus, minus) = (positive_side(rule, pilot, 1), negative_side(rule, pilot, 1));
    connect(setup, Hub::CC, Hub::PIC(pilot, 1))?;
    wire_controls(setup, plus, Control::Plus, counter)?;
    wire_controls(setup, minus, Control::Minus, counter)
}

// Wires the columns of an amount to the positions of a counter.
fn wire_entry_digits(
    setup: &mut Setup,
    field: Field,
    counter: TotalCounter,
) -> Result<(), AllocError>
    requires card { IsOnCard field }
    requires counter { IsCounterOnPanel counter }
    requires wide { columns_of field ≤ positions_of counter }
    ensures { OnOk result (Adds (EntryDigits field counter) setup.old setup.new) }
{
    let end = field.last as u8 + 1;
    for place in 0..field.columns() as u8 {
        let position = place + 1;
        let (group, place) = place_of(counter, position);
        connect(setup, Hub::SR(end - position), Hub::GE(group, place))?;
    }
    Ok(())
}

// Wires a counter so that each card adds, or adds or subtracts where the amount has a sign rule.
fn wire_entry_sense(
    setup: &mut Setup,
    plan: &Plan,
    name: Name,
    counter: TotalCounter,
    rule: Option<SignRule>,
) -> Result<(), AllocError>
    requires { IsCounterOnPanel counter }
    ensures { OnOk result (Adds (EntrySense plan.now name counter rule) setup.old setup.new) }
{
    match rule {
        Some(rule) => wire_signed_entry(setup, plan, name, counter, rule),
        None => wire_adding(setup, counter),
    }
}

/// Wires the entry of an amount into the counter of its lowest total.
pub(crate) fn wire_entry(
    setup: &mut Setup,
    plan: &Plan,
    name: Name,
    field: Field,
    counter: TotalCounter,
) -> Result<(), AllocError>
    requires card { IsOnCard field }
    requires counter { IsCounterOnPanel counter }
    requires wide { columns_of field ≤ positions_of counter }
    ensures { OnOk result (Adds (EntryWires plan.now name field counter) setup.old setup.new) }
{
    let rule = rule_of(field.kind);
    wire_entry_digits(setup, field, counter)?;
    wire_entry_sense(setup, plan, name, counter, rule)
}
