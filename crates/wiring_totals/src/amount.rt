//! The total of an amount, with all of its wires.

ghost use Rattle.std.specs.Prelude.{◌≡◌, ◌+◌, ◌≤◌, OnOk};
ghost use Rattle.chart_rules.specs.HelperOnCard.{IsOnCard};
ghost use Rattle.chart_lines.specs.ChartsWords.Field.{columns_of};
ghost use Rattle.chart_lines.specs.ChartsWords.Levels.{level_number};
ghost use Rattle.wiring_lines.specs.LineWires.HelperAdds.{Adds, OfSome, Where};
ghost use Rattle.wiring_lines.specs.LineWires.HelperItems.{HasFigureWheels};
ghost use Rattle.wiring_totals.specs.HelperCounters.{IsCounterOnPanel, positions_of};
ghost use Rattle.wiring_totals.specs.HelperTotalRows.{EntryWires, SignedTotal};
ghost use Rattle.wiring_totals.specs.HelperTotals.{IsGoodTotal, TotalWires};
ghost use Rattle.wiring_lines.specs.Below.wiring_table.Parts.{IsLowest, counter_for};

use crate::counter::wire_carry_up;
use crate::entry::wire_entry;
use crate::total::{wire_read_out, wire_signed_total};
use crate::transfer::{is_lowest, wire_transfer};
use chart_lines::charts::{Field, SignRule, TotalLine};
use chart_plans::plans::{Plan, TotalCounter};
use chart_rules::Chart;
use hubs::setups::Setup;
use std::alloc::AllocError;
use wiring_lines::line_wires::{rule_of, wire_point};

// Wires the entry of an amount, where the total is its lowest.
fn wire_lowest(
    setup: &mut Setup,
    chart: &Chart,
    plan: &Plan,
    total: &TotalLine,
    field: Field,
    counter: TotalCounter,
) -> Result<(), AllocError>
    requires card { IsOnCard field }
    requires counter { IsCounterOnPanel counter }
    requires wide { columns_of field ≤ positions_of counter }
    ensures { OnOk result (Adds
        (Where (IsLowest chart.now.lines total.now.name (level_number total.now.level)) (EntryWires plan.now total.now.name field counter))
        setup.old setup.new) }
{
    if is_lowest(chart, total.name, total.level) {
        wire_entry(setup, plan, total.name, field, counter)
    } else {
        Ok(())
    }
}

// Wires what only a signed total has, where the amount has a sign rule.
fn wire_sign(
    setup: &mut Setup,
    total: &TotalLine,
    decimals: u16,
    counter: TotalCounter,
    rule: Option<SignRule>,
) -> Result<(), AllocError>
    requires counter { IsCounterOnPanel counter }
    requires wheels { HasFigureWheels total.now.wheel total.now.digits decimals total.now.mark }
    ensures { OnOk result (Adds (OfSome rule (λ its_rule. SignedTotal total.now decimals counter)) setup.old setup.new) }
{
    match rule {
        Some(_) => wire_signed_total(setup, total, decimals, counter),
        None => Ok(()),
    }
}

/// Wires a total: its counter has one group, or two that carry through both.
pub fn wire_total(
    setup: &mut Setup,
    chart: &Chart,
    plan: &Plan,
    line: u16,
    total: &TotalLine,
    field: Field,
) -> Result<(), AllocError>
    requires { IsGoodTotal chart.now.lines plan.now line total.now field }
    ensures { OnOk result (Adds (OfSome (counter_for chart.now.lines plan.now line)
        (λ counter. TotalWires chart.now.lines plan.now total.now field counter)) setup.old setup.new) }
{
    // Every total has a counter.
    let Some(counter) = plan.counter_on(chart, line) else {
        unreachable!()
    };
    let kind = field.kind;
    let (decimals, rule) = (kind.decimals(), rule_of(kind));
    let emitter = 4 + total.level.number();
    wire_lowest(setup, chart, plan, total, field, counter)?;
    wire_read_out(setup, total, decimals, counter)?;
    wire_point(setup, emitter, total.wheel, total.digits, decimals)?;
    wire_sign(setup, total, decimals, counter, rule)?;
    wire_transfer(setup, chart, plan, total, counter, rule)?;
    wire_carry_up(setup, counter)
}
