//! The lines of a chart, one by one.

ghost use Rattle.std.specs.Prelude.{◌≡◌, ℕ, OnOk, Some, slice_get, length};
ghost use Rattle.chart_rules.specs.Below.chart_line_rules.FieldRules.Fields.{field_named};
ghost use Rattle.chart_rules.specs.HelperOnCard.{IsOnCard};
ghost use Rattle.chart_lines.specs.declared.charts.chart.Line.{Line};
ghost use Rattle.wiring_lines.specs.LineWires.HelperAdds.{Adds, OfSome};
ghost use Rattle.wiring_lines.specs.LineWires.HelperItems.{DetailWires, IsGoodDetail};
ghost use Rattle.wiring_totals.specs.HelperTotals.{IsGoodTotal, TotalWires};
ghost use Rattle.wire_gen.specs.HelperKnown.{IsGood, IsGoodTotalText, IsNamed};
ghost use Rattle.wire_gen.specs.HelperLines.{StatementWires, WiresBefore};
ghost use Rattle.wiring_lines.specs.LineWires.HelperRows.{ComparedWires};
ghost use Rattle.wiring_totals.specs.HelperTotalRows.{TotalTextWires};
ghost use Rattle.wiring_lines.specs.Below.wiring_table.Parts.{counter_for, unit_for};
ghost use Rattle.wiring_lines.specs.Below.wiring_table.Wires.{LineWire};

use chart_lines::charts::{ControlLevel, DetailOption, Level, Line, Name, Statement, TotalLine};
use chart_plans::plans::Plan;
use chart_rules::Chart;
use hubs::setups::Setup;
use std::alloc::AllocError;
use wiring_lines::line_wires::{
    wire_after, wire_control, wire_detail, wire_literal, wire_pickup, wire_space,
};
use wiring_totals::{wire_total, wire_total_text};

// Wires a control field.
fn wire_control_line(
    setup: &mut Setup,
    chart: &Chart,
    plan: &Plan,
    line: u16,
    level: ControlLevel,
    name: Name,
) -> Result<(), AllocError>
    requires { IsNamed (field_named chart.now.lines name) IsOnCard }
    ensures { OnOk result (Adds (OfSome (field_named chart.now.lines name)
        (λ field. ComparedWires plan.now level line field)) setup.old setup.new) }
{
    match chart.field(name) {
        Some(field) => wire_control(setup, plan, level, line, field),
        None => Ok(()),
    }
}

// Wires a field on the line of a card.
fn wire_detail_line(
    setup: &mut Setup,
    chart: &Chart,
    plan: &Plan,
    line: u16,
    wheel: u16,
    name: Name,
    shown: DetailOption,
) -> Result<(), AllocError>
    requires { IsNamed (field_named chart.now.lines name) (IsGoodDetail wheel shown) }
    ensures { OnOk result (Adds (OfSome (field_named chart.now.lines name)
        (λ field. DetailWires plan.now line wheel name field shown field.kind)) setup.old setup.new) }
{
    match chart.field(name) {
        Some(field) => wire_detail(setup, plan, line, wheel, name, field, shown),
        None => Ok(()),
    }
}

// Wires a text on a total line.
fn wire_text_line(
    setup: &mut Setup,
    chart: &Chart,
    plan: &Plan,
    line: u16,
    level: Level,
    wheel: u16,
    name: Name,
) -> Result<(), AllocError>
    requires { IsNamed (field_named chart.now.lines name) (IsGoodTotalText wheel) }
    ensures { OnOk result (Adds (OfSome (field_named chart.now.lines name) (λ field.
        OfSome (unit_for plan.now line) (λ unit. TotalTextWires level unit wheel field))) setup.old setup.new) }
{
    match chart.field(name) {
        Some(field) => wire_total_text(setup, plan, line, level, wheel, field),
        None => Ok(()),
    }
}

// Wires a total.
fn wire_total_line(
    setup: &mut Setup,
    chart: &Chart,
    plan: &Plan,
    line: u16,
    total: &TotalLine,
) -> Result<(), AllocError>
    requires { IsNamed (field_named chart.now.lines total.now.name) (IsGoodTotal chart.now.lines plan.now line total.now) }
    ensures { OnOk result (Adds (OfSome (field_named chart.now.lines total.now.name) (λ field.
        OfSome (counter_for chart.now.lines plan.now line) (λ counter.
        TotalWires chart.now.lines plan.now total.now field counter))) setup.old setup.new) }
{
    match chart.field(total.name) {
        Some(field) => wire_total(setup, chart, plan, line, total, field),
        None => Ok(()),
    }
}

// Wires what a line of the chart says.
fn wire_statement(
    setup: &mut Setup,
    chart: &Chart,
    plan: &Plan,
    line: u16,
    statement: &Statement,
) -> Result<(), AllocError>
    requires { IsGood chart.now.lines plan.now line statement.now }
    ensures { OnOk result (Adds (StatementWires chart.now.lines plan.now line statement.now) setup.old setup.new) }
{
    match statement {
        Statement::Field(field) => wire_pickup(setup, plan, *field),
        Statement::Control { level, name } => {
            wire_control_line(setup, chart, plan, line, *level, *name)
        }
        Statement::Head {
            line,
            wheel,
            literal,
        } => wire_literal(setup, line.number(), *wheel, literal.characters()),
        Statement::DetailLiteral { wheel, literal } => {
            wire_literal(setup, 4, *wheel, literal.characters())
        }
        Statement::DetailField { wheel, name, shown } => {
            wire_detail_line(setup, chart, plan, line, *wheel, *name, *shown)
        }
        Statement::TotalLiteral {
            level,
            wheel,
            literal,
        } => wire_literal(setup, 4 + level.number(), *wheel, literal.characters()),
        Statement::TotalText { level, wheel, name } => {
            wire_text_line(setup, chart, plan, line, *level, *wheel, *name)
        }
        Statement::TotalAmount(total) => wire_total_line(setup, chart, plan, line, total),
        Statement::Space { line, spacing } => wire_space(setup, *line, *spacing),
        Statement::After { line, action } => wire_after(setup, *line, *action),
        Statement::Print(_) | Statement::Form { .. } | Statement::Tape { .. } => Ok(()),
    }
}

/// Wires a line of the chart.
pub(crate) fn wire_line(
    setup: &mut Setup,
    chart: &Chart,
    plan: &Plan,
    line: &Line,
) -> Result<(), AllocError>
    requires { IsGood chart.now.lines plan.now line.now.number line.now.statement }
    ensures { OnOk result (Adds
        (LineWire chart.now.lines plan.now line.now.number line.now.statement) setup.old setup.new) }
{
    wire_statement(setup, chart, plan, line.number, &line.statement)
}

/// Wires all lines of the chart.
pub(crate) fn wire_lines(setup: &mut Setup, chart: &Chart, plan: &Plan) -> Result<(), AllocError>
    requires { (place : ℕ) (line : Line) → slice_get chart.now.lines place ≡ Some line
        → IsGood chart.now.lines plan.now line.number line.statement }
    ensures { OnOk result (Adds
        (WiresBefore chart.now.lines plan.now (length chart.now.lines)) setup.old setup.new) }
{
    for line in chart.lines() {
        wire_line(setup, chart, plan, line)?;
    }
    Ok(())
}
