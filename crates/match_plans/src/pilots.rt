//! The pilots that a setup shows for the amounts with a sign. The sign column of an amount leads to its pilot; where two amounts have one
//! sign column, the lowest total of an amount tells its pilot, or its mark on the line of a card.

ghost use Rattle.std.specs.Prelude.{◌≡◌, ◌≢◌, ◌↔◌, ◌≤◌, ℕ, Contains, IsTrue, IfNone, IfOk, IfSome, Some};
ghost use Rattle.chart_lines.specs.ChartsWords.Field.{column_of_rule, columns_of, decimals_of};
ghost use Rattle.chart_lines.specs.declared.charts.chart.Line.{Line};
ghost use Rattle.chart_lines.specs.declared.charts.statement.Field.{Field};
ghost use Rattle.chart_lines.specs.declared.charts.statement.SignRule.{SignRule};
ghost use Rattle.chart_line_rules.specs.FieldRules.Fields.{field_named};
ghost use Rattle.hubs.specs.declared.hub.Hub.TheVariants.{FR, PIX, W};
ghost use Rattle.match_plans.specs.NamingWires.{ShowsPartsOf};
ghost use Rattle.match_plans.specs.PilotWires.{IsSignedOf, IsTold, LeadsToTotal, TellsPilot};
ghost use Rattle.match_plans.specs.Shown.{units_group};
ghost use Rattle.match_plans.specs.Renumbered.{AreShown, ShowsNoParts};
ghost use Rattle.chart_plans.specs.PlansWords.PartNumbers.{AreThere};
ghost use Rattle.chart_plans.specs.PlansWords.Plans.{Lists};
ghost use Rattle.hubs.specs.SetupsWords.Wiring.{HasWire, Wiring};
ghost use Rattle.chart_plans.specs.WantedWords.ChartTotals.{line_total};
ghost use Rattle.chart_plans.specs.WantedWords.Pilots.{pilots_of};
ghost use Rattle.chart_plans.specs.declared.wanted.total.Total.{Total};
ghost use Rattle.wiring_table.specs.Figures.{mark_wheel, rule_of};
ghost use Rattle.wiring_table.specs.Parts.{negative_side, panel_group, pilot_for};

use crate::total_counters::shown_on;
use chart_lines::charts::{DetailOption, Field, Line, Name, SignRule, Statement};
use chart_plans::plans::{PartKind, TotalCounter};
use chart_rules::Chart;
use hubs::setups::Setup;
use hubs::{Group, Hub};
use std::alloc::{AllocError, Global};
use wiring_lines::line_wires::{mark_wheel, negative_side, rule_of};
use wiring_totals::panel_group;

/// An amount with a sign rule.
#[derive(Clone, Copy)]
pub struct SignedAmount {
    /// Its field.
    pub field: Field,
    /// The rule.
    pub rule: SignRule,
}

// The amount of a name, if it has a sign rule.
fn signed_amount(chart: &Chart, name: Name) -> Option<SignedAmount>
    ensures some { IfSome result (λ amount. (field_named chart.now.lines name ≡ Some amount.field) × (rule_of amount.field.kind ≡ Some amount.rule)) }
    ensures none { IfNone result ((field : Field) (rule : SignRule) → field_named chart.now.lines name ≡ Some field → rule_of field.kind ≢ Some rule) }
{
    let field = chart.field(name)?;
    let rule = rule_of(field.kind)?;
    Some(SignedAmount { field, rule })
}

// The group of the units of a counter.
fn units_group(counter: TotalCounter) -> Group
    ensures { result ≡ panel_group (units_group counter) }
{
    match counter {
        TotalCounter::Single { group } => panel_group(group),
        TotalCounter::Coupled { lower, .. } => panel_group(lower),
    }
}

// Whether a pilot has the counter of the total on a line subtract while the sign column tells negative.
fn leads_to_total(chart: &Chart, setup: &Setup, line: &Line, rule: SignRule, pilot: u8) -> bool
    ensures { (other : Wiring) (its : Lists) (total : Total) → ShowsPartsOf chart.now.lines setup.now other its → Contains chart.now.lines line.now
        → line_total chart.now.lines line.now.number line.now.statement ≡ Some total
        → IsTrue result ↔ LeadsToTotal chart.now.lines its other rule pilot line.now.number }
{
    // Called for its promise alone, that the chart breaks no rule and its line numbers rise: it saves a `requires`.
    let _lines = chart.lines();
    match shown_on(chart, setup, line) {
        Some(counter) => setup.has(negative_side(rule, pilot, 1), Hub::MI(units_group(counter))),
        None => false,
    }
}

// The wheel of the mark of an amount from a wheel on.
fn wheel_of_mark(wheel: u16, field: Field) -> u32
    ensures { result ≡ mark_wheel wheel (columns_of field) (decimals_of field.kind) }
{
    let kind = field.kind;
    mark_wheel(wheel, field.columns(), kind.decimals())
}

// Whether a pilot leads to the wheel of a mark while the sign column tells negative.
fn leads_to_mark(setup: &Setup, mark: u32, rule: SignRule, pilot: u8) -> bool
    ensures { IsTrue result ↔ HasWire setup.now (negative_side rule pilot 2) (W mark) }
{
    mark < 256 && setup.has(negative_side(rule, pilot, 2), Hub::W(mark as u8))
}

// Whether a line of the chart tells that a pilot is that of an amount: by its total, or by its mark on the line of a card.
fn tells_pilot(chart: &Chart, setup: &Setup, line: &Line, amount: &SignedAmount, pilot: u8) -> bool
    requires { IsSignedOf chart.now.lines amount.now }
    ensures yes { (other : Wiring) (its : Lists) → ShowsPartsOf chart.now.lines setup.now other its → Contains chart.now.lines line.now → IsTrue result
        → pilot_for its amount.now.field.name ≡ Some pilot }
    ensures no { (other : Wiring) (its : Lists) → ShowsPartsOf chart.now.lines setup.now other its → Contains chart.now.lines line.now
        → pilot_for its amount.now.field.name ≡ Some pilot → TellsPilot chart.now.lines amount.now.field.name line.now → IsTrue result }
{
    // Called for its promise alone, that the chart breaks no rule and its line numbers rise: it saves a `requires`.
    let _lines = chart.lines();
    let wanted = amount.field.name;
    let rule = amount.rule;
    match &line.statement {
        Statement::DetailField { wheel, name, shown } => match shown {
            DetailOption::Marked(_) => {
                let mark = wheel_of_mark(*wheel, amount.field);
                name.is(wanted) && leads_to_mark(setup, mark, rule, pilot)
            }
            _ => false,
        },
        Statement::TotalAmount(total) => {
            total.name.is(wanted) && leads_to_total(chart, setup, line, rule, pilot)
        }
        _ => false,
    }
}

// Whether some line of the chart tells that a pilot is that of an amount.
fn is_told(chart: &Chart, setup: &Setup, amount: &SignedAmount, pilot: u8) -> bool
    requires { IsSignedOf chart.now.lines amount.now }
    ensures yes { (other : Wiring) (its : Lists) → ShowsPartsOf chart.now.lines setup.now other its → IsTrue result → pilot_for its amount.now.field.name ≡ Some pilot }
    ensures no { (other : Wiring) (its : Lists) (line : Line) → ShowsPartsOf chart.now.lines setup.now other its → Contains chart.now.lines line
        → pilot_for its amount.now.field.name ≡ Some pilot → TellsPilot chart.now.lines amount.now.field.name line → IsTrue result }
{
    for line in chart.lines() {
        if tells_pilot(chart, setup, line, amount, pilot) {
            return true;
        }
    }
    false
}

// The column of a sign rule.
fn column_of(rule: SignRule) -> u16
    ensures { result ≡ column_of_rule rule }
{
    match rule {
        SignRule::X(column) => column,
        SignRule::NX(column) => column,
    }
}

// Whether a column leads to a pilot.
fn picks_up(setup: &Setup, column: u16, pilot: u8) -> bool
    ensures { IsTrue result ↔ HasWire setup.now (FR column) (PIX pilot) }
{
    column < 256 && setup.has(Hub::FR(column as u8), Hub::PIX(pilot))
}

// Whether a pilot is that of an amount: its sign column leads to it, and a line tells it.
fn is_pilot(chart: &Chart, setup: &Setup, amount: &SignedAmount, pilot: u8) -> bool
    requires { IsSignedOf chart.now.lines amount.now }
    ensures yes { (other : Wiring) (its : Lists) → ShowsPartsOf chart.now.lines setup.now other its → IsTrue result → pilot_for its amount.now.field.name ≡ Some pilot }
    ensures no { (other : Wiring) (its : Lists) → ShowsPartsOf chart.now.lines setup.now other its → pilot_for its amount.now.field.name ≡ Some pilot
        → IsTold chart.now.lines amount.now.field.name → IsTrue result }
{
    // Called for its promise alone, that the chart breaks no rule and its line numbers rise: it saves a `requires`.
    let _lines = chart.lines();
    picks_up(setup, column_of(amount.rule), pilot) && is_told(chart, setup, amount, pilot)
}

// The pilot of an amount, if there is one: the first by number.
fn pilot_of(chart: &Chart, setup: &Setup, amount: &SignedAmount) -> Option<u8>
    requires { IsSignedOf chart.now.lines amount.now }
    ensures there { IfSome result (λ pilot. (1 ≤ pilot) × (pilot ≤ 16)) }
    ensures shown { IfSome result (λ pilot. (other : Wiring) (its : Lists) → ShowsPartsOf chart.now.lines setup.now other its
        → pilot_for its amount.now.field.name ≡ Some pilot) }
    ensures none { IfNone result ((other : Wiring) (its : Lists) (pilot : ℕ) → ShowsPartsOf chart.now.lines setup.now other its → 1 ≤ pilot → pilot ≤ 16
        → IsTold chart.now.lines amount.now.field.name → ¬ (pilot_for its amount.now.field.name ≡ Some pilot)) }
{
    for place in 0..16 {
        if is_pilot(chart, setup, amount, place + 1) {
            return Some(place + 1);
        }
    }
    None
}

// The pilot of the amount of a name, if there is one.
fn shown_pilot(chart: &Chart, setup: &Setup, name: Name) -> Option<u8>
    ensures there { IfSome result (λ pilot. (1 ≤ pilot) × (pilot ≤ 16)) }
    ensures shown { IfSome result (λ pilot. (other : Wiring) (its : Lists) → ShowsPartsOf chart.now.lines setup.now other its → pilot_for its name ≡ Some pilot) }
    ensures none { Contains (pilots_of chart.now.lines) name → IfNone result (ShowsNoParts chart.now.lines setup.now) }
{
    // Called for its promise alone, that the chart breaks no rule and its line numbers rise: it saves a `requires`.
    let _lines = chart.lines();
    match signed_amount(chart, name) {
        Some(amount) => pilot_of(chart, setup, &amount),
        None => None,
    }
}

/// The pilots that a setup shows for amounts, in their order; none where it shows none for one of them.
pub(crate) fn shown_pilots(
    alloc: Global,
    chart: &Chart,
    setup: &Setup,
    names: &[Name],
) -> Result<Option<Vec<u8>>, AllocError>
    requires { names.now ≡ pilots_of chart.now.lines }
    ensures there { IfOk result (λ shown. IfSome shown (λ list. AreThere 16 list.items)) }
    ensures shown { IfOk result (λ found. IfSome found (λ list. AreShown chart.now.lines setup.now PartKind.Pilot list.items)) }
    ensures none { IfOk result (λ found. IfNone found (ShowsNoParts chart.now.lines setup.now)) }
{
    // Called for its promise alone, that the chart breaks no rule and its line numbers rise: it saves a `requires`.
    let _lines = chart.lines();
    let mut pilots = Vec::new(alloc);
    for name in names {
        match shown_pilot(chart, setup, *name) {
            Some(pilot) => pilots.push(pilot)?,
            None => return Ok(None),
        }
    }
    Ok(Some(pilots))
}

// The first pilot that a line tells to be that of an amount, else the first to which its sign column leads.
fn near_pilot(chart: &Chart, setup: &Setup, amount: &SignedAmount) -> Option<u8>
    requires { IsSignedOf chart.now.lines amount.now }
{
    for place in 0..16 {
        if is_told(chart, setup, amount, place + 1) {
            return Some(place + 1);
        }
    }
    for place in 0..16 {
        if picks_up(setup, column_of(amount.rule), place + 1) {
            return Some(place + 1);
        }
    }
    None
}

// The pilot that is shown for the amount of a name, else one for which a wire of it speaks.
fn pilot_near(chart: &Chart, setup: &Setup, name: Name) -> Option<u8> {
    let shown = shown_pilot(chart, setup, name);
    if shown.is_some() {
        return shown;
    }
    match signed_amount(chart, name) {
        Some(amount) => near_pilot(chart, setup, &amount),
        None => None,
    }
}

/// The pilot that a setup shows for each amount of some names, or for which a wire of it speaks, in their order.
pub(crate) fn near_pilots(
    alloc: Global,
    chart: &Chart,
    setup: &Setup,
    names: &[Name],
) -> Result<Vec<Option<u8>>, AllocError> {
    let mut near = Vec::new(alloc);
    for name in names {
        near.push(pilot_near(chart, setup, *name))?;
    }
    Ok(near)
}
