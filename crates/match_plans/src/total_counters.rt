//! The counters that a setup shows.

ghost use Rattle.std.specs.Prelude.{◌≡◌, ◌<◌, ◌≤◌, IfNone, IfSome};
ghost use Rattle.capacity.specs.Capacities.{HasGroup, standard};
ghost use Rattle.capacity.specs.declared.group.CounterGroup.{CounterGroup};
ghost use Rattle.match_plans.specs.Groups.{group_with};
ghost use Rattle.match_plans.specs.Narrow.{IsTotal};
ghost use Rattle.match_plans.specs.Shown.{CarriesTo, IsShown, ShowsUnits, units_group};
ghost use Rattle.chart_plans.specs.declared.plans.counter.TotalCounter.{TotalCounter};
ghost use Rattle.chart_lines.specs.ChartsWords.Field.{decimals_of};
ghost use Rattle.chart_line_rules.specs.FieldRules.Fields.{field_named};
ghost use Rattle.match_plans.specs.Totals.{IsShownOn, units_of};
ghost use Rattle.match_plans.specs.Wired.{TotalOn, units_wheel};
ghost use Rattle.wiring_table.specs.Figures.{digit_wheel};
ghost use Rattle.std.specs.Prelude.{Some};

use crate::groups::{GROUPS, carries_to, shows_units, standard_group};
use capacity::CounterGroup;
use chart_lines::charts::{Line, Name, Statement};
use chart_plans::plans::TotalCounter;
use chart_plans::wanted::{line_total, takes_two};
use chart_rules::Chart;
use hubs::setups::Setup;
use std::alloc::{AllocError, Global};
use wiring_lines::line_wires::digit_wheel;

/// Where the units of a total stand, and what it needs.
#[derive(Clone, Copy)]
pub struct TotalUnits {
    /// The number of its level, 1 to 4.
    pub level: u8,
    /// The wheel of its units.
    pub wheel: u8,
    /// How many positions it needs.
    pub need: u32,
}

// The wheel of the units of an amount of so many digits and decimals from a wheel on, where that is a number below 256.
fn units_wheel(wheel: u16, digits: u16, decimals: u16) -> Option<u8>
    ensures value { IfSome result (λ units. units ≡ digit_wheel wheel digits decimals 1) }
    ensures none { IfNone result (256 ≤ digit_wheel wheel digits decimals 1) }
{
    let units = digit_wheel(wheel, digits as u32, decimals, 1);
    if units < 256 { Some(units as u8) } else { None }
}

// How many decimals the amount of a name has.
fn decimals_of(chart: &Chart, name: Name) -> u16
    ensures { IfSome (field_named chart.now.lines name) (λ field. result ≡ decimals_of field.kind) }
{
    match chart.field(name) {
        Some(field) => field.kind.decimals(),
        None => 0,
    }
}

/// Where the units of the total on a line stand, if a total stands there.
pub(crate) fn units_on(chart: &Chart, line: &Line) -> Option<TotalUnits>
    ensures value { (total : TotalOn chart.now.lines line.now) → units_wheel chart.now.lines line.now total < 256
        → result ≡ Some (units_of chart.now.lines line.now total) }
    ensures only { IfSome result (λ _. IsTotal line.now.statement) }
{
    let need = line_total(chart, line)?.need;
    match &line.statement {
        Statement::TotalAmount(total) => {
            let decimals = decimals_of(chart, total.name);
            Some(TotalUnits {
                level: total.level.number(),
                wheel: units_wheel(total.wheel, total.digits, decimals)?,
                need,
            })
        }
        _ => None,
    }
}

// The upper group of a counter with a lower one.
fn upper_of(setup: &Setup, lower: CounterGroup) -> Option<CounterGroup>
    ensures there { IfSome result (HasGroup standard) }
    ensures carries { IfSome result (CarriesTo setup.now lower) }
    ensures none { IfNone result ((upper : CounterGroup) → HasGroup standard upper → ¬ CarriesTo setup.now lower upper) }
{
    for place in 0..GROUPS {
        let upper = standard_group(place);
        if carries_to(setup, lower, upper) {
            return Some(upper);
        }
    }
    None
}

// The counter with a group for its units.
fn counter_with(setup: &Setup, units: TotalUnits, lower: CounterGroup) -> Option<TotalCounter>
    requires there { HasGroup standard lower }
    requires shows { ShowsUnits setup.now units.level units.wheel lower }
    ensures shown { IfSome result (IsShown setup.now units.level units.wheel units.need) }
    ensures none { IfNone result ((counter : TotalCounter) → units_group counter ≡ lower
        → ¬ IsShown setup.now units.level units.wheel units.need counter) }
{
    if takes_two(units.need) {
        let upper = upper_of(setup, lower)?;
        Some(TotalCounter::Coupled { lower, upper })
    } else {
        Some(TotalCounter::Single { group: lower })
    }
}

// The counter that shows a total, if its lower group is the one at a place.
fn counter_at(setup: &Setup, units: TotalUnits, place: u8) -> Option<TotalCounter>
    requires { place ≤ 31 }
    ensures shown { IfSome result (IsShown setup.now units.level units.wheel units.need) }
    ensures none { IfNone result ((counter : TotalCounter) → units_group counter ≡ group_with place
        → ¬ IsShown setup.now units.level units.wheel units.need counter) }
{
    let lower = standard_group(place);
    if shows_units(setup, units.level, units.wheel, lower) {
        counter_with(setup, units, lower)
    } else {
        None
    }
}

/// The counter that shows the total on a line, if a total stands there and there is one.
pub(crate) fn shown_on(chart: &Chart, setup: &Setup, line: &Line) -> Option<TotalCounter>
    ensures shown { (total : TotalOn chart.now.lines line.now) → units_wheel chart.now.lines line.now total < 256
        → IfSome result (IsShownOn chart.now.lines setup.now line.now total) }
    ensures none { (total : TotalOn chart.now.lines line.now) → units_wheel chart.now.lines line.now total < 256
        → IfNone result ((counter : TotalCounter) → ¬ IsShownOn chart.now.lines setup.now line.now total counter) }
{
    let units = units_on(chart, line)?;
    shown_counter(setup, units)
}

/// The counter that shows a total, if there is one: the first by the places of groups.
pub(crate) fn shown_counter(setup: &Setup, units: TotalUnits) -> Option<TotalCounter>
    ensures shown { IfSome result (IsShown setup.now units.level units.wheel units.need) }
    ensures none { IfNone result ((counter : TotalCounter) → ¬ IsShown setup.now units.level units.wheel units.need counter) }
{
    for place in 0..GROUPS {
        if let Some(counter) = counter_at(setup, units, place) {
            return Some(counter);
        }
    }
    None
}
