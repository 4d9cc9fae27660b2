//! The plan that a setup shows.

ghost use Rattle.std.specs.Prelude.{◌≡◌, IfOk, ◌∷◌};
ghost use Rattle.match_plans.specs.NamingWires.{ShowsPartsOf};
ghost use Rattle.match_plans.specs.Renumbered.{with_numbers};
ghost use Rattle.match_plans.specs.Wired.{IsWiredBy};
ghost use Rattle.chart_plans.specs.PlansWords.PartNumbers.{AreInOrder};
ghost use Rattle.chart_plans.specs.PlansWords.Plans.{IsWithinMachine, Lists, ServesChart};
ghost use Rattle.hubs.specs.SetupsWords.Wiring.{Wiring};
ghost use Rattle.std.specs.Option.{IsSomeAnd};

use crate::parts::shown_numbers;
use crate::stand_ins::{Taken, is_double, stand_in};
use crate::total_counters::{TotalUnits, shown_counter, shown_on, units_on};
use chart_plans::plans::{Plan, TotalCounter};
use chart_plans::wanted::{Wanted, line_total};
use chart_rules::Chart;
use hubs::setups::Setup;
use std::alloc::{AllocError, Global};

// Where the units of the totals of a chart stand, in the order of their lines.
fn units_of(alloc: Global, chart: &Chart) -> Result<Vec<TotalUnits>, AllocError> {
    chart
        .lines()
        .iter()
        .filter_map(|line| units_on(chart, line))
        .collect(alloc)
}

// The counters that a setup shows for the totals of a chart, in the order of their lines; none where it shows none for one of them.
fn shown_counters(
    alloc: Global,
    chart: &Chart,
    setup: &Setup,
) -> Result<Option<Vec<TotalCounter>>, AllocError>
    ensures { IfOk result (λ shown. (other : Wiring) (its : Lists) → ShowsPartsOf chart.now.lines setup.now other its
        → IsSomeAnd shown (λ list. list.items ≡ its.counters)) }
{
    let lines = chart.lines();
    let mut counters = Vec::new(alloc);
    for line in lines {
        if line_total(chart, line).is_some() {
            match shown_on(chart, setup, line) {
                Some(counter) => counters.push(counter)?,
                None => return Ok(None),
            }
        }
    }
    Ok(Some(counters))
}

// What the setup shows of each total.
fn shown_each(
    alloc: Global,
    setup: &Setup,
    totals: &[TotalUnits],
) -> Result<Vec<Option<TotalCounter>>, AllocError> {
    let mut shown = Vec::new(alloc);
    for units in totals {
        shown.push(shown_counter(setup, *units))?;
    }
    Ok(shown)
}

// The counters of the totals: those that the setup shows, and free ones for the others, and where a group is shown for a second total;
// none where too few are left.
fn all_counters(
    alloc: Global,
    setup: &Setup,
    totals: &[TotalUnits],
    shown: &[Option<TotalCounter>],
) -> Result<Option<Vec<TotalCounter>>, AllocError> {
    let mut counters = Vec::new(alloc);
    for (units, its) in totals.iter().zip(shown) {
        let taken = Taken {
            shown,
            so_far: counters.as_slice(),
        };
        let counter = match its {
            Some(counter) if !is_double(*counter, taken.so_far) => Some(*counter),
            _ => stand_in(setup, *units, taken),
        };
        match counter {
            Some(counter) => counters.push(counter)?,
            None => return Ok(None),
        }
    }
    Ok(Some(counters))
}

// The same for the totals of a chart, by what the setup shows of each.
fn near_counters(
    alloc: Global,
    chart: &Chart,
    setup: &Setup,
) -> Result<Option<Vec<TotalCounter>>, AllocError> {
    let totals = units_of(alloc, chart)?;
    let shown = shown_each(alloc, setup, totals.as_slice())?;
    all_counters(alloc, setup, totals.as_slice(), shown.as_slice())
}

// The plan of a chart with these counters, in which the other parts serve in order what every plan of it has them serve.
fn with_counters(
    alloc: Global,
    chart: &Chart,
    own: &Plan,
    counters: &[TotalCounter],
) -> Result<Plan, AllocError>
    requires { ServesChart chart.now.lines own.now }
    ensures counters { IfOk result (λ plan. plan.counters ≡ counters.now) }
    ensures parts { IfOk result (λ plan. plan.parts ≡ own.now.parts) }
    ensures numbers { IfOk result (λ plan. AreInOrder own.now.parts plan.numbers) }
    ensures within { IsWithinMachine own.now.parts }
{
    // Called for its promise alone, that no more is served than the machine has parts: it saves a `requires`.
    let _pilots = own.pilots();
    let wanted = Wanted::of(alloc, chart)?;
    let mut copied = Vec::new(alloc);
    copied.extend_from_slice(counters)?;
    Plan::in_order(alloc, copied, wanted.into_parts())
}

// A plan of a chart with the counters of another.
fn again(alloc: Global, chart: &Chart, own: &Plan) -> Result<Plan, AllocError>
    requires { ServesChart chart.now.lines own.now }
    ensures { IfOk result (ServesChart chart.now.lines) }
{
    with_counters(alloc, chart, own, own.counters())
}

// A plan of a chart: that with these counters and the other parts in order, where it is one, else one with free groups for what a setup
// doesn't show, or shows twice, else one with the counters of another.
fn near(
    alloc: Global,
    chart: &Chart,
    own: &Plan,
    setup: &Setup,
    counters: &[TotalCounter],
) -> Result<Plan, AllocError>
    requires { ServesChart chart.now.lines own.now }
    ensures { IfOk result (ServesChart chart.now.lines) }
{
    let in_order = with_counters(alloc, chart, own, counters)?;
    if in_order.serves(chart) {
        return Ok(in_order);
    }
    let Some(counters) = near_counters(alloc, chart, setup)? else {
        return again(alloc, chart, own);
    };
    let plan = shown_plan(alloc, chart, own, setup, counters)?;
    if !plan.serves(chart) {
        return again(alloc, chart, own);
    }
    Ok(plan)
}

// The plan of a chart with these counters and with the other parts that a setup shows.
fn shown_plan(
    alloc: Global,
    chart: &Chart,
    own: &Plan,
    setup: &Setup,
    counters: Vec<TotalCounter>,
) -> Result<Plan, AllocError>
    requires { ServesChart chart.now.lines own.now }
    ensures counters { IfOk result (λ plan. plan.counters ≡ counters.items) }
    ensures parts { IfOk result (λ plan. plan.parts ≡ own.now.parts) }
    ensures numbers { IfOk result (λ plan. (other : Wiring) (its : Lists) → ShowsPartsOf chart.now.lines setup.now other its
        → IsWiredBy chart.now.lines other (with_numbers its plan.numbers)) }
{
    // Called for its promise alone, that no more is served than the machine has parts: it saves a `requires`.
    let _pilots = own.pilots();
    let wanted = Wanted::of(alloc, chart)?;
    let parts = wanted.into_parts();
    let numbers = shown_numbers(alloc, chart, setup, &parts)?;
    Ok(Plan::of(counters, parts, numbers))
}

// The plan of a chart with these counters and with the other parts that a setup shows, where it is one; else one that is near.
fn planned(
    alloc: Global,
    chart: &Chart,
    own: &Plan,
    setup: &Setup,
    counters: Vec<TotalCounter>,
) -> Result<Plan, AllocError>
    requires { ServesChart chart.now.lines own.now }
    ensures planned { IfOk result (ServesChart chart.now.lines) }
    ensures kept { IfOk result (λ plan. (other : Wiring) (its : Lists) → ShowsPartsOf chart.now.lines setup.now other its
        → counters.items ≡ its.counters → IsWiredBy chart.now.lines other plan) }
{
    let plan = shown_plan(alloc, chart, own, setup, counters)?;
    if plan.serves(chart) {
        Ok(plan)
    } else {
        near(alloc, chart, own, setup, plan.counters())
    }
}

// A plan of a chart that is near, where a setup shows no counter of some total.
fn near_plan(alloc: Global, chart: &Chart, own: &Plan, setup: &Setup) -> Result<Plan, AllocError>
    requires { ServesChart chart.now.lines own.now }
    ensures { IfOk result (ServesChart chart.now.lines) }
{
    match near_counters(alloc, chart, setup)? {
        Some(counters) => planned(alloc, chart, own, setup, counters),
        None => again(alloc, chart, own),
    }
}

/// The plan of a chart that the wires of a setup show: if the setup is wired by some plan, one by which it is. If it differs from one that is
/// wired by some plan only in wires that name no part, in jacks and in its tape, it is a plan by which that one is wired: so what is missing
/// and what is extra by the plan is exactly the difference. If the wires show no plan, it is one
/// that is near: a total that shows no counter of its own gets a free one. If that is no plan of the chart, the counters are those of the
/// plan that is given. Its only refusal is memory.
pub fn read_plan(
    alloc: Global,
    chart: &Chart,
    own: &Plan,
    setup: &Setup,
) -> Result<Plan, AllocError>
    requires { ServesChart chart.now.lines own.now }
    ensures planned { IfOk result (ServesChart chart.now.lines) }
    ensures found { IfOk result (λ plan. (its : Lists) → IsWiredBy chart.now.lines setup.now its → IsWiredBy chart.now.lines setup.now plan) }
    ensures shown { IfOk result (λ plan. (other : Wiring) (its : Lists) → ShowsPartsOf chart.now.lines setup.now other its
        → IsWiredBy chart.now.lines other plan) }
{
    match shown_counters(alloc, chart, setup)? {
        Some(counters) => planned(alloc, chart, own, setup, counters),
        None => near_plan(alloc, chart, own, setup),
    }
}
