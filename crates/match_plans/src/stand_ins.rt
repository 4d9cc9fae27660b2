//! Groups that stand in where none shows a total.

ghost use Rattle.std.specs.Prelude.{◌≡◌, ◌≤◌, IfSome};
ghost use Rattle.capacity.specs.Capacities.{HasGroup, standard};

use crate::groups::{GROUPS, carries_to, is_read_out, leads_to, standard_group};
use crate::total_counters::TotalUnits;
use capacity::CounterGroup;
use chart_plans::plans::TotalCounter;
use chart_plans::wanted::takes_two;
use hubs::Hub;
use hubs::setups::Setup;
use wiring_totals::panel_group;

/// The counters that are taken: those that the setup shows, and those that stand in for others.
#[derive(Clone, Copy)]
pub(crate) struct Taken<'a> {
    /// What the setup shows of each total.
    pub shown: &'a [Option<TotalCounter>],
    /// The counters so far.
    pub so_far: &'a [TotalCounter],
}

// Whether a group is in one of some counters.
fn is_in(counters: &[TotalCounter], group: CounterGroup) -> bool {
    counters.iter().any(|counter| counter.has(group))
}

// Whether a group is in one of the counters that a setup shows.
fn is_shown(shown: &[Option<TotalCounter>], group: CounterGroup) -> bool {
    shown.iter().any(|each| match each {
        Some(counter) => counter.has(group),
        None => false,
    })
}

// Whether two counters have a group in common.
fn share_group(one: TotalCounter, other: TotalCounter) -> bool {
    match one {
        TotalCounter::Single { group } => other.has(group),
        TotalCounter::Coupled { lower, upper } => other.has(lower) || other.has(upper),
    }
}

/// Whether a counter has a group of one of some counters.
pub(crate) fn is_double(counter: TotalCounter, counters: &[TotalCounter]) -> bool {
    counters.iter().any(|other| share_group(counter, *other))
}

// Whether a group is free.
fn is_free(taken: Taken, group: CounterGroup) -> bool {
    !is_in(taken.so_far, group) && !is_shown(taken.shown, group)
}

// Whether a wire leads from a position of a group.
fn is_wired(setup: &Setup, group: CounterGroup, position: u8) -> bool {
    !setup
        .entries_of(Hub::GX(panel_group(group), position))
        .is_empty()
}

// From how many positions of a group above the units wires lead.
fn higher_wires(setup: &Setup, group: CounterGroup) -> u8
    ensures { result ≤ 7 }
{
    let mut count = 0;
    for place in 1..8 {
        if is_wired(setup, group, place + 1) {
            count += 1;
        }
    }
    count
}

// How much speaks for a group as that of a total, or as the lower one of two. The wire from its units to their wheel counts twice and the
// read-out in the level's cycle once; where they name two groups, the one that is wired further up has the more.
fn units_wires(setup: &Setup, units: TotalUnits, group: CounterGroup) -> u8
    ensures { result ≤ 10 }
{
    let read_out = is_read_out(setup, units.level, group);
    let leads = leads_to(setup, units.wheel, group);
    let named = 2 * u8::from(leads) + u8::from(read_out);
    if named == 0 {
        0
    } else {
        named + higher_wires(setup, group)
    }
}

// The first free group of so many positions, or more, for which so much speaks.
fn group_with(
    setup: &Setup,
    units: TotalUnits,
    taken: Taken,
    width: u32,
    wires: u8,
) -> Option<CounterGroup>
    ensures there { IfSome result (HasGroup standard) }
    ensures wide { IfSome result (λ group. width ≤ group.width) }
{
    for place in 0..GROUPS {
        let group = standard_group(place);
        if width <= u32::from(group.width)
            && units_wires(setup, units, group) == wires
            && is_free(taken, group)
        {
            return Some(group);
        }
    }
    None
}

// The free group of so many positions, or more, for which the most speaks.
fn units_group(setup: &Setup, units: TotalUnits, taken: Taken, width: u32) -> Option<CounterGroup>
    ensures there { IfSome result (HasGroup standard) }
    ensures wide { IfSome result (λ group. width ≤ group.width) }
{
    for missing in 0..11 {
        let group = group_with(setup, units, taken, width, 10 - missing);
        if group.is_some() {
            return group;
        }
    }
    None
}

// How much speaks for a group as the upper one of a counter: the carry from the lower one, or that the level's cycle reads it out.
fn upper_wires(setup: &Setup, units: TotalUnits, lower: CounterGroup, group: CounterGroup) -> u8
    ensures { result ≤ 2 }
{
    if carries_to(setup, lower, group) {
        2
    } else {
        u8::from(is_read_out(setup, units.level, group))
    }
}

// The first free group of 8 positions of a higher number for which so much speaks as the upper one of a counter.
fn upper_with(
    setup: &Setup,
    units: TotalUnits,
    taken: Taken,
    lower: CounterGroup,
    wires: u8,
) -> Option<CounterGroup>
    ensures there { IfSome result (HasGroup standard) }
{
    for place in 0..GROUPS {
        let group = standard_group(place);
        if group.width == 8
            && lower.number < group.number
            && upper_wires(setup, units, lower, group) == wires
            && is_free(taken, group)
        {
            return Some(group);
        }
    }
    None
}

// The free group for which the most speaks.
fn upper_group(
    setup: &Setup,
    units: TotalUnits,
    taken: Taken,
    lower: CounterGroup,
) -> Option<CounterGroup>
    ensures there { IfSome result (HasGroup standard) }
{
    for missing in 0..3 {
        let group = upper_with(setup, units, taken, lower, 2 - missing);
        if group.is_some() {
            return group;
        }
    }
    None
}

/// A counter of free groups that stands in for that of a total, if there is one: of the groups that are enough the one for which the most
/// speaks.
pub(crate) fn stand_in(setup: &Setup, units: TotalUnits, taken: Taken) -> Option<TotalCounter> {
    if takes_two(units.need) {
        let lower = units_group(setup, units, taken, 8)?;
        let upper = upper_group(setup, units, taken, lower)?;
        Some(TotalCounter::Coupled { lower, upper })
    } else {
        let group = units_group(setup, units, taken, units.need)?;
        Some(TotalCounter::Single { group })
    }
}
