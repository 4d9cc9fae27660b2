//! Counter groups that are too narrow for the totals that they show.

ghost use Rattle.std.specs.Prelude.{◌≡◌, ◌↔◌, ◌<◌, IfNone, IfSome, IsTrue};
ghost use Rattle.capacity.specs.Capacities.{HasGroup, standard};
ghost use Rattle.capacity.specs.declared.group.CounterGroup.{CounterGroup};
ghost use Rattle.match_plans.specs.Narrow.{IsNarrow, IsNarrowOn, NarrowFor};

use crate::groups::{GROUPS, shows_units, standard_group};
use crate::total_counters::{TotalUnits, units_on};
use capacity::CounterGroup;
use chart_lines::charts::Line;
use chart_rules::Chart;
use hubs::setups::Setup;

/// A counter group that shows a total, and is too narrow for it.
#[derive(Clone, Copy, Debug, PartialEq, Eq)]
pub struct Narrow {
    /// The group.
    pub group: CounterGroup,
    /// How many positions the total needs.
    pub need: u32,
}

// Whether a group shows a total, and has too few positions for it, or for the lower half of one that takes two groups.
fn is_narrow(setup: &Setup, units: TotalUnits, group: CounterGroup) -> bool
    ensures { IsTrue result ↔ IsNarrow setup.now units.level units.wheel units.need group }
{
    shows_units(setup, units.level, units.wheel, group)
        && u32::from(group.width) < units.need
        && group.width < 8
}

// The first group that shows a total and is too narrow for it, if there is one.
fn narrow_with(setup: &Setup, units: TotalUnits) -> Option<Narrow>
    ensures found { IfSome result (NarrowFor setup.now units.level units.wheel units.need) }
    ensures none { IfNone result ((group : CounterGroup) → HasGroup standard group
        → ¬ IsNarrow setup.now units.level units.wheel units.need group) }
{
    for place in 0..GROUPS {
        let group = standard_group(place);
        if is_narrow(setup, units, group) {
            return Some(Narrow {
                group,
                need: units.need,
            });
        }
    }
    None
}

#[tactic(auto, using(crate::proofs::TooNarrow::no_total, crate::proofs::TooNarrow::of_total))]
/// The counter group that shows the total on a line of a chart, and is too narrow for it, if a total stands there and there is such a group.
pub fn narrow_group(chart: &Chart, setup: &Setup, line: &Line) -> Option<Narrow>
    ensures { IsNarrowOn chart.now.lines setup.now line.now result }
{
    let units = units_on(chart, line)?;
    narrow_with(setup, units)
}
