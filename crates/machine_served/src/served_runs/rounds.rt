//! A cycle, in rounds by the orders of a service.

ghost use Rattle.std.specs.Prelude.{◌≤◌, ◌<◌, ◌+◌, ◌^◌};
ghost use Rattle.machine_served.specs.ServedRuns.Course.{IsPanelOf};
ghost use Rattle.machine_served.specs.ServedRuns.Runs.{CycleInRounds, most_rounds, most_seen};
ghost use Rattle.hubs.specs.SetupsWords.Wiring.{Wiring};

use crate::served::Service;
use crate::served_runs::counts::Counts;
use crate::served_runs::course::{Course, Panel};
use machine::UnitSet;
use net::Cycle;

// A cycle, in rounds until it is over for all units; then each ends it.
pub(crate) fn serve_cycle(
    units: UnitSet,
    panel: &Panel,
    cycle: Cycle,
    service: &Service,
    before: Counts,
) -> (UnitSet, Counts)
    requires panel { (wiring : Wiring) × IsPanelOf wiring panel.now }
    requires rounds { before.rounds + most_rounds < 2 ^ 64 }
    requires seen { before.seen + most_seen < 2 ^ 64 }
    ensures ran { (wiring : Wiring) → IsPanelOf wiring panel.now
        → CycleInRounds wiring service.now cycle units result.0 before result.1 }
    ensures few_rounds { result.1.rounds ≤ before.rounds + most_rounds }
    ensures few_seen { result.1.seen ≤ before.seen + most_seen }
{
    let mut counts = before;
    let mut course = Course::start(units, cycle);
    while !course.is_over() {
        counts.seen += course.round(panel, cycle, service.order(counts.rounds));
        counts.rounds += 1;
    }
    let mut units = course.units;
    units.end_cycle(cycle);
    (units, counts)
}
