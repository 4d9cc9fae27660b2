//! Laws of units that run ahead of one another, over the states of any kind of units that keep to their own hubs. Each is a
//! function that does nothing: its contract is the law.

ghost use Rattle.net.specs.Units.{KeepsToItsOwn};
ghost use Rattle.machine_served.specs.ServedWords.Laws.{CyclesHaveTheirSteps, RoundsAreFew, RoundsAreSteps, SchedulesEndAsAtOnce, SomeUnitCanStep, UnitsCanActAtOnce, UnitsCanGoBySteps};

use net::Unit;

/// A unit of any type emits at its own exits, closes its own contacts and senses its own entries alone, whatever its state, and keeps
/// its number: each type of units proves it.
pub fn a_unit_keeps_to_its_own<U: Unit>()
    ensures { KeepsToItsOwn (record {
      emits = U.emits;
      closes = U.closes;
      sensed = U.sensed;
      ended = U.ended;
      number = U.number;
    }) }
{}

/// Whatever steps the units take until the cycle is over for all, each unit ends as it does where all units act at once.
pub fn schedules_end_as_at_once<State>()
    ensures { SchedulesEndAsAtOnce State }
{}

/// Units in any states can act at once, through all points of a cycle.
pub fn units_can_act_at_once<State>()
    ensures { UnitsCanActAtOnce State }
{}

/// Units in any states can go through a cycle by steps until it is over for all.
pub fn units_can_go_by_steps<State>()
    ensures { UnitsCanGoBySteps State }
{}

/// After any steps the cycle is over for all units, or some unit can step.
pub fn some_unit_can_step<State>()
    ensures { SomeUnitCanStep State }
{}

/// A cycle has two steps of each unit at each of its fourteen points: 1,260 of the 45 units.
pub fn cycles_have_their_steps<State>()
    ensures { CyclesHaveTheirSteps State }
{}

/// Rounds by orders are steps that are taken one after another until the cycle is over for all units.
pub fn rounds_are_steps<State>()
    ensures { RoundsAreSteps State }
{}

/// A cycle takes at most fifteen rounds by orders that name all units.
pub fn rounds_are_few<State>()
    ensures { RoundsAreFew State }
{}
