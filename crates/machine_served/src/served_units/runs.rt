//! Runs in which the units run ahead of one another. Each function does nothing: its contract is the law.

ghost use Rattle.net.specs.Units.{KeepsToItsOwn};
ghost use Rattle.machine_served.specs.ServedUnits.AnyUnit.{any_kind};
ghost use Rattle.machine_served.specs.ServedUnits.Laws.{ServedCyclesAreCycles, ServedRunsPrintTheSame};

/// All 45 units keep to their own hubs, as units of one kind.
pub fn units_keep_to_their_own()
    ensures { KeepsToItsOwn any_kind }
{}

/// The cycles by schedules are the cycles of the machine in which all units act at once.
pub fn served_cycles_are_cycles()
    ensures { ServedCyclesAreCycles }
{}

/// The lines of a run by any schedules are those of the machine, and there is a run by schedules, whatever the setup and the deck
/// are.
pub fn served_runs_print_the_same()
    ensures { ServedRunsPrintTheSame }
{}
