//! Laws of cycles as a whole. Each is a function that does nothing: its contract is the law.

ghost use Rattle.proof_cycles.specs.WholeCycles.Carries.{CarriesComeByWires, CarriesKeepApart, CarriesWaitForTheClosingPoint};
ghost use Rattle.proof_cycles.specs.WholeCycles.RingRuns.{RingsRunByThemselves};
ghost use Rattle.proof_cycles.specs.WholeCycles.Rings.{RingsTurnByThemselves};
ghost use Rattle.proof_cycles.specs.WholeCycles.Laws.{ContactsAreOneDeep, CyclesAreWhole, CyclesEmitAtSources, MachinesStayBetween, MachinesStayReady, UnitsAreByName, WheelsHaveTheirJacks};

/// A cycle of a machine between cycles is its control point, its twelve rows side by side and its closing point, and leaves each
/// unit as these pictures have it.
pub fn cycles_are_whole()
    ensures { CyclesAreWhole }
{}

/// A machine starts between cycles, and is between cycles after each of its cycles.
pub fn machines_stay_between()
    ensures { MachinesStayBetween }
{}

/// A machine is between cycles, and as its setup has it, at the start, after each of its cycles and after each feed.
pub fn machines_stay_ready()
    ensures { MachinesStayReady }
{}

/// The wheels of a cycle, each with all that it receives, have the jacks that the setup has plugged.
pub fn wheels_have_their_jacks()
    ensures { WheelsHaveTheirJacks }
{}

/// Where no wire leads from a contact's exit to a common hub, an impulse passes one contact at most, and goes one of four ways, at
/// the points at which no carry passes.
pub fn contacts_are_one_deep()
    ensures { ContactsAreOneDeep }
{}

/// In each cycle the exits of stations, comparing, counter groups, storage, emitters and program unit emit, and no other hub does.
pub fn cycles_emit_at_sources()
    ensures { CyclesEmitAtSources }
{}

/// A counter group or a storage unit, told by its name, alone emits at its exits and closes its contacts, and goes through a
/// cycle by itself.
pub fn units_are_by_name()
    ensures { UnitsAreByName }
{}

/// Carries pass at the closing point alone, and where wires from carries lead to carries alone, all other hubs are impulsed there as
/// if none passed.
pub fn carries_keep_apart()
    ensures apart { CarriesKeepApart }
    ensures wait { CarriesWaitForTheClosingPoint }
{}

/// Groups get their carries by their wires: as in a ring where a group is wired to itself, and through both where two groups are
/// wired to one another.
pub fn carries_come_by_wires()
    ensures { CarriesComeByWires }
{}

/// Where no two groups are joined, each group that is wired from its carry exit to its carry entry turns as a ring by itself, every
/// other one on the line, and all hubs but those of carries are impulsed as if no carry passed.
pub fn rings_turn_by_themselves()
    ensures { RingsTurnByThemselves }
{}

/// Where no two groups are joined, a cycle of the machine is one in which carries are no impulses and each group turns by itself, and
/// each such cycle is one of the machine. So in a run over a deck the same cycles run and the same lines are placed: such a setup
/// prints what it prints where carries are no impulses.
pub fn rings_run_by_themselves()
    ensures { RingsRunByThemselves }
{}
