//! The units of a machine in their states.

use crate::groups::groups_at_start;
use crate::rows::end_all;
use crate::storage_rows::{STORAGE_UNITS, storage_at_start};
use card_code::Card;
use carriage::Carriage;
use counters::Group;
use hubs::setups::Setup;
use net::{Cycle, Unit};
use print_unit::{Emitters, Wheels};
use program_unit::Program;
use selectors::{GROUPS, Indicate, Pilots, Splits};
use stations::{Comparing, Stations};
use std::marker::Model;
use storage_units::Storage;

/// The 45 units of a machine in their states. Counter groups and storage units stand in the order of their numbers.
#[derive(Drop)]
pub struct UnitSet {
    /// The reading stations, unit 1.
    pub stations: Stations,
    /// The comparing unit, 2.
    pub comparing: Comparing,
    /// The counter groups, 3 to 34.
    pub groups: [Group; GROUPS],
    /// The storage units, 35 to 38.
    pub storage: [Storage; STORAGE_UNITS],
    /// The pilots, unit 39.
    pub pilots: Pilots,
    /// Group indication, unit 40.
    pub indicate: Indicate,
    /// The splits, unit 41.
    pub splits: Splits,
    /// The emitters, unit 42.
    pub emitters: Emitters,
    /// The print wheels, unit 43.
    pub wheels: Wheels,
    /// The carriage, unit 44.
    pub carriage: Carriage,
    /// The program unit, 45.
    pub program: Program,
}

impl Model for UnitSet {
    ghost use Rattle.machine.specs.Machine.{MachineState};

    ghost Value = { MachineState };

    ghost use Rattle.machine.specs.Fields.{IsInUnitOrder, machine_in};

    ghost view = { machine_in };

    ghost invariant = { λ units. IsInUnitOrder (machine_in units) };
}

impl UnitSet {
    ghost use Rattle.std.specs.Prelude.{◌≡◌};
    ghost use Rattle.machine.specs.Fields.{IsInUnitOrder};
    ghost use Rattle.machine.specs.Machine.{ended, machine_at_start};
    ghost use Rattle.machine.specs.Runs.{cycle_due, moved_on};

    /// The units of a setup as they start, with no card in the machine.
    pub fn new(setup: &Setup) -> Self
        ensures { result ≡ machine_at_start setup.now }
    {
        UnitSet {
            stations: Stations::new(),
            comparing: Comparing::new(),
            groups: groups_at_start(),
            storage: storage_at_start(),
            pilots: Pilots::new(),
            indicate: Indicate::new(),
            splits: Splits::new(),
            emitters: Emitters::new(),
            wheels: Wheels::new(setup),
            carriage: Carriage::new(setup),
            program: Program::new(setup),
        }
    }

    /// The cards move on by one, and this card, if any, comes to first reading.
    pub fn load(&mut self, next: &Option<Card>)
        ensures { self.new ≡ moved_on next.now self.old }
    {
        self.stations.load_next(next);
    }

    /// The cycle that is due, if any.
    pub fn cycle_due(&self) -> Option<Cycle>
        ensures { result ≡ cycle_due self.now }
    {
        self.program
            .next_cycle(self.carriage.latch(), self.stations.has_first())
    }

    /// Each unit ends the cycle. That the units stand in order is told with it.
    pub fn end_cycle(&mut self, cycle: Cycle)
        ensures ended { self.new ≡ ended self.old cycle }
        ensures ordered { IsInUnitOrder self.old }
    {
        end_all(&mut self.groups, cycle);
        self.end_all_but_groups(cycle);
    }

    // Each unit but the counter groups ends the cycle.
    pub(crate) fn end_all_but_groups(&mut self, cycle: Cycle)
        ensures { self.new ≡ record (ended self.old cycle) { groups = self.old.groups } }
    {
        self.comparing.end_cycle(cycle);
        end_all(&mut self.storage, cycle);
        self.pilots.end_cycle(cycle);
        self.indicate.end_cycle(cycle);
        self.wheels.end_cycle(cycle);
        self.carriage.end_cycle(cycle);
        self.program.end_cycle(cycle);
    }
}
