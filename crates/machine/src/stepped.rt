//! The machine, taken through its cycles one by one.

use crate::kept::KeptPoint;
use crate::units::Units;
use card_code::Card;
use counters::Group;
use hubs::setups::Setup;
use net::{Cycle, Net, RowSets};
use page_text::placed_lines::PlacedLine;
use selectors::Pilots;
use std::alloc::{AllocError, Global};
use std::marker::Model;
use storage_units::Storage;

/// A machine with a setup of the panel, for those who look at it inside of its cycles.
///
/// Its caller runs a deck as the machine does. The first card is loaded before any cycle. Then, as long as a cycle is due, that one is
/// run: before a card cycle the cards move on by one, then come the points of the cycle, and then its end.
pub struct SteppedMachine {
    net: Net,
    units: Units,
}

// By hand, so that a function that drops one calls this, and doesn't drop its parts one by one.
impl Drop for SteppedMachine {
    fn drop(self) {
        let SteppedMachine {
            net: _net,
            units: _units,
        } = self;
    }
}

impl Model for SteppedMachine {
    ghost use Rattle.machine.specs.Stepped.{Stepped};

    ghost Value = { Stepped };

    ghost view = { λ stepped. record { net = stepped.net; machine = stepped.units } };
}

impl SteppedMachine {
    ghost use Rattle.std.specs.Prelude.{◌≡◌, IfOk, option_to_list};
    ghost use Rattle.hubs.specs.SetupsWords.Wiring.{Wiring};
    ghost use Rattle.net.specs.Nets.{IsNetOf};
    ghost use Rattle.machine.specs.Cycles.{Reached, line_of};
    ghost use Rattle.machine.specs.Kept.{KeepsPoints};
    ghost use Rattle.machine.specs.Machine.{ended};
    ghost use Rattle.machine.specs.Runs.{cycle_due, moved_on};
    ghost use Rattle.machine.specs.Stepped.{IsUnbegun};

    /// The machine of a setup, with no card in it and before any cycle. Fails only where no memory is left.
    pub fn new(alloc: Global, setup: &Setup) -> Result<SteppedMachine, AllocError>
        ensures { IfOk result (IsUnbegun setup.now) }
    {
        Ok(SteppedMachine {
            net: Net::of(alloc, setup)?,
            units: Units::new(setup),
        })
    }

    /// The cards move on by one: the next card of the hopper goes to first reading, `None` where it is empty.
    pub fn load(&mut self, next: Option<Card>)
        ensures machine { self.new.machine ≡ moved_on next self.old.machine }
        ensures net { self.new.net ≡ self.old.net }
    {
        self.units.load(&next);
    }

    /// The cycle that is due, `None` where the run is over.
    pub fn cycle_due(&self) -> Option<Cycle>
        ensures { result ≡ cycle_due self.now.machine }
    {
        self.units.all.cycle_due()
    }

    /// The fourteen points of a cycle. Counter groups and storage units have then taken what comes to them, and nothing has turned yet.
    pub fn run_points(&mut self, cycle: Cycle)
        ensures reached { (wiring : Wiring) → IsNetOf wiring self.old.net
            → Reached wiring cycle 14 self.old.machine self.new.machine }
        ensures net { self.new.net ≡ self.old.net }
    {
        self.units.run_points(&self.net, &mut RowSets::new(), cycle);
    }

    /// The fourteen points of a cycle, as [`SteppedMachine::run_points`] has them, and what emitted at each and which contacts were closed.
    pub fn run_points_kept(&mut self, cycle: Cycle) -> [KeptPoint; 14]
        ensures reached { (wiring : Wiring) → IsNetOf wiring self.old.net
            → Reached wiring cycle 14 self.old.machine self.new.machine }
        ensures kept { (wiring : Wiring) → IsNetOf wiring self.old.net
            → KeepsPoints wiring cycle self.old.machine 14 result }
        ensures net { self.new.net ≡ self.old.net }
    {
        self.units.run_points_kept(&self.net, cycle)
    }

    /// The end of a cycle, behind its points.
    pub fn end_cycle(&mut self, cycle: Cycle)
        ensures machine { self.new.machine ≡ ended self.old.machine cycle }
        ensures net { self.new.net ≡ self.old.net }
    {
        self.units.end_cycle(cycle);
    }

    /// The line that the cycle placed which ended last, if it placed one.
    pub fn line(&self) -> Option<PlacedLine>
        ensures { option_to_list result ≡ line_of self.now.machine }
    {
        self.units.all.placed_line()
    }

    /// The counter groups in the order of their units: eight of each width, the narrow ones first.
    pub fn groups(&self) -> &[Group]
        ensures { result.now ≡ self.now.machine.groups }
    {
        self.units.all.groups.as_slice()
    }

    /// The storage units 1 to 4.
    pub fn storage(&self) -> &[Storage]
        ensures { result.now ≡ self.now.machine.storage }
    {
        self.units.all.storage.as_slice()
    }

    /// The pilots.
    pub fn pilots(&self) -> &Pilots
        ensures { result.now ≡ self.now.machine.pilots }
    {
        &self.units.all.pilots
    }
}
