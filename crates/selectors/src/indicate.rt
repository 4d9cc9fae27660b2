//! Group indication.

use crate::spread::spread;
use hubs::Hub;
use net::{Contacts, Cycle, Ordinal, Picture, Point, ProgramLevel, Unit};
use std::marker::Model;

/// Group indication: 30 positions on each of the levels 1 to 3, which lead on in the first card cycle of a group.
///
/// A latch for each level is set at the start, and at the end of the level's third program cycle. All are reset at
/// the end of every card cycle, whether it prints or not.
#[derive(Clone, Copy, Debug, PartialEq, Eq)]
pub struct Indicate {
    minor: bool,
    intermediate: bool,
    major: bool,
}

impl Model for Indicate {
    ghost use Rattle.selectors.specs.Indicate.{Latches};

    ghost Value = { Latches };

    ghost use Rattle.selectors.specs.Fields.{indicate_latches};

    ghost view = { indicate_latches };

    ghost inverse = { λ l. record { minor = l.minor; intermediate = l.intermediate; major = l.major } };
}

impl Indicate {
    ghost use Rattle.std.specs.Prelude.{◌≡◌};
    ghost use Rattle.net.specs.HubSets.{GainsHubs};
    ghost use Rattle.net.specs.declared.cycle.Point.{Point};
    ghost use Rattle.selectors.specs.Indicate.{indicate_at_start, is_latch_set, indicate_closes};

    /// All latches are set.
    pub fn new() -> Self
        ensures { result ≡ indicate_at_start }
    {
        Indicate {
            minor: true,
            intermediate: true,
            major: true,
        }
    }

    /// Whether the latch of a level, 1 to 3, is set. No other level has one.
    pub fn latch(&self, level: u8) -> bool
        ensures { result ≡ is_latch_set self.now level }
    {
        match level {
            1 => self.minor,
            2 => self.intermediate,
            3 => self.major,
            _ => false,
        }
    }

    /// Closes, in a card cycle, the contacts of the positions of the levels whose latches are set. They stay so through
    /// all points of the cycle.
    #[inline(always)]
    pub fn close(&self, cycle: Cycle, contacts: &mut Contacts)
        ensures { (point : Point) → GainsHubs (indicate_closes self.now cycle point) contacts.old contacts.new }
    {
        if let Cycle::Card = cycle {
            let latches = [self.minor, self.intermediate, self.major];
            contacts.insert_row(Hub::IX(1, 1), spread(&latches, 30));
        }
    }
}

impl Unit for Indicate {
    ghost use Rattle.selectors.specs.OwnHubs.{indicate_keeps};
    ghost use Rattle.std.specs.Prelude.{refl};
    ghost use Rattle.net.specs.Nothing.{emits_nothing, senses_nothing};
    ghost use Rattle.selectors.specs.Indicate.{indicate_closes, indicate_ended, indicate_number};

    ghost emits = { emits_nothing };

    ghost closes = { indicate_closes };

    ghost sensed = { senses_nothing };

    ghost ended = { indicate_ended };

    ghost number = { indicate_number };

    fn emit(&self, _cycle: Cycle, _point: Point, _exits: &mut Picture) {}

    fn sense(&mut self, _cycle: Cycle, _point: Point, _picture: &Picture) {}

    fn end_cycle(&mut self, cycle: Cycle) {
        match cycle {
            Cycle::Card => {
                self.minor = false;
                self.intermediate = false;
                self.major = false;
            }
            Cycle::Prog(ProgramLevel::Minor, Ordinal::Third) => self.minor = true,
            Cycle::Prog(ProgramLevel::Intermediate, Ordinal::Third) => self.intermediate = true,
            Cycle::Prog(ProgramLevel::Major, Ordinal::Third) => self.major = true,
            _ => {}
        }
    }

    ghost keeps_to_its_own = { indicate_keeps };

    ghost emits_steadily = { λ unit cycle at other picture hub. refl };

    ghost closes_steadily = { λ unit cycle at other picture hub. refl };
}
