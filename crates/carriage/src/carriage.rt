//! The carriage, unit 44: the place on the form and the restore latch.

ghost use Rattle.std.specs.Prelude.{◌≡◌};

use crate::asked::Asked;
use crate::spot::Spot;
use hubs::Hub;
use hubs::setups::{Setup, Tape};
use net::{Cycle, Ordinal, Picture, Point, Printing, Unit};
use std::marker::Model;

/// The carriage. At the end of a cycle it moves as was asked for at the control point, and a printing cycle places its line.
///
/// It emits nothing and has no contacts.
#[derive(Clone, Copy, Debug, PartialEq, Eq)]
pub struct Carriage {
    tape: Tape,
    printing: Printing,
    spot: Spot,
    asked: Asked,
    // Where the cycle that ended last placed its line.
    printed: Option<(u64, u32)>,
}

impl Model for Carriage {
    ghost use Rattle.carriage.specs.Carriage.{CarriageState};

    ghost Value = { CarriageState };

    ghost view = { λ c. record { form = c.tape; printing = c.printing; spot = c.spot; asked = c.asked; printed = c.printed } };

    ghost inverse = { λ s. record { tape = s.form; printing = s.printing; spot = s.spot; asked = s.asked; printed = s.printed } };
}

impl Carriage {
    ghost use Rattle.std.specs.Prelude.{◌≡◌, Bool};
    ghost use Rattle.hubs.specs.declared.hub.Hub.{Hub};
    ghost use Rattle.hubs.specs.declared.hub.Hub.TheVariants.{SP};
    ghost use Rattle.net.specs.Orders.{IsRowOf};
    ghost use Rattle.net.specs.declared.cycle.Cycle.{Cycle};
    ghost use Rattle.net.specs.declared.cycle.Point.TheVariants.{C};
    ghost use Rattle.carriage.specs.Carriage.{carriage_at_start, carriage_sensed, moved};

    /// The carriage of a setup, before the first page, with its restore latch set.
    pub fn new(setup: &Setup) -> Self
        ensures { result ≡ carriage_at_start setup.now }
    {
        Carriage {
            tape: *setup.tape(),
            printing: Printing::of(setup),
            spot: Spot {
                page: 0,
                line: 0,
                latch: true,
            },
            asked: Asked::nothing(),
            printed: None,
        }
    }

    /// The page and the line at which the carriage stands: page 0 before the first one.
    pub fn place(&self) -> (u64, u32)
        ensures { result ≡ (self.now.spot.page, self.now.spot.line) }
    {
        (self.spot.page, self.spot.line)
    }

    /// The restore latch: heading cycles run before the next printing cycle while it is set.
    pub fn latch(&self) -> bool
        ensures { result ≡ self.now.spot.latch }
    {
        self.spot.latch
    }

    /// The page and the line at which the cycle that ended last placed its line: `None` if it did not print, and before any cycle.
    pub fn printed(&self) -> Option<(u64, u32)>
        ensures { result ≡ self.now.printed }
    {
        self.printed
    }

    /// Senses the control point, by the row of its hubs from SP.2 on.
    pub fn sense_controls(&mut self, row: u128)
        ensures { (cycle : Cycle) (picture : Hub → Bool) → IsRowOf (SP 2) picture row
            → self.new ≡ carriage_sensed self.old cycle C picture }
    {
        self.asked = Asked::by(row);
    }

    // The first move at the end of a cycle.
    fn moved(&self, cycle: Cycle, prints: bool) -> Spot
        ensures { result ≡ moved self.now.form cycle prints self.now.asked.lines self.now.spot }
    {
        let mut spot = self.spot;
        if let Cycle::Head(Ordinal::First) = cycle {
            spot.begin_page(&self.tape);
        } else if prints {
            spot.down_by(&self.tape, u32::from(self.asked.lines));
        }
        spot
    }
}

impl Unit for Carriage {
    ghost use Rattle.carriage.specs.OwnHubs.{carriage_keeps};
    ghost use Rattle.std.proofs.Common.{refl};
    ghost use Rattle.net.specs.Nothing.{emits_nothing, closes_nothing};
    ghost use Rattle.carriage.specs.Carriage.{carriage_sensed, carriage_ended, carriage_number};

    ghost emits = { emits_nothing };

    ghost closes = { closes_nothing };

    ghost sensed = { carriage_sensed };

    ghost ended = { carriage_ended };

    ghost number = { carriage_number };

    ghost keeps_to_its_own = { carriage_keeps };

    ghost emits_steadily = { λ unit cycle at other picture hub. refl };

    ghost closes_steadily = { λ unit cycle at other picture hub. refl };

    fn emit(&self, _cycle: Cycle, _point: Point, _exits: &mut Picture) {}

    fn sense(&mut self, _cycle: Cycle, point: Point, picture: &Picture) {
        if let Point::C = point {
            self.sense_controls(picture.row(Hub::SP(2)));
        }
    }

    fn end_cycle(&mut self, cycle: Cycle) {
        let prints = self.printing.prints(cycle);
        self.spot = self.moved(cycle, prints);
        self.printed = prints.then_some(self.place());
        if let Some(channel) = self.asked.channel {
            self.spot.skip(&self.tape, channel);
        }
        self.spot.restore(self.asked.restore);
        self.asked = Asked::nothing();
    }
}
