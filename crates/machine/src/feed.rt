//! A feed: the next card, or the end, and the cycles that follow.

use crate::units::Units;
use card_code::Card;
use net::{Cycle, Net, RowSets};
use page_text::placed_lines::PlacedLine;
use std::alloc::AllocError;

impl Units {
    ghost use Rattle.std.specs.Prelude.{◌≡◌, Some, OnOk, OnErr};
    ghost use Rattle.hubs.specs.SetupsWords.Wiring.{Wiring};
    ghost use Rattle.net.specs.Nets.{IsNetOf};
    ghost use Rattle.machine.specs.Ends.{GoesOn};
    ghost use Rattle.machine.specs.Gains.{GainsFeed, GainsPrefix};
    ghost use Rattle.machine.specs.Feeds.{begun, due_in, taken, FeedStep};
    ghost use Rattle.machine.specs.Runs.{moved_on};

    // Begins a feed, and answers whether what is fed waits: the first card goes to first reading at once.
    pub(crate) fn begin(&mut self, next: &Option<Card>) -> bool
        ensures { begun self.old next.now ≡ record { machine = self.new; waits = result; next = next.now } }
    {
        if self.all.program.is_fresh() {
            self.load(next);
            false
        } else {
            true
        }
    }

    // The cards move on by one.
    pub(crate) fn load(&mut self, next: &Option<Card>)
        ensures { self.new ≡ moved_on next.now self.old }
    {
        self.all.load(next);
    }

    // The cycle that is due in a feed, if any.
    pub(crate) fn due_in(&self, waits: bool, _next: &Option<Card>) -> Option<Cycle>
        ensures { result ≡ due_in (record { machine = self.now; waits = waits; next = _next.now }) }
    {
        if waits || !self.all.program.card_over(self.all.stations.has_first()) {
            self.all.cycle_due()
        } else {
            None
        }
    }

    // Takes what is fed where a card cycle is due, and answers whether something still waits.
    pub(crate) fn take(&mut self, cycle: Cycle, waits: bool, next: &Option<Card>) -> bool
        ensures { taken cycle (record { machine = self.old; waits = waits; next = next.now })
            ≡ record { machine = self.new; waits = result; next = next.now } }
    {
        match cycle {
            Cycle::Card => {
                self.load(next);
                false
            }
            Cycle::RunIn | Cycle::Prog(_, _) | Cycle::Head(_) => waits,
        }
    }

    // Runs the cycle that is due, and answers whether something still waits.
    fn run_due(
        &mut self,
        net: &Net,
        sets: &mut RowSets,
        cycle: Cycle,
        waits: bool,
        next: &Option<Card>,
    ) -> bool
        requires { due_in (record { machine = self.old; waits = waits; next = next.now }) ≡ Some cycle }
        ensures step { (wiring : Wiring)
            → IsNetOf wiring net.now
            → FeedStep wiring cycle (record { machine = self.old; waits = waits; next = next.now })
            (record { machine = self.new; waits = result; next = next.now }) }
        ensures goes_on { GoesOn cycle (record { machine = self.old; waits = waits; next = next.now })
            (record { machine = self.new; waits = result; next = next.now }) }
    {
        let waits = self.take(cycle, waits, next);
        self.run_cycle(net, sets, cycle);
        waits
    }

    // Feeds a card, or the end, runs the cycles that follow, and puts their lines after the others.
    pub(crate) fn feed(
        &mut self,
        net: &Net,
        sets: &mut RowSets,
        next: &Option<Card>,
        out: &mut Vec<PlacedLine>,
    ) -> Result<(), AllocError>
        ensures fed { OnOk result (GainsFeed net.now self.old next.now self.new out.old.items out.new.items) }
        ensures refused { OnErr result (GainsPrefix net.now self.old next.now out.old.items out.new.items) }
    {
        let mut waits = self.begin(next);
        while let Some(cycle) = self.due_in(waits, next) {
            waits = self.run_due(net, sets, cycle, waits, next);
            self.all.append_line(out)?;
        }
        Ok(())
    }
}
