//! A cycle of the machine: its fourteen points, and its end.

ghost use Rattle.std.specs.Prelude.{◌≡◌};

use crate::closed::Closed;
use crate::groups::{carrying, comes_to_nines, emit_carries, nines, sense_groups};
use crate::units::Units;
use card_code::Row;
use net::{Cycle, Net, Orders, POINTS, Picture, Point, RowSets, Straight, Unit};
use selectors::{steady_contacts, with_carries, with_splits};

impl Units {
    ghost use Rattle.std.specs.Prelude.{◌≡◌, ℕ, true, false, All, None, IfSome, slice_index_or};
    ghost use Rattle.net.specs.Orders.{AreToldBy};
    ghost use Rattle.net.specs.declared.cycle.Point.TheVariants.{C, K};
    ghost use Rattle.std.specs.Option.{ForSome};
    ghost use Rattle.hubs.specs.SetupsWords.Wiring.{Wiring};
    ghost use Rattle.net.specs.Nets.{IsNetOf};
    ghost use Rattle.net.specs.HubSets.{has_hub, is_bit};
    ghost use Rattle.net.specs.Impulsed.{IsPicture};
    ghost use Rattle.machine.specs.Cycles.{PointStep, CycleRun, Reached};
    ghost use Rattle.machine.specs.Ends.{SensesSome, EndsCycle};
    ghost use Rattle.hubs.specs.declared.hub.Hub.{Hub};
    ghost use Rattle.machine.specs.Machine.{closes, emits};
    ghost use Rattle.machine.specs.Steady.{AreSteady, carries_of};
    ghost use Rattle.net.specs.RowSets.{LeadsToNoContact};
    ghost use Rattle.net.specs.declared.cycle.Cycle.{Cycle};
    ghost use Rattle.net.specs.declared.cycle.Cycle.TheVariants.{Card};
    ghost use Rattle.net.specs.HubRows.{has_row_at};
    ghost use Rattle.net.specs.Straight.{AreStraight, IsInside};
    ghost use Rattle.machine.specs.Keeps.{Keeps};
    ghost use Rattle.machine.specs.AllRows.{RunsRows};

    // A cycle: its points, and then its end. The sets are room for those of its rows, whatever they had before.
    pub(crate) fn run_cycle(&mut self, net: &Net, sets: &mut RowSets, cycle: Cycle)
        ensures ran { (wiring : Wiring) → IsNetOf wiring net.now → CycleRun wiring cycle self.old self.new }
        ensures ends { EndsCycle cycle self.old self.new }
    {
        self.run_points(net, sets, cycle);
        self.end_cycle(cycle);
    }

    // The points of a cycle. If columns come straight to wheels no wire leads to a contact, and no closed one is looked for.
    pub(crate) fn run_points(&mut self, net: &Net, sets: &mut RowSets, cycle: Cycle)
        ensures reached { (wiring : Wiring) → IsNetOf wiring net.now → Reached wiring cycle 14 self.old self.new }
        ensures keeps { Keeps cycle self.old self.new }
    {
        if let (Cycle::Card, Some(runs)) = (cycle, net.straight()) {
            self.run_straight_points(net, runs, sets);
        } else {
            self.run_contact_points(net, sets, cycle);
        }
    }

    // The points of a card cycle, if columns come straight to wheels.
    fn run_straight_points(&mut self, net: &Net, runs: &[Straight], silence: &mut RowSets)
        requires inside { All IsInside runs.now }
        requires straight { (wiring : Wiring) → IsNetOf wiring net.now → AreStraight wiring runs.now }
        requires direct { (wiring : Wiring) → IsNetOf wiring net.now → LeadsToNoContact wiring }
        ensures reached { (wiring : Wiring) → IsNetOf wiring net.now → Reached wiring Card 14 self.old self.new }
        ensures keeps { Keeps Card self.old self.new }
    {
        self.run_control(net, None, Cycle::Card);
        silence.clear();
        self.run_straight_rows(runs, silence);
        self.run_closing(net, None, Cycle::Card);
    }

    // The points of any cycle. Closed contacts are gathered here, and not in `run_points`, since a function clears room for them even if it
    // doesn't use it.
    fn run_contact_points(&mut self, net: &Net, sets: &mut RowSets, cycle: Cycle)
        ensures reached { (wiring : Wiring) → IsNetOf wiring net.now → Reached wiring cycle 14 self.old self.new }
        ensures keeps { Keeps cycle self.old self.new }
    {
        let closed = self.closed(cycle);
        self.run_control(net, Some(&closed), cycle);
        self.run_rows(net, &closed, sets, cycle);
        self.run_closing(net, Some(&closed), cycle);
    }

    // The control point. What is told there hangs on the cycle and on which contacts are closed alone, so the wires need not be followed,
    // unless an impulse comes from one contact to another.
    fn run_control(&mut self, net: &Net, closed: Option<&Closed>, cycle: Cycle)
        requires { ForSome closed (λ kept. AreSteady cycle kept.now self.old) }
        ensures step { (wiring : Wiring) → IsNetOf wiring net.now → PointStep wiring cycle C self.old self.new }
        ensures senses { SensesSome cycle C self.old self.new }
        ensures steady { ForSome closed.entry (λ kept. AreSteady cycle kept.now self.new) }
    {
        match self.told(net, closed, cycle) {
            Some(orders) => self.obey(&orders),
            None => self.step_control(net, closed, cycle),
        }
    }

    // The control point, where an impulse may come from one contact to another. Closed contacts are left out only where no wire leads to
    // one, and there the wires tell all. But a net doesn't promise that they do, so contacts are closed here if they were left out.
    fn step_control(&mut self, net: &Net, closed: Option<&Closed>, cycle: Cycle)
        requires { ForSome closed (λ kept. AreSteady cycle kept.now self.old) }
        ensures step { (wiring : Wiring) → IsNetOf wiring net.now → PointStep wiring cycle C self.old self.new }
        ensures senses { SensesSome cycle C self.old self.new }
    {
        match closed {
            Some(closed) => self.step(net, closed, cycle, Point::C),
            None => {
                let closed = self.closed(cycle);
                self.step(net, &closed, cycle, Point::C);
            }
        }
    }

    // What is told at the control point, where that is known.
    fn told(&self, net: &Net, closed: Option<&Closed>, cycle: Cycle) -> Option<Orders>
        requires { ForSome closed (λ kept. AreSteady cycle kept.now self.now) }
        ensures { (wiring : Wiring) → IsNetOf wiring net.now
            → IfSome result (AreToldBy wiring cycle (closes self.now cycle C)) }
    {
        // That the groups stand in order the prover learns only where they are used: this spares a clause in every call that takes contacts.
        let _groups = &self.all.groups;
        match closed {
            Some(closed) => net.told(cycle, &closed.steady),
            None => net.told_by_wires(cycle),
        }
    }

    // The closing point. Mostly nothing emits there: only comparing and the counter groups may.
    fn run_closing(&mut self, net: &Net, closed: Option<&Closed>, cycle: Cycle)
        requires { ForSome closed (λ kept. AreSteady cycle kept.now self.old) }
        ensures step { (wiring : Wiring) → IsNetOf wiring net.now → PointStep wiring cycle K self.old self.new }
        ensures senses { SensesSome cycle K self.old self.new }
    {
        let carrying = carrying(&self.all.groups, self.busy);
        if carrying == 0 && !self.all.comparing.has_difference() {
            self.close_in_silence(cycle);
        } else {
            self.close(net, closed, cycle, carrying);
        }
    }

    // The closing point, if nothing is impulsed. The program unit senses that, and so do the counter groups, since a carry may have come in
    // before. All other units stay as they are.
    fn close_in_silence(&mut self, cycle: Cycle)
        requires { (exit : Hub) → emits self.old cycle K exit ≡ false }
        ensures step { (wiring : Wiring) → PointStep wiring cycle K self.old self.new }
        ensures senses { SensesSome cycle K self.old self.new }
    {
        let silence = Picture::new();
        let busy = sense_groups(&mut self.all.groups, self.busy, cycle, Point::K, &silence);
        self.busy = busy;
        self.all.program.sense(cycle, Point::K, &silence);
    }

    // The closing point, if something emits: comparing, or the groups that a carry leaves, a bit for each. Mostly no impulse comes to a contact
    // there: closed ones are looked for only if one does.
    fn close(&mut self, net: &Net, closed: Option<&Closed>, cycle: Cycle, carrying: u64)
        requires steady { ForSome closed (λ kept. AreSteady cycle kept.now self.old) }
        requires carrying { (k : ℕ) → is_bit carrying k ≡ slice_index_or (carries_of self.old.groups) k false }
        ensures step { (wiring : Wiring) → IsNetOf wiring net.now → PointStep wiring cycle K self.old self.new }
        ensures senses { SensesSome cycle K self.old self.new }
    {
        let mut emitted = Picture::new();
        self.all.comparing.emit(cycle, Point::K, &mut emitted);
        emit_carries(carrying, &mut emitted);
        let mut picture = Picture::new();
        self.impulse_closing(net, closed, cycle, &emitted, &mut picture);
        self.sense(cycle, Point::K, &picture);
    }

    // Makes the picture of the exits that emit at the closing point, by the wires alone where that is right. So it always is where closed
    // contacts are left out, as no wire leads to one there. But a net doesn't promise that, so contacts are closed here then.
    fn impulse_closing(
        &self,
        net: &Net,
        closed: Option<&Closed>,
        cycle: Cycle,
        exits: &Picture,
        picture: &mut Picture,
    )
        requires { ForSome closed (λ kept. AreSteady cycle kept.now self.now) }
        ensures { (wiring : Wiring)
            → IsNetOf wiring net.now
            → IsPicture wiring (has_hub exits.now) (closes self.now cycle K) (has_hub picture.new) }
    {
        if self.impulse_by_wires(net, exits, picture) {
            return;
        }
        match closed {
            Some(closed) => self.impulse(net, closed, cycle, Point::K, exits, picture),
            None => self.impulse(net, &self.closed(cycle), cycle, Point::K, exits, picture),
        }
    }

    // Makes what the wires alone make of the exits that emit at the closing point. Answers whether that is the picture, whatever contacts are
    // closed: so it is unless a carry comes to a group that stands at nines.
    fn impulse_by_wires(&self, net: &Net, exits: &Picture, picture: &mut Picture) -> bool
        ensures { result ≡ true
            → (wiring : Wiring)
            → IsNetOf wiring net.now
            → (cycle : Cycle)
            → IsPicture wiring (has_hub exits.now) (closes self.now cycle K) (has_hub picture.new) }
    {
        if net.picture_by_wires(exits, picture) {
            !comes_to_nines(&self.all.groups, picture)
        } else {
            false
        }
    }

    // The points of the rows in a card cycle, if columns of the card at second reading come straight to wheels, and no other wire carries
    // rows. All other units sense silence: counter groups and storage units by sets without rows.
    fn run_straight_rows(&mut self, runs: &[Straight], silence: &RowSets)
        requires inside { All IsInside runs.now }
        requires silent { (row : ℕ) (hub : Hub) → has_row_at silence.now row hub ≡ false }
        ensures ran { (wiring : Wiring) → AreStraight wiring runs.now → LeadsToNoContact wiring → RunsRows wiring Card self.old self.new }
        ensures keeps { Keeps Card self.old self.new }
    {
        self.sense_groups_and_storage(Cycle::Card, silence);
        self.all.comparing.sense_no_rows();
        self.all.pilots.sense_no_rows(Cycle::Card);
        self.all
            .wheels
            .receive_columns(runs, self.all.stations.second_columns());
    }

    // The points of the rows, all at once. They are taken one by one if an impulse passes one contact behind another, or if there are
    // more wires than the net follows one by one.
    fn run_rows(&mut self, net: &Net, closed: &Closed, sets: &mut RowSets, cycle: Cycle)
        requires { AreSteady cycle closed.now self.old }
        ensures ran { (wiring : Wiring) → IsNetOf wiring net.now → RunsRows wiring cycle self.old self.new }
        ensures keeps { Keeps cycle self.old self.new }
        ensures steady { AreSteady cycle closed.now self.new }
    {
        sets.clear();
        self.emit_rows(cycle, sets);
        if net.spread_through(cycle, &closed.digits, &closed.zones, sets) {
            self.sense_rows(cycle, sets);
        } else {
            self.step_rows(net, closed, cycle);
        }
    }

    // The points of the rows, one by one.
    fn step_rows(&mut self, net: &Net, closed: &Closed, cycle: Cycle)
        requires { AreSteady cycle closed.now self.old }
        ensures ran { (wiring : Wiring) → IsNetOf wiring net.now → RunsRows wiring cycle self.old self.new }
        ensures keeps { Keeps cycle self.old self.new }
        ensures steady { AreSteady cycle closed.now self.new }
    {
        for place in 1..13 {
            self.step(net, closed, cycle, POINTS[place]);
        }
    }

    // The closed contacts of a cycle but for those of the carries.
    pub(crate) fn closed(&self, cycle: Cycle) -> Closed
        ensures { AreSteady cycle result self.now }
    {
        let steady = steady_contacts(cycle, &self.all.pilots, &self.all.indicate, &self.latches);
        Closed {
            steady,
            digits: with_splits(steady, Point::Row(Row::Nine)),
            zones: with_splits(steady, Point::Row(Row::Twelve)),
        }
    }

    // A point: all units emit, and then all sense the picture that wires and closed contacts make of that.
    pub(crate) fn step(&mut self, net: &Net, closed: &Closed, cycle: Cycle, point: Point)
        requires { AreSteady cycle closed.now self.old }
        ensures step { (wiring : Wiring) → IsNetOf wiring net.now → PointStep wiring cycle point self.old self.new }
        ensures senses { SensesSome cycle point self.old self.new }
    {
        let mut exits = Picture::new();
        self.emit(cycle, point, &mut exits);
        let mut picture = Picture::new();
        self.impulse(net, closed, cycle, point, &exits, &mut picture);
        self.sense(cycle, point, &picture);
    }

    // Makes the picture of the exits that emit at a point. At the closing point the contacts of the carries may be closed too, but they
    // lead on only where a carry comes to a group that stands at nines.
    fn impulse(
        &self,
        net: &Net,
        closed: &Closed,
        cycle: Cycle,
        point: Point,
        exits: &Picture,
        picture: &mut Picture,
    )
        requires { AreSteady cycle closed.now self.now }
        ensures { (wiring : Wiring)
            → IsNetOf wiring net.now
            → IsPicture wiring (has_hub exits.now) (closes self.now cycle point) (has_hub picture.new) }
    {
        net.picture(exits, closed.at(point), picture);
        match point {
            Point::C | Point::Row(_) => {}
            Point::K => {
                if comes_to_nines(&self.all.groups, picture) {
                    let contacts = with_carries(*closed.at(point), point, &nines(&self.all.groups));
                    net.picture(exits, &contacts, picture);
                }
            }
        }
    }
}
