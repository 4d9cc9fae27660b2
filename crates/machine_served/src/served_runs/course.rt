//! What stands inside a cycle, and the steps of a unit.

ghost use Rattle.std.specs.Prelude.{◌≡◌, ℕ, ◌-◌};
ghost use Rattle.hubs.specs.declared.hub.Hub.{Hub};
ghost use Rattle.net.specs.HubSets.{GainsHubs};
ghost use Rattle.net.specs.Cycles.{point_at};
ghost use Rattle.machine_served.specs.ServedWords.Orders.{unit_count};
ghost use Rattle.machine_served.specs.ServedWords.Units.{all_close};
ghost use Rattle.machine_served.specs.ServedUnits.AnyUnit.{any_kind, unit_at};

use crate::served_runs::sizes::size;
use crate::served_runs::units::{close_unit, emit_unit, sense_unit};
use crate::waits::{UNITS, has_bit};
use machine::UnitSet;
use net::{Contacts, Cycle, Net, POINTS, Picture};

// The wires of a panel, and for each unit, from unit 1 on, the word of the units that it waits for.
#[derive(Drop)]
pub(crate) struct Panel {
    pub(crate) net: Net,
    pub(crate) waits: [u64; UNITS],
}

// What stands inside a cycle.
#[derive(Drop)]
pub(crate) struct Course {
    pub(crate) units: UnitSet,
    // By the number of each unit, the place of the point to which it has come: 14 after the closing point. The number 0 is no unit's.
    places: [u8; UNITS + 1],
    // Whether it has emitted there.
    emitted: [bool; UNITS + 1],
    // By the places of the points, the exits emitted there so far.
    exits: [Picture; 14],
    // And the contacts closed there by the units that have come to it.
    closed: [Contacts; 14],
}

impl Course {
    ghost use Rattle.std.specs.Prelude.{◌≡◌, ◌≢◌, ◌↔◌, ◌<◌, ◌≤◌, ◌||◌, ◌+◌, ◌-◌, ◌*◌, ℕ, true};
    ghost use Rattle.machine_served.specs.ServedWords.Orders.{IsOrder, unit_count};
    ghost use Rattle.machine_served.specs.ServedWords.Steps.{AreOver, Emits, HasEmitted, MayEmit, MaySense, Starts};
    ghost use Rattle.machine_served.specs.ServedWords.Units.{IsUnit};
    ghost use Rattle.net.specs.HubSets.{has_hub, is_bit};
    ghost use Rattle.net.specs.Impulsed.{IsPicture};
    ghost use Rattle.net.specs.Nets.{IsNetOf};
    ghost use Rattle.machine_served.specs.ServedRuns.Course.{IsPanelOf, is_at, served_in};
    ghost use Rattle.machine_served.specs.ServedRuns.Seen.{RoundIs, SensesSo, TurnSees, hub_count};
    ghost use Rattle.hubs.specs.declared.hub.Hub.{Hub};
    ghost use Rattle.net.specs.Cycles.{point_at};
    ghost use Rattle.machine_served.specs.ServedUnits.AnyUnit.{any_closes, any_kind, unit_at};
    ghost use Rattle.hubs.specs.SetupsWords.Wiring.{Wiring};

    // The start of a cycle: all units have come to the control point, and none has emitted.
    pub(crate) fn start(units: UnitSet, cycle: Cycle) -> Self
        ensures { Starts any_kind cycle unit_count (unit_at units) (served_in result) }
    {
        let mut first = Contacts::new();
        close_all(&units, cycle, &mut first);
        let mut closed = [Contacts::new(); 14];
        closed[0] = first;
        Course {
            units,
            places: [0; UNITS + 1],
            emitted: [false; UNITS + 1],
            exits: [Picture::new(); 14],
            closed,
        }
    }

    // Whether the cycle is over for all units.
    pub(crate) fn is_over(&self) -> bool
        ensures { (result ≡ true) ↔ AreOver unit_count (served_in self.now) }
    {
        for unit in 1..=UNITS {
            if self.places[unit] != 14 {
                return false;
            }
        }
        true
    }

    // Whether a unit has emitted at the point with a place.
    fn has_emitted(&self, unit: usize, place: u8) -> bool
        requires { IsUnit unit_count unit }
        ensures { (result ≡ true) ↔ HasEmitted (served_in self.now) unit place }
    {
        let come = self.places[unit];
        place < come || come == place && self.emitted[unit]
    }

    // Whether all units of a word have emitted at the point with a place.
    fn have_emitted(&self, word: u64, place: u8) -> bool
        ensures { (result ≡ true)
            ↔ ((other : ℕ) → IsUnit unit_count other → is_bit word (other - 1) ≡ true → HasEmitted (served_in self.now) other place) }
    {
        for unit in 1..=UNITS {
            if has_bit(word, unit - 1) && !self.has_emitted(unit, place) {
                return false;
            }
        }
        true
    }

    // A unit emits at its point.
    fn emit(&mut self, cycle: Cycle, unit: u8)
        requires unit { IsUnit unit_count unit }
        requires may { MayEmit (served_in self.old) unit }
        ensures { Emits any_kind cycle unit (served_in self.old) (served_in self.new) }
    {
        let place = self.places[unit as usize] as usize;
        let mut exits = self.exits[place];
        emit_unit(&self.units, unit, cycle, POINTS[place], &mut exits);
        self.exits[place] = exits;
        self.emitted[unit as usize] = true;
    }

    // The picture of the point with a place, as it stands so far.
    fn picture(&self, net: &Net, place: usize) -> Picture
        requires { place < 14 }
        ensures { (wiring : Wiring) → IsNetOf wiring net.now
            → IsPicture wiring (is_at self.now.exits place) (is_at self.now.closed place) (has_hub result) }
    {
        let mut picture = Picture::new();
        net.picture(&self.exits[place], &self.closed[place], &mut picture);
        picture
    }

    // A unit has come to a point, and closes its contacts there.
    fn come(&mut self, cycle: Cycle, unit: u8)
        requires { IsUnit unit_count unit }
        ensures units { self.new.units ≡ self.old.units }
        ensures places { self.new.places ≡ self.old.places }
        ensures emitted { self.new.emitted ≡ self.old.emitted }
        ensures exits { self.new.exits ≡ self.old.exits }
        ensures own { (hub : Hub) → (served_in self.old).places unit < 14 → is_at self.new.closed ((served_in self.old).places unit) hub
            ≡ (is_at self.old.closed ((served_in self.old).places unit) hub
            || any_closes (unit_at self.old.units unit) cycle (point_at ((served_in self.old).places unit)) hub) }
        ensures others { (place : ℕ) (hub : Hub) → place < 14 → place ≢ (served_in self.old).places unit
            → is_at self.new.closed place hub ≡ is_at self.old.closed place hub }
    {
        let place = self.places[unit as usize] as usize;
        if place < 14 {
            let mut closed = self.closed[place];
            close_unit(&self.units, unit, cycle, POINTS[place], &mut closed);
            self.closed[place] = closed;
        }
    }

    // A unit senses at its point, and comes to the next one. Answers how many hubs its picture has.
    fn sense(&mut self, net: &Net, cycle: Cycle, unit: u8) -> u64
        requires unit { IsUnit unit_count unit }
        requires within { (served_in self.old).places unit < 14 }
        ensures senses { (wiring : Wiring) → IsNetOf wiring net.now → MaySense wiring unit_count (served_in self.old) unit
            → SensesSo wiring cycle unit (served_in self.old) (served_in self.new) result }
        ensures onward { (served_in self.new).places unit ≡ (served_in self.old).places unit + 1 }
        ensures few { result ≤ hub_count }
    {
        let place = self.places[unit as usize] as usize;
        let picture = self.picture(net, place);
        sense_unit(&mut self.units, unit, cycle, POINTS[place], &picture);
        self.places[unit as usize] += 1;
        self.emitted[unit as usize] = false;
        self.come(cycle, unit);
        size(&picture)
    }

    // A unit takes all steps that it can. Answers how many hubs its pictures have, all together.
    fn take_turn(&mut self, panel: &Panel, cycle: Cycle, unit: u8) -> u64
        requires { IsUnit unit_count unit }
        ensures turn { (wiring : Wiring) → IsPanelOf wiring panel.now
            → TurnSees wiring cycle unit (served_in self.old) (served_in self.new) result }
        ensures few { result ≤ 14 * hub_count }
    {
        let waits = panel.waits[unit as usize - 1];
        let mut seen = 0;
        while self.places[unit as usize] < 14 {
            if !self.emitted[unit as usize] {
                self.emit(cycle, unit);
            }
            if !self.have_emitted(waits, self.places[unit as usize]) {
                return seen;
            }
            seen += self.sense(&panel.net, cycle, unit);
        }
        seen
    }

    // A round: the units of the order take their turns, one after another. Answers how many hubs their pictures have.
    pub(crate) fn round(&mut self, panel: &Panel, cycle: Cycle, order: &[u8]) -> u64
        requires { IsOrder order.now }
        ensures round { (wiring : Wiring) → IsPanelOf wiring panel.now
            → RoundIs wiring cycle order.now (served_in self.old) (served_in self.new) result }
        ensures few { result ≤ 14 * hub_count * unit_count }
    {
        let mut seen = 0;
        for &unit in order {
            seen += self.take_turn(panel, cycle, unit);
        }
        seen
    }
}

// Closes the contacts of all units that are closed at the control point.
fn close_all(units: &UnitSet, cycle: Cycle, contacts: &mut Contacts)
    ensures { GainsHubs (all_close any_kind unit_count (unit_at units.now) cycle (point_at 0)) contacts.old contacts.new }
{
    for unit in 1..=UNITS as u8 {
        close_unit(units, unit, cycle, POINTS[0], contacts);
    }
}
