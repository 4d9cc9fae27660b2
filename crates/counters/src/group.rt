//! A counter group.

ghost use Rattle.std.specs.Prelude.{◌≡◌, ◌≤◌};

use crate::all_rows::{entered_after, positions_before, rows_shown};
use crate::controls::Controls;
use crate::digits::{Digits, from_units, number_of};
use crate::sensing::{FIRST, controls_in, controls_of, low_half, show, take_row, takes};
use crate::turn::{all_nines, carries_out, latch_after, turned};
use hubs::Hub;
use net::{Cycle, Picture, Point, RowSets, Unit};
use std::marker::Model;

/// The most positions that a group has.
pub(crate) const PLACES: usize = 8;

// The hub number of the first exit of the first group.
const FIRST_EXIT: u32 = 191;

/// A counter group: 3, 4, 6 or 8 positions that add, subtract and read out together.
///
/// The controls that are impulsed at the control point hold for the cycle. Under plus or minus each position takes
/// the earliest of the rows 9 to 1 at which it is impulsed; under read-out it emits its digit and starts from 0. At
/// the closing point it emits the carry that leaves its top at its carry exit, and takes a carry in at the units where its
/// carry entry is impulsed, under whatever controls. While all its positions stand at 9 a contact leads there from the one to
/// the other, so a carry that comes in goes on. At the end of the cycle the wheels turn, and their carries follow.
#[derive(Drop)]
pub struct Group {
    unit: u8,
    name: hubs::Group,
    // By place, the units first. Those after the top turn like the others, and are never looked at.
    digits: [u8; PLACES],
    entered: [u8; PLACES],
    // Whether a carry came in at the units, in the cycle that runs.
    carry: bool,
    controls: Controls,
    latch: bool,
}

impl Model for Group {
    ghost use Rattle.counters.specs.Counters.{Counter};

    ghost Value = { Counter };

    ghost use Rattle.counters.specs.Fields.{counter_in, IsOfItsUnit};

    ghost view = { counter_in };

    ghost invariant = { IsOfItsUnit };
}

impl Group {
    ghost use Rattle.std.specs.Prelude.{◌≡◌, ◌≤◌, false, reverse};
    ghost use Rattle.counters.specs.Counters.{counter_at_start, counter_ended, wheels_in};
    ghost use Rattle.counters.specs.Numbers.{number};
    ghost use Rattle.counters.specs.Wheels.{all_nines, carries_out};

    /// The group that is a unit, 3 to 34, with all wheels at 0 and its latch reset: eight groups each of 3, 4, 6 and
    /// 8 positions, in this order.
    pub fn new(unit: u8) -> Self
        requires from { 3 ≤ unit }
        requires to { unit ≤ 34 }
        ensures { result ≡ counter_at_start unit }
    {
        let name = group_of_unit(unit);
        Group {
            unit,
            name,
            digits: [0; PLACES],
            entered: [0; PLACES],
            carry: false,
            controls: Controls::none(),
            latch: false,
        }
    }

    /// The number that its digits spell.
    pub fn value(&self) -> u64
        ensures { result ≡ number self.now.digits }
    {
        number_of(&self.digits[..self.name.width as usize])
    }

    /// Its digits by position, from position 1, the units, to the top.
    pub fn digits(&self) -> Digits
        ensures { result ≡ reverse self.now.digits }
    {
        from_units(self.digits, self.name.width as usize)
    }

    /// Whether all its positions stand at 9: with the advance of the cycle that runs, by what was entered so far, and before any
    /// carry. It answers the same before and after the closing point is sensed.
    pub fn nines(&self) -> bool
        ensures { result ≡ all_nines (wheels_in self.now) }
    {
        let width = self.name.width as usize;
        all_nines(self.digits, self.entered, self.controls, width)
    }

    /// Whether a carry leaves its top at the closing point: as the wheels make it by themselves, by what was entered so far, and without
    /// one that comes in at the units.
    pub fn carries_out(&self) -> bool
        ensures { result ≡ carries_out (wheels_in self.now) false }
    {
        let width = self.name.width as usize;
        carries_out(self.digits, self.entered, self.controls, width)
    }

    /// The balance latch.
    pub fn latch(&self) -> bool
        ensures { result ≡ self.now.latch }
    {
        self.latch
    }

    /// Which group it is.
    pub fn name(&self) -> hubs::Group
        ensures { result ≡ self.now.name }
    {
        self.name
    }

    /// The controls of the cycle that runs, as they were sensed at its control point. None is on between cycles.
    pub fn controls(&self) -> Controls
        ensures { result ≡ self.now.controls }
    {
        self.controls
    }

    /// What was entered so far in the cycle that runs, by position, from position 1, the units, to the top: 0 where nothing was.
    pub fn entered(&self) -> Digits
        ensures { result ≡ reverse self.now.entered }
    {
        from_units(self.entered, self.name.width as usize)
    }

    /// Whether a carry came in at the units in the cycle that runs.
    pub fn carry(&self) -> bool
        ensures { result ≡ self.now.carry }
    {
        self.carry
    }

    /// The group as it stands once the cycle that runs has ended: its wheels have turned.
    pub fn turned(&self, cycle: Cycle) -> Self
        ensures { result ≡ counter_ended self.now cycle }
    {
        let mut turned = Group {
            unit: self.unit,
            name: self.name,
            digits: self.digits,
            entered: self.entered,
            carry: self.carry,
            controls: self.controls,
            latch: self.latch,
        };
        turned.end_cycle(cycle);
        turned
    }
}

ghost use Rattle.counters.specs.Counters.{group_of_unit};

/// The group that is a unit, 3 to 34: those of 3 positions come first, then those of 4, 6 and 8, each width by number.
pub fn group_of_unit(unit: u8) -> hubs::Group
    requires from { 3 ≤ unit }
    ensures { result ≡ group_of_unit unit }
{
    let width = match unit {
        0..11 => 3,
        11..19 => 4,
        19..27 => 6,
        _ => 8,
    };
    hubs::Group {
        width,
        number: (unit - 3) % 8 + 1,
    }
}

impl Unit for Group {
    ghost use Rattle.counters.specs.OwnHubs.{counters_keep};
    ghost use Rattle.counters.specs.Counters.{counter_emits, counter_closes, counter_sensed, counter_ended, counter_number};

    ghost emits = { counter_emits };

    ghost closes = { counter_closes };

    ghost sensed = { counter_sensed };

    ghost ended = { counter_ended };

    ghost number = { counter_number };

    fn emit(&self, _cycle: Cycle, point: Point, exits: &mut Picture) {
        match point {
            Point::C => {}
            Point::Row(row) => {
                if self.controls.read_out {
                    let width = self.name.width as usize;
                    show(&self.digits[..width], self.name, row.number(), exits);
                }
            }
            Point::K => {
                if self.carries_out() {
                    exits.insert(Hub::CO(self.name));
                }
            }
        }
    }

    fn sense(&mut self, _cycle: Cycle, point: Point, picture: &Picture) {
        match point {
            Point::C => self.controls = controls_of(self.unit, self.name, picture),
            Point::Row(row) => {
                let row = row.number();
                if takes(self.controls, row) {
                    let impulsed = picture.row(Hub::GE(self.name, 1));
                    let width = self.name.width as usize;
                    take_row(&mut self.entered[..width], row, low_half(impulsed));
                }
            }
            Point::K => self.carry = picture.has(Hub::CI(self.name)),
        }
    }

    fn end_cycle(&mut self, _cycle: Cycle) {
        let width = self.name.width as usize;
        self.digits = turned(self.digits, self.entered, self.controls, self.carry);
        self.latch = latch_after(self.digits[width - 1], self.controls, self.latch);
        self.entered = [0; PLACES];
        self.carry = false;
        self.controls = Controls::none();
    }

    ghost use Rattle.std.specs.Prelude.{refl};

    ghost keeps_to_its_own = { counters_keep };

    ghost emits_steadily = { λ counter cycle at other picture hub. refl };

    ghost closes_steadily = { λ counter cycle at other picture hub. refl };
}

impl Group {
    ghost use Rattle.net.specs.RowSets.{GainsRows, after_rows, pictures_of};
    ghost use Rattle.std.specs.Prelude.{Bool};
    ghost use Rattle.hubs.specs.declared.hub.Hub.{Hub};
    ghost use Rattle.hubs.specs.declared.hub.Hub.TheVariants.{PL};
    ghost use Rattle.net.specs.Orders.{IsRowOf};
    ghost use Rattle.net.specs.declared.cycle.Cycle.{Cycle};
    ghost use Rattle.net.specs.declared.cycle.Point.TheVariants.{C, Row as AtRow};
    ghost use Rattle.counters.specs.Counters.{counter_emits, counter_sensed};

    /// Adds to the sets of the exits the rows at whose points they emit.
    pub fn emit_rows(&self, _cycle: Cycle, sets: &mut RowSets)
        ensures { GainsRows (λ row. counter_emits self.now _cycle (AtRow row)) sets.old sets.new }
    {
        if self.controls.read_out {
            let width = self.name.width as usize;
            let shown = rows_shown(&self.digits[..width]);
            let number = FIRST_EXIT + u32::from(positions_before(self.unit));
            sets.insert_sets_at(Hub::GX(self.name, 1), number, &shown);
        }
    }

    /// Senses the control point, by the row of the hubs PL, MI, RO and BT of all groups, 32 each in the order of their units.
    pub fn sense_controls(&mut self, row: u128)
        ensures { (cycle : Cycle) (picture : Hub → Bool) → IsRowOf (PL (record { width = 3; number = 1 })) picture row
            → self.new ≡ counter_sensed self.old cycle C picture }
    {
        self.controls = controls_in(self.unit, row);
    }

    /// Senses the points of all rows at once.
    pub fn sense_rows(&mut self, _cycle: Cycle, pictures: &RowSets)
        ensures { self.new ≡ after_rows counter_sensed _cycle (pictures_of pictures.now) self.old }
    {
        if self.controls.takes_digits() {
            let before = positions_before(self.unit) as usize;
            let read = pictures.from(Hub::GE(FIRST, 1));
            self.entered = entered_after(self.entered, &read[before..]);
        }
    }
}
