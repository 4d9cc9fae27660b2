//! A storage unit: it holds 16 columns from cycle to cycle.

use crate::columns::{COLUMNS, has_bit, having_row, low_word, put_row};
use card_code::Row;
use hubs::Hub;
use net::{Cycle, Picture, Point, RowSets, Unit};
use std::marker::Model;
use std::simd::prelude::*;

// The number of the first storage unit among the units, less one.
const UNITS_BEFORE: u8 = 34;

// The hub number of the first exit of the first storage unit.
const FIRST_EXIT: u32 = 743;

/// One of the four storage units.
///
/// What it is told at the control point holds for the cycle, of any kind. Told to read out, it emits what it held at the
/// start of the cycle; told to read in, it holds at the end what its entries received, and is blank where nothing
/// came. It may be told both, and emits the old then.
#[derive(Debug, Drop)]
pub struct Storage {
    // Its number among the storage units, 1 to 4, as its hubs have it.
    place: u8,
    // For each column the rows that it holds, by their places among the points.
    held: [u16; COLUMNS],
    // The same of what came in since the control point, where it reads in.
    received: [u16; COLUMNS],
    reads_in: bool,
    reads_out: bool,
}

impl Model for Storage {
    ghost use Rattle.std.specs.Prelude.{◌≤◌};
    ghost use Rattle.storage_units.specs.Storage.{StorageState};

    ghost Value = { StorageState };

    ghost use Rattle.storage_units.specs.Fields.{state_of};

    ghost view = { state_of };

    ghost invariant = { λ s. (1 ≤ s.place) × (s.place ≤ 4) };
}

impl Storage {
    ghost use Rattle.std.specs.Prelude.{◌≡◌, ◌≤◌};
    ghost use Rattle.net.specs.RowSets.{GainsRows, after_rows, pictures_of};
    ghost use Rattle.std.specs.Prelude.{Bool};
    ghost use Rattle.hubs.specs.declared.hub.Hub.{Hub};
    ghost use Rattle.hubs.specs.declared.hub.Hub.TheVariants.{SI};
    ghost use Rattle.net.specs.Orders.{IsRowOf};
    ghost use Rattle.net.specs.declared.cycle.Cycle.{Cycle};
    ghost use Rattle.net.specs.declared.cycle.Point.TheVariants.{C, Row as AtRow};
    ghost use Rattle.storage_units.specs.Storage.{storage_at_start, storage_emits, storage_ended, storage_sensed, holds};

    /// The storage unit with this number among the units, 35 to 38. It holds nothing.
    pub fn new(unit: u8) -> Self
        requires from { 35 ≤ unit }
        requires to { unit ≤ 38 }
        ensures { result ≡ storage_at_start unit }
    {
        Storage {
            place: unit - UNITS_BEFORE,
            held: [0; COLUMNS],
            received: [0; COLUMNS],
            reads_in: false,
            reads_out: false,
        }
    }

    /// Its number among the storage units, 1 to 4, by which its hubs are named.
    pub fn place(&self) -> u8
        ensures { result ≡ self.now.place }
    {
        self.place
    }

    /// Whether a column holds a row. No column but 1 to 16 does.
    pub fn holds(&self, row: Row, column: u8) -> bool
        ensures { result ≡ holds self.now row column }
    {
        let column = column as usize;
        1 <= column && column <= COLUMNS && has_bit(self.held[column - 1], row.place())
    }

    /// Adds to the sets of the exits the rows at whose points they emit.
    pub fn emit_rows(&self, _cycle: Cycle, sets: &mut RowSets)
        ensures { GainsRows (λ row. storage_emits self.now _cycle (AtRow row)) sets.old sets.new }
    {
        if self.reads_out {
            let number = FIRST_EXIT + 16 * (u32::from(self.place) - 1);
            sets.insert_sets_at(Hub::SX(self.place, 1), number, &self.held);
        }
    }

    /// Senses the control point, by the row of the hubs SI and SO of all units, four each.
    pub fn sense_controls(&mut self, row: u128)
        ensures { (cycle : Cycle) (picture : Hub → Bool) → IsRowOf (SI 1) picture row
            → self.new ≡ storage_sensed self.old cycle C picture }
    {
        self.received = [0; COLUMNS];
        let told = low_word(row);
        self.reads_in = has_bit(told, self.place as usize - 1);
        self.reads_out = has_bit(told, self.place as usize + 3);
    }

    /// Senses the points of all rows at once.
    pub fn sense_rows(&mut self, _cycle: Cycle, pictures: &RowSets)
        ensures { self.new ≡ after_rows storage_sensed _cycle (pictures_of pictures.now) self.old }
    {
        if self.reads_in {
            let before = COLUMNS * (self.place as usize - 1);
            let entries = &pictures.from(Hub::SE(1, 1))[before..];
            self.received = u16x16::from_slice(entries).to_array();
        }
    }

    /// The unit as the end of a cycle leaves it.
    pub fn behind_end(&self, cycle: Cycle) -> Self
        ensures { result ≡ storage_ended self.now cycle }
    {
        let mut behind = Storage { ..*self };
        behind.end_cycle(cycle);
        behind
    }
}

impl Unit for Storage {
    ghost use Rattle.storage_units.specs.OwnHubs.{storage_keeps};
    ghost use Rattle.std.specs.Prelude.{refl};
    ghost use Rattle.net.specs.Nothing.{closes_nothing};
    ghost use Rattle.storage_units.specs.Storage.{storage_emits, storage_sensed, storage_ended, storage_number};

    ghost emits = { storage_emits };

    ghost closes = { closes_nothing };

    ghost sensed = { storage_sensed };

    ghost ended = { storage_ended };

    ghost number = { storage_number };

    fn emit(&self, _cycle: Cycle, point: Point, exits: &mut Picture) {
        match point {
            Point::Row(row) if self.reads_out => {
                let columns = having_row(&self.held, row.place());
                exits.insert_row(Hub::SX(self.place, 1), u128::from(columns));
            }
            _ => {}
        }
    }

    fn sense(&mut self, _cycle: Cycle, point: Point, picture: &Picture) {
        match point {
            Point::C => self.sense_controls(picture.row(Hub::SI(1))),
            Point::Row(row) if self.reads_in => {
                let columns = low_word(picture.row(Hub::SE(self.place, 1)));
                put_row(&mut self.received, row.place(), columns);
            }
            _ => {}
        }
    }

    fn end_cycle(&mut self, _cycle: Cycle) {
        if self.reads_in {
            self.held = self.received;
        }
    }

    ghost keeps_to_its_own = { storage_keeps };

    ghost emits_steadily = { λ unit cycle at other picture hub. refl };

    ghost closes_steadily = { λ unit cycle at other picture hub. refl };
}
