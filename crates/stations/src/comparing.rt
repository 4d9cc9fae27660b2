//! Comparing: thirty positions, each with two entries whose rows are compared over a card cycle.

ghost use Rattle.std.specs.Prelude.{◌≡◌, ℕ, ◌<◌, ◌≤◌, ◌&&◌, ◌||◌, nat_lt, length, slice_index_or, take};
ghost use Rattle.net.specs.HubRows.{has_at};
ghost use Rattle.net.specs.HubSets.{is_bit};
ghost use Rattle.stations.specs.Comparing.{set_after_point};
ghost use Rattle.stations.specs.CollectedSets.{AreSetsOf};

use hubs::Hub;
use net::{Cycle, Picture, Point, RowSets, Unit, has_bit};
use std::marker::Model;
use std::simd::prelude::*;

// How many positions there are.
const POSITIONS: usize = 30;

// Room for the sets of thirty entries, so that all are taken at once.
const ROOM: usize = 32;

// The set of all rows of a card.
const CARD_ROWS: u16 = (1 << 12) - 1;

/// Comparing, unit 2.
///
/// In a card cycle each entry collects the row points at which it is impulsed. Contracts see the sets of these points.
#[derive(Debug, Drop)]
pub struct Comparing {
    // The sets of CA.1 to CA.30, and those of CB.1 to CB.30: bit r tells of the row at place r among the points. Behind either thirty there is
    // room for two more, which are not looked at.
    first: [u16; ROOM],
    second: [u16; ROOM],
}

impl Model for Comparing {
    ghost use Rattle.std.specs.Prelude.{take};
    ghost use Rattle.stations.specs.Comparing.{Compared};

    ghost Value = { Compared };

    ghost view = { λ comparing. record { first = take 30 comparing.first; second = take 30 comparing.second } };
}

impl Comparing {
    ghost use Rattle.std.specs.Prelude.{◌≡◌, ℕ, ◌&&◌, nat_lt, Bool, false};
    ghost use Rattle.hubs.specs.declared.hub.Hub.{Hub};
    ghost use Rattle.net.specs.HubSets.{is_bit};
    ghost use Rattle.net.specs.RowSets.{after_rows, pictures_of};
    ghost use Rattle.net.specs.declared.cycle.Cycle.{Cycle};
    ghost use Rattle.net.specs.declared.cycle.Point.{Point};
    ghost use Rattle.net.specs.declared.cycle.Point.TheVariants.{K};
    ghost use Rattle.stations.specs.CollectedSets.{AreSetsOf};
    ghost use Rattle.stations.specs.Comparing.{HaveNoEntries, comparing_at_start, comparing_emits, comparing_sensed, differ_at};

    /// Comparing with nothing collected.
    pub fn new() -> Self
        ensures { result ≡ comparing_at_start }
    {
        Comparing {
            first: [0; ROOM],
            second: [0; ROOM],
        }
    }

    /// What was collected since the last end of a cycle: for each row, 9 to 0, then 11 and 12, the positions whose first entry was impulsed
    /// at its point, and those whose second entry was. Position p stands at bit p - 1.
    pub fn sets(&self) -> [(u32, u32); 12]
        ensures { AreSetsOf self.now result }
    {
        sets_of(&self.first, &self.second)
    }

    /// Whether a position may differ in what was collected. If it answers no, comparing emits nothing at the closing point.
    pub fn has_difference(&self) -> bool
        ensures { result ≡ false → (cycle : Cycle) (hub : Hub) → comparing_emits self.now cycle K hub ≡ false }
    {
        self.differences() != 0
    }

    /// Senses the points of all rows at once.
    pub fn sense_rows(&mut self, cycle: Cycle, pictures: &RowSets)
        ensures { self.new ≡ after_rows comparing_sensed cycle (pictures_of pictures.now) self.old }
    {
        if let Cycle::Card = cycle {
            add_rows(&mut self.first, pictures.from(Hub::CA(1)));
            add_rows(&mut self.second, pictures.from(Hub::CB(1)));
        }
    }

    /// Senses the points of all rows at once, if no entry is impulsed: nothing is collected.
    pub fn sense_no_rows(&self)
        ensures { (cycle : Cycle) (pictures : Point → Hub → Bool) → HaveNoEntries pictures
            → self.now ≡ after_rows comparing_sensed cycle pictures self.now }
    {
        // How many sets there are the prover learns only where they are used: this spares an invariant.
        let _sets = &self.first;
    }

    // The positions that differ: bit k stands for the position k + 1.
    fn differences(&self) -> u64
        ensures { (k : ℕ) → is_bit result k ≡ (nat_lt k 30 && differ_at self.now k) }
    {
        let first = u16x32::from_array(self.first);
        let second = u16x32::from_array(self.second);
        first.simd_ne(second).to_bitmask() & 0x3fff_ffff
    }
}

impl Unit for Comparing {
    ghost use Rattle.stations.specs.OwnHubs.{comparing_keeps};
    ghost use Rattle.std.specs.Prelude.{refl};
    ghost use Rattle.std.proofs.Common.{rules};
    ghost use Rattle.net.specs.Nothing.{closes_nothing};
    ghost use Rattle.stations.specs.Comparing.{comparing_emits, comparing_sensed, comparing_ended, comparing_number};

    ghost emits = { comparing_emits };

    ghost closes = { closes_nothing };

    ghost sensed = { comparing_sensed };

    ghost ended = { comparing_ended };

    ghost number = { λ compared. comparing_number };

    fn emit(&self, cycle: Cycle, point: Point, exits: &mut Picture) {
        if let (Cycle::Card, Point::K) = (cycle, point) {
            let differing = self.differences();
            if differing != 0 {
                exits.insert_row(Hub::CX(1), u128::from(differing));
            }
        }
    }

    fn sense(&mut self, cycle: Cycle, point: Point, picture: &Picture) {
        if let (Cycle::Card, Point::Row(row)) = (cycle, point) {
            let place = row.place();
            add_row(&mut self.first, picture.row(Hub::CA(1)), place);
            add_row(&mut self.second, picture.row(Hub::CB(1)), place);
        }
    }

    fn end_cycle(&mut self, _cycle: Cycle) {
        *self = Comparing::new();
    }

    ghost keeps_to_its_own = { comparing_keeps };

    ghost emits_steadily = { λ compared cycle at other picture hub. Prim.search rules };

    ghost closes_steadily = { λ compared cycle at other picture hub. refl };
}

// The positions by rows, of the sets of their first and their second entries.
fn sets_of(first: &[u16; ROOM], second: &[u16; ROOM]) -> [(u32, u32); 12]
    ensures { AreSetsOf (record { first = take 30 first.now; second = take 30 second.now }) result }
{
    let mut sets = [(0, 0); 12];
    for place in 0..12 {
        sets[place] = (entries_having(first, place), entries_having(second, place));
    }
    sets
}

// Of thirty entries those that have the row at a place: bit k stands for the entry whose set is at place k.
fn entries_having(sets: &[u16; ROOM], place: usize) -> u32
    requires { place < 12 }
    ensures { (k : ℕ) → is_bit result k ≡ has_at (take 30 sets.now) k place }
{
    let rows = u16x32::from_slice(sets) & u16x32::splat(1 << place);
    (rows.simd_ne(u16x32::splat(0)).to_bitmask() & 0x3fff_ffff) as u32
}

// Adds the row at a place to the sets of those of thirty entries that are impulsed: bit k stands for the entry whose set is at place k. If
// none is, as mostly, no set is looked at.
fn add_row(sets: &mut [u16; ROOM], impulsed: u128, place: usize)
    requires { place < 12 }
    ensures { (k : ℕ) → k < POSITIONS
        → slice_index_or sets.new k 0 ≡ set_after_point place (is_bit impulsed k) (slice_index_or sets.old k 0) }
{
    if impulsed & 0x3fff_ffff == 0 {
        return;
    }
    for k in 0..POSITIONS {
        sets[k] |= u16::from(has_bit(impulsed, k)) << place;
    }
}

// Joins to sets those rows of a card that other sets have.
fn add_rows(sets: &mut [u16; ROOM], others: &[u16])
    requires { ROOM ≤ length others.now }
    ensures { (k row : ℕ) → k < ROOM
        → has_at sets.new k row ≡ (has_at sets.old k row || (nat_lt row 12 && has_at others.now k row)) }
{
    let rows = u16x32::from_slice(others) & u16x32::splat(CARD_ROWS);
    *sets = (u16x32::from_array(*sets) | rows).to_array();
}
