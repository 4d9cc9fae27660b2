//! The pilots.

ghost use Rattle.std.specs.Prelude.{◌≡◌, ◌-◌, ◌^◌, ◌≤◌, ◌<◌, length};
ghost use Rattle.net.specs.HubRows.{has_at};
ghost use Rattle.selectors.specs.Numbered.{tests_to};
ghost use Rattle.net.specs.HubSets.{has_hub};
ghost use Rattle.selectors.specs.Pilots.{moves_pilots, pickups};
ghost use Rattle.selectors.specs.PilotWords.{pilots_in};
ghost use Rattle.selectors.specs.Spread.{spread};

use card_code::Row;
use hubs::Hub;
use net::{Contacts, Cycle, Picture, Point, RowSets, Unit, has_bit};
use std::marker::Model;
use std::mem;
use std::simd::prelude::*;

/// How many pilots there are.
pub const PILOTS: usize = 16;

// The row of all positions: three of each pilot.
const ALL_POSITIONS: u128 = (1 << 48) - 1;

/// The pilots: 16 selectors of three positions each.
///
/// A pilot is picked up at row 11 of the run-in or of a card cycle. At the end of such a cycle it is transferred
/// exactly where it was picked up in it, else normal.
#[derive(Debug, Drop)]
pub struct Pilots {
    // A bit for each pilot, that of the first one the lowest.
    transferred: u16,
    // Those whose pickup was sensed since the last end of a cycle that moves pilots.
    picked_up: u16,
}

impl Model for Pilots {
    ghost use Rattle.selectors.specs.Pilots.{PilotStates};

    ghost Value = { PilotStates };

    ghost use Rattle.selectors.specs.Fields.{pilots_of};

    ghost view = { pilots_of };
}

impl Pilots {
    ghost use Rattle.std.specs.Prelude.{◌≡◌, Bool};
    ghost use Rattle.hubs.specs.declared.hub.Hub.{Hub};
    ghost use Rattle.net.specs.HubSets.{GainsHubs};
    ghost use Rattle.net.specs.declared.cycle.Cycle.{Cycle};
    ghost use Rattle.net.specs.declared.cycle.Point.{Point};
    ghost use Rattle.net.specs.RowSets.{after_rows, pictures_of};
    ghost use Rattle.selectors.specs.Pilots.{pilots_at_start, is_transferred, pilots_closes, pilots_sensed};
    ghost use Rattle.selectors.specs.WholeCycles.{HaveNoPickups};

    /// All pilots are normal.
    pub fn new() -> Self
        ensures { result ≡ pilots_at_start }
    {
        Pilots {
            transferred: 0,
            picked_up: 0,
        }
    }

    /// Whether a pilot, 1 to 16, is transferred. No other number is a pilot's.
    pub fn is_transferred(&self, pilot: u8) -> bool
        ensures { result ≡ is_transferred self.now pilot }
    {
        1 <= pilot
            && pilot <= PILOTS as u8
            && has_bit(u128::from(self.transferred), pilot as usize - 1)
    }

    /// Closes the contacts of the pilots' positions: the normal ones of the pilots that are normal, the transferred ones of
    /// those that are transferred. They stay so through all points of a cycle.
    #[inline(always)]
    pub fn close(&self, contacts: &mut Contacts)
        ensures { (cycle : Cycle) (point : Point) → GainsHubs (pilots_closes self.now cycle point) contacts.old contacts.new }
    {
        let transferred = positions_of(self.transferred);
        contacts.insert_row(Hub::PIN(1, 1), ALL_POSITIONS - transferred);
        contacts.insert_row(Hub::PIT(1, 1), transferred);
    }

    /// Senses the points of all rows at once.
    pub fn sense_rows(&mut self, cycle: Cycle, pictures: &RowSets)
        ensures { self.new ≡ after_rows pilots_sensed cycle (pictures_of pictures.now) self.old }
    {
        if moves_pilots(cycle) {
            self.picked_up = pickups_in(pictures.from(Hub::PIX(1)));
        }
    }

    /// Senses the points of all rows at once, if no pickup is impulsed at row 11.
    pub fn sense_no_rows(&mut self, cycle: Cycle)
        ensures { (pictures : Point → Hub → Bool) → HaveNoPickups pictures → self.new ≡ after_rows pilots_sensed cycle pictures self.old }
    {
        if moves_pilots(cycle) {
            self.picked_up = 0;
        }
    }
}

impl Unit for Pilots {
    ghost use Rattle.selectors.specs.OwnHubs.{pilots_keep};
    ghost use Rattle.std.specs.Prelude.{refl};
    ghost use Rattle.net.specs.Nothing.{emits_nothing};
    ghost use Rattle.selectors.specs.Pilots.{pilots_closes, pilots_sensed, pilots_ended, pilots_number};
    ghost use Rattle.selectors.specs.Steady.{pilots_close_steadily};

    ghost emits = { emits_nothing };

    ghost closes = { pilots_closes };

    ghost sensed = { pilots_sensed };

    ghost ended = { pilots_ended };

    ghost number = { pilots_number };

    fn emit(&self, _cycle: Cycle, _point: Point, _exits: &mut Picture) {}

    fn sense(&mut self, cycle: Cycle, point: Point, picture: &Picture) {
        match point {
            Point::Row(Row::Eleven) if moves_pilots(cycle) => self.picked_up = pickups(picture),
            _ => {}
        }
    }

    fn end_cycle(&mut self, cycle: Cycle) {
        if moves_pilots(cycle) {
            self.transferred = mem::replace(&mut self.picked_up, 0);
        }
    }

    ghost keeps_to_its_own = { pilots_keep };

    ghost emits_steadily = { λ unit cycle at other picture hub. refl };

    ghost closes_steadily = { pilots_close_steadily };
}

// Whether a cycle senses pickups and moves the pilots.
fn moves_pilots(cycle: Cycle) -> bool
    ensures { result ≡ moves_pilots cycle }
{
    match cycle {
        Cycle::RunIn | Cycle::Card => true,
        _ => false,
    }
}

// The pilots whose pickups are impulsed.
fn pickups(picture: &Picture) -> u16
    ensures { pilots_in result ≡ pickups (has_hub picture.now) }
{
    (picture.row(Hub::PIX(1)) & 0xffff) as u16
}

// The pilots whose pickups have row 11, by the sets of their rows: it stands at place 10 among the points.
fn pickups_in(sets: &[u16]) -> u16
    requires { 16 ≤ length sets.now }
    ensures { pilots_in result ≡ tests_to 16 (λ pilot. has_at sets.now (pilot - 1) 10) }
{
    let eleven = u16x16::from_slice(sets) & u16x16::splat(1 << 10);
    (eleven.simd_ne(u16x16::splat(0)).to_bitmask() & 0xffff) as u16
}

// The row of the positions of these pilots, three of each. Mostly there are none: few pilots are transferred.
#[inline(always)]
fn positions_of(pilots: u16) -> u128
    ensures value { result ≡ spread 3 (pilots_in pilots) }
    ensures below { result < 2 ^ 48 }
{
    let mut left = u64::from(pilots);
    let mut row = 0;
    while left != 0 {
        let place = left.trailing_zeros() as usize;
        row |= 7 << (3 * place);
        left &= !(1 << place);
    }
    row
}
