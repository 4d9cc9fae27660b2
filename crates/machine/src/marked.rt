//! Units of one kind of which some are marked by the bits of a word: the unit at place k by bit k. Bits after those of all units are
//! passed over.

ghost use Rattle.std.specs.Prelude.{◌≡◌};
ghost use Rattle.net.specs.HubSets.{GainsHubs, has_hub};
ghost use Rattle.machine.specs.Marked.{any_marked, marked_changed};

use crate::bits::take_lowest;
use net::{Cycle, Picture, Point, Unit};

// The marked units emit.
pub(crate) fn emit_marked<U: Unit>(
    units: &[U],
    marks: u64,
    cycle: Cycle,
    point: Point,
    exits: &mut Picture,
)
    ensures { GainsHubs (λ exit. any_marked marks 0 (λ unit. U.emits unit cycle point exit) units.now) exits.old exits.new }
{
    let mut left = marks;
    while let Some(place) = take_lowest(&mut left) {
        if place < units.len() {
            units[place].emit(cycle, point, exits);
        }
    }
}

// The marked units sense the picture.
pub(crate) fn sense_marked<U: Unit>(
    units: &mut [U],
    marks: u64,
    cycle: Cycle,
    point: Point,
    picture: &Picture,
)
    ensures { units.new ≡ marked_changed marks 0 (λ unit. U.sensed unit cycle point (has_hub picture.now)) units.old }
{
    let mut left = marks;
    while let Some(place) = take_lowest(&mut left) {
        if place < units.len() {
            units[place].sense(cycle, point, picture);
        }
    }
}

// The marked units end the cycle.
pub(crate) fn end_marked<U: Unit>(units: &mut [U], marks: u64, cycle: Cycle)
    ensures { units.new ≡ marked_changed marks 0 (λ unit. U.ended unit cycle) units.old }
{
    let mut left = marks;
    while let Some(place) = take_lowest(&mut left) {
        if place < units.len() {
            units[place].end_cycle(cycle);
        }
    }
}
