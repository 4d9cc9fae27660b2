//! The units of the machine, as what they emit, sense and do at the end of a cycle.

ghost use Rattle.std.specs.Prelude.{◌≡◌, ℕ, Bool};
ghost use Rattle.hubs.specs.declared.hub.Hub.{Hub};
ghost use Rattle.card_code.specs.declared.row.Row.{Row as CardRow};
ghost use Rattle.net.specs.HubSets.{GainsHubs, has_hub};
ghost use Rattle.net.specs.Units.{KeepsToItsOwn};
ghost use Rattle.net.specs.declared.cycle.Cycle.{Cycle};
ghost use Rattle.net.specs.declared.cycle.Point.{Point};
ghost use Rattle.net.specs.declared.cycle.Point.TheVariants.{Row};

use crate::cycle::{Cycle, Point};
use crate::picture::Picture;

/// A unit of the machine. What it emits and closes depends on its own state, the cycle and the point alone; what it becomes by sensing, on
/// the picture besides.
///
/// At each point of a cycle all units emit; the panel makes the picture of the impulsed hubs of that; then all units sense
/// the picture. After the closing point each unit ends the cycle. What a unit gathers at the points of the rows
/// changes nothing of what it emits, and of which of its contacts are closed, at these points.
pub trait Unit {
    // The exits that it emits.
    ghost emits: { Self → Cycle → Point → Hub → Bool };

    // Its contacts that are closed, by their exits.
    ghost closes: { Self → Cycle → Point → Hub → Bool };

    // What it becomes by sensing a picture.
    ghost sensed: { Self → Cycle → Point → (Hub → Bool) → Self };

    // What it becomes at the end of a cycle.
    ghost ended: { Self → Cycle → Self };

    // Its number among the units, 1 to 45.
    ghost number: { Self → ℕ };

    /// Adds the exits that it emits at a point.
    fn emit(&self, cycle: Cycle, point: Point, exits: &mut Picture)
        ensures { GainsHubs (emits self.now cycle point) exits.old exits.new };

    /// Senses the picture of a point.
    fn sense(&mut self, cycle: Cycle, point: Point, picture: &Picture)
        ensures { self.new ≡ sensed self.old cycle point (has_hub picture.now) };

    /// Ends a cycle.
    fn end_cycle(&mut self, cycle: Cycle)
        ensures { self.new ≡ ended self.old cycle };

    // It emits at exits of its own, closes contacts of its own and senses entries of its own alone, and keeps its number.
    ghost keeps_to_its_own: { KeepsToItsOwn
        (record { emits = emits; closes = closes; sensed = sensed; ended = ended; number = number }) };

    ghost emits_steadily: { (unit : Self) (cycle : Cycle) (at other : CardRow) (picture : Hub → Bool) (hub : Hub)
        → emits (sensed unit cycle (Row at) picture) cycle (Row other) hub ≡ emits unit cycle (Row other) hub };

    ghost closes_steadily: { (unit : Self) (cycle : Cycle) (at other : CardRow) (picture : Hub → Bool) (hub : Hub)
        → closes (sensed unit cycle (Row at) picture) cycle (Row other) hub ≡ closes unit cycle (Row other) hub };
}
