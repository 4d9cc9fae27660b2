//! Rows of units of one kind.

ghost use Rattle.std.specs.Prelude.{◌≡◌, map};
ghost use Rattle.std.specs.List.{list_any};
ghost use Rattle.net.specs.HubSets.{GainsHubs, has_hub};

use net::{Cycle, Picture, Point, Unit};

// All units emit.
pub(crate) fn emit_all<U: Unit>(units: &[U], cycle: Cycle, point: Point, exits: &mut Picture)
    ensures { GainsHubs (λ exit. list_any (λ unit. U.emits unit cycle point exit) units.now) exits.old exits.new }
{
    for unit in units {
        unit.emit(cycle, point, exits);
    }
}

// All units sense the picture.
pub(crate) fn sense_all<U: Unit>(units: &mut [U], cycle: Cycle, point: Point, picture: &Picture)
    ensures { units.new ≡ map (λ unit. U.sensed unit cycle point (has_hub picture.now)) units.old }
{
    for unit in units {
        unit.sense(cycle, point, picture);
    }
}

// All units end the cycle.
pub(crate) fn end_all<U: Unit>(units: &mut [U], cycle: Cycle)
    ensures { units.new ≡ map (λ unit. U.ended unit cycle) units.old }
{
    for unit in units {
        unit.end_cycle(cycle);
    }
}
