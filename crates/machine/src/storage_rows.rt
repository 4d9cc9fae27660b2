//! The storage units of a machine, at one point and at the points of all rows at once.

ghost use Rattle.std.specs.Prelude.{◌≡◌, Bool, map};
ghost use Rattle.std.specs.List.{list_any};
ghost use Rattle.hubs.specs.declared.hub.Hub.{Hub};
ghost use Rattle.hubs.specs.declared.hub.Hub.TheVariants.{SI};
ghost use Rattle.net.specs.HubSets.{GainsHubs, has_hub};
ghost use Rattle.net.specs.Orders.{IsRowOf};
ghost use Rattle.net.specs.RowSets.{GainsRows, after_rows, pictures_of};
ghost use Rattle.net.specs.declared.cycle.Cycle.{Cycle};
ghost use Rattle.net.specs.declared.cycle.Point.TheVariants.{C, Row as AtRow};
ghost use Rattle.storage_units.specs.Storage.{storage_at_start, storage_emits, storage_sensed};
ghost use Rattle.machine.specs.Machine.{storage_units};

use crate::rows::{emit_all, sense_all};
use hubs::Hub;
use net::{Cycle, Picture, Point, RowSets};
use storage_units::Storage;

/// How many storage units there are.
pub const STORAGE_UNITS: usize = 4;

// The storage units in the order of their numbers, 35 to 38, as they start.
pub(crate) fn storage_at_start() -> [Storage; STORAGE_UNITS]
    ensures { result ≡ map storage_at_start storage_units }
{
    [
        Storage::new(35),
        Storage::new(36),
        Storage::new(37),
        Storage::new(38),
    ]
}

// All storage units emit, which they do at the points of rows alone.
pub(crate) fn emit_storage(storage: &[Storage], cycle: Cycle, point: Point, exits: &mut Picture)
    ensures { GainsHubs (λ exit. list_any (λ unit. storage_emits unit cycle point exit) storage.now) exits.old exits.new }
{
    match point {
        Point::C | Point::K => {}
        Point::Row(_) => emit_all(storage, cycle, point, exits),
    }
}

// All storage units sense the picture: nothing of it at the closing point.
pub(crate) fn sense_storage(storage: &mut [Storage], cycle: Cycle, point: Point, picture: &Picture)
    ensures { storage.new ≡ map (λ unit. storage_sensed unit cycle point (has_hub picture.now)) storage.old }
{
    match point {
        Point::C => control_storage(storage, picture.row(Hub::SI(1))),
        Point::Row(_) => sense_all(storage, cycle, point, picture),
        Point::K => {}
    }
}

// All storage units sense the control point, by the row of their hubs SI and SO.
pub(crate) fn control_storage(storage: &mut [Storage], row: u128)
    ensures { (cycle : Cycle) (picture : Hub → Bool) → IsRowOf (SI 1) picture row
        → storage.new ≡ map (λ unit. storage_sensed unit cycle C picture) storage.old }
{
    for unit in storage {
        unit.sense_controls(row);
    }
}

// All storage units add to the sets of their exits the rows at whose points they emit.
pub(crate) fn emit_storage_rows(storage: &[Storage], cycle: Cycle, sets: &mut RowSets)
    ensures { GainsRows (λ row exit. list_any (λ unit. storage_emits unit cycle (AtRow row) exit) storage.now) sets.old sets.new }
{
    for unit in storage {
        unit.emit_rows(cycle, sets);
    }
}

// All storage units sense the points of all rows.
pub(crate) fn sense_storage_rows(storage: &mut [Storage], cycle: Cycle, pictures: &RowSets)
    ensures { storage.new ≡ map (λ unit. after_rows storage_sensed cycle (pictures_of pictures.now) unit) storage.old }
{
    for unit in storage {
        unit.sense_rows(cycle, pictures);
    }
}
