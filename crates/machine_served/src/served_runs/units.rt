//! The units of a machine, each by its number.

ghost use Rattle.net.specs.HubSets.{GainsHubs, has_hub};
ghost use Rattle.machine_served.specs.ServedWords.Orders.{unit_count};
ghost use Rattle.machine_served.specs.ServedWords.Units.{IsUnit};
ghost use Rattle.machine_served.specs.ServedRuns.Units.{SensesOne};
ghost use Rattle.machine_served.specs.ServedUnits.AnyUnit.{any_closes, any_emits, unit_at};

use crate::served_runs::contacts::close_group;
use machine::UnitSet;
use net::{Contacts, Cycle, Picture, Point, Unit};

// Adds the exits that a unit emits at a point.
pub(crate) fn emit_unit(units: &UnitSet, unit: u8, cycle: Cycle, point: Point, exits: &mut Picture)
    requires { IsUnit unit_count unit }
    ensures { GainsHubs (any_emits (unit_at units.now unit) cycle point) exits.old exits.new }
{
    if unit <= 1 {
        units.stations.emit(cycle, point, exits);
    } else if unit == 2 {
        units.comparing.emit(cycle, point, exits);
    } else if unit <= 34 {
        units.groups[unit as usize - 3].emit(cycle, point, exits);
    } else if unit <= 38 {
        units.storage[unit as usize - 35].emit(cycle, point, exits);
    } else if unit == 42 {
        units.emitters.emit(cycle, point, exits);
    } else if unit == 45 {
        units.program.emit(cycle, point, exits);
    }
}

// Adds the contacts of a unit that are closed at a point.
pub(crate) fn close_unit(
    units: &UnitSet,
    unit: u8,
    cycle: Cycle,
    point: Point,
    contacts: &mut Contacts,
)
    requires { IsUnit unit_count unit }
    ensures { GainsHubs (any_closes (unit_at units.now unit) cycle point) contacts.old contacts.new }
{
    if 3 <= unit && unit <= 34 {
        close_group(&units.groups[unit as usize - 3], unit, point, contacts);
    } else if unit == 39 {
        units.pilots.close(contacts);
    } else if unit == 40 {
        units.indicate.close(cycle, contacts);
    } else if unit == 41 {
        units.splits.close(point, contacts);
    }
}

// A unit senses the picture of a point; the others stay as they are.
pub(crate) fn sense_unit(
    units: &mut UnitSet,
    unit: u8,
    cycle: Cycle,
    point: Point,
    picture: &Picture,
)
    requires { IsUnit unit_count unit }
    ensures { SensesOne cycle point (has_hub picture.now) unit units.old units.new }
{
    if unit <= 1 {} else if unit == 2 {
        units.comparing.sense(cycle, point, picture);
    } else if unit <= 34 {
        units.groups[unit as usize - 3].sense(cycle, point, picture);
    } else if unit <= 38 {
        units.storage[unit as usize - 35].sense(cycle, point, picture);
    } else if unit == 39 {
        units.pilots.sense(cycle, point, picture);
    } else if unit == 43 {
        units.wheels.sense(cycle, point, picture);
    } else if unit == 44 {
        units.carriage.sense(cycle, point, picture);
    } else if unit == 45 {
        units.program.sense(cycle, point, picture);
    }
}
