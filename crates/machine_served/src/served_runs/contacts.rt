//! The contacts of one counter group.

ghost use Rattle.std.specs.Prelude.{◌≡◌, ◌≤◌};
ghost use Rattle.counters.specs.Counters.{counter_closes, counter_number, group_of_unit};
ghost use Rattle.net.specs.HubSets.{GainsHubs};
ghost use Rattle.net.specs.declared.cycle.Cycle.{Cycle};
ghost use Rattle.machine_served.specs.ServedRuns.Contacts.{balances_to};

use counters::{Group, group_of_unit};
use hubs::Hub;
use net::{Contacts, Point};

// Closes the contacts of a group that are closed at a point: the normal or the transferred ones of its balance positions by its latch,
// and at the closing point, where it stands at nines, the one from its carry entry to its carry exit.
pub(crate) fn close_group(group: &Group, unit: u8, point: Point, contacts: &mut Contacts)
    requires from { 3 ≤ unit }
    requires to { unit ≤ 34 }
    requires numbered { counter_number group.now ≡ unit }
    ensures { (cycle : Cycle) → GainsHubs (counter_closes group.now cycle point) contacts.old contacts.new }
{
    let name = group_of_unit(unit);
    close_balances(name, unit, group.latch(), contacts);
    match point {
        Point::C | Point::Row(_) => {}
        Point::K => contacts.insert_where(Hub::CO(name), group.nines()),
    }
}

// Closes the normal contacts of the balance positions of a group, or the transferred ones where its latch is set.
fn close_balances(name: hubs::Group, unit: u8, latch: bool, contacts: &mut Contacts)
    requires from { 3 ≤ unit }
    requires to { unit ≤ 34 }
    requires named { name ≡ group_of_unit unit }
    ensures { GainsHubs (balances_to 5 unit latch) contacts.old contacts.new }
{
    for position in 1..=4 {
        contacts.insert_where(Hub::BAN(name, position), !latch);
        contacts.insert_where(Hub::BAT(name, position), latch);
    }
}
