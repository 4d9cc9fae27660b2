//! The closed contacts of the panel.

ghost use Rattle.std.specs.Prelude.{◌≡◌};
ghost use Rattle.hubs.specs.declared.hub.Hub.{Hub};
ghost use Rattle.net.specs.HubSets.{has_hub, GainsHubs};
ghost use Rattle.net.specs.declared.cycle.Point.{Point};
ghost use Rattle.selectors.specs.Contacts.{carry_closes, steady_closes, closed_contacts};
ghost use Rattle.selectors.specs.Splits.{split_closes};

use crate::balance::{BalanceLatches, FIRST, GROUPS};
use crate::indicate::Indicate;
use crate::pilots::Pilots;
use crate::splits::Splits;
use crate::spread::spread;
use hubs::Hub;
use net::{Contacts, Cycle, Point};

/// The contacts that are closed at a point of a cycle: those of the carries and of the balance positions of the counter groups, of
/// the pilots, of group indication and of the column splits. The balance latches stand in the order of the units 3 to 34, and so
/// does which groups stand at nines: all their positions at 9, with the advance of the cycle and before any carry.
pub fn contacts(
    cycle: Cycle,
    point: Point,
    pilots: &Pilots,
    indicate: &Indicate,
    latches: &[bool; GROUPS],
    nines: &[bool; GROUPS],
) -> Contacts
    ensures { (hub : Hub) → has_hub result hub ≡ closed_contacts cycle point pilots.now indicate.now latches.now nines.now hub }
{
    let latches = BalanceLatches::of(latches);
    let others = with_splits(steady_contacts(cycle, pilots, indicate, &latches), point);
    with_carries(others, point, nines)
}

/// The contacts that are closed at all points of a cycle: all but those of the carries and of the column splits.
#[inline(always)]
pub fn steady_contacts(
    cycle: Cycle,
    pilots: &Pilots,
    indicate: &Indicate,
    latches: &BalanceLatches,
) -> Contacts
    ensures { (point : Point) (hub : Hub) → has_hub result hub ≡ steady_closes cycle point pilots.now indicate.now latches.now hub }
{
    let mut contacts = Contacts::new();
    latches.close(&mut contacts);
    pilots.close(&mut contacts);
    indicate.close(cycle, &mut contacts);
    contacts
}

/// These contacts, and those of the column splits that are closed at a point.
#[inline(always)]
pub fn with_splits(mut contacts: Contacts, point: Point) -> Contacts
    ensures { GainsHubs (split_closes point) contacts result }
{
    Splits::new().close(point, &mut contacts);
    contacts
}

/// These contacts, and those of the carries that are closed at a point: at the closing point, from the carry entry of each counter
/// group that stands at nines to its carry exit. The groups stand in the order of the units 3 to 34.
pub fn with_carries(mut contacts: Contacts, point: Point, nines: &[bool; GROUPS]) -> Contacts
    ensures { GainsHubs (carry_closes point nines.now) contacts result }
{
    match point {
        Point::C | Point::Row(_) => {}
        Point::K => contacts.insert_row(Hub::CO(FIRST), spread(nines, 1)),
    }
    contacts
}
