//! Sets of hubs by who owns them, and the units that sense hubs of a set.

ghost use Rattle.std.specs.Prelude.{◌≡◌, ◌↔◌, ◌≢◌, ℕ, ◌+◌, ◌&&◌, ◌==◌, true};
ghost use Rattle.machine_served.specs.ServedWords.Orders.{unit_count};
ghost use Rattle.machine_served.specs.ServedWords.Units.{IsUnit};
ghost use Rattle.hubs.specs.Hubs.{is_hub_in_range};
ghost use Rattle.hubs.specs.declared.hub.Hub.{Hub};
ghost use Rattle.net.specs.HubSets.{has_hub, is_bit};
ghost use Rattle.net.specs.Panel.{owner_of};
ghost use Rattle.machine_served.specs.WaitsWords.Waits.{SensesOther};

use crate::waits::bits::with_bit;
use crate::waits::owners::{owner_of, reader_of};
use crate::waits::waiting::UNITS;
use hubs::Hub;
use net::{Contacts, HUBS, Picture};

// The exits of a unit.
pub(crate) fn exits_of(unit: u16) -> Picture
    ensures { (hub : Hub) → has_hub result hub ≡ (is_hub_in_range hub && (owner_of hub == unit)) }
{
    let mut exits = Picture::new();
    for number in 1..=HUBS as u32 {
        if let Some(hub) = Hub::of_number(number) {
            exits.insert_where(hub, owner_of(hub) == unit);
        }
    }
    exits
}

// All contacts, as closed.
pub(crate) fn all_contacts() -> Contacts
    ensures { (hub : Hub) → has_hub result hub ≡ is_hub_in_range hub }
{
    let mut contacts = Contacts::new();
    for number in 1..=HUBS as u32 {
        if let Some(hub) = Hub::of_number(number) {
            contacts.insert(hub);
        }
    }
    contacts
}

// The units but one that sense a hub of the set: unit u is bit u - 1.
pub(crate) fn readers(picture: &Picture, but: u16) -> u64
    ensures { (place : ℕ) → (is_bit result place ≡ true) ↔ SensesOther (place + 1) but (has_hub picture.now) }
{
    let mut units = 0;
    for number in 1..=HUBS as u32 {
        if let Some(hub) = Hub::of_number(number) {
            let unit = reader_of(hub);
            if is_other(unit, but) && picture.has(hub) {
                units = with_bit(units, unit as usize - 1);
            }
        }
    }
    units
}

// Whether a number is that of a unit, and another one than `but`.
fn is_other(unit: u16, but: u16) -> bool
    ensures { (result ≡ true) ↔ (IsUnit unit_count unit × (but ≢ unit)) }
{
    1 <= unit && unit <= UNITS as u16 && unit != but
}
