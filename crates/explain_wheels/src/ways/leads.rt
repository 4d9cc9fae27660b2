//! What leads on from one hub to another, asked by the numbers of the hubs.

ghost use Rattle.std.specs.Prelude.{◌≡◌, ◌↔◌, true};
ghost use Rattle.net.specs.HubSets.{has_hub};
ghost use Rattle.net.specs.Panel.{contact_of};
ghost use Rattle.explain_wheels.specs.WaysWords.Passed.{contacts_from};
ghost use Rattle.explain_wheels.specs.WaysWords.Tables.{LeadsAt, StartsAt};

use hubs::Hub;
use hubs::setups::Setup;
use machine_sets::bit_sets::has;
use net::{Contacts, HUBS, Picture};

// The hub from which a contact leads to this exit; none where none does.
fn contact_of(exit: Hub) -> Option<Hub>
    ensures { result ≡ contact_of exit }
{
    match exit {
        Hub::CO(group) => Some(Hub::CI(group)),
        Hub::BAN(group, position) | Hub::BAT(group, position) => Some(Hub::BAC(group, position)),
        Hub::PIN(pilot, position) | Hub::PIT(pilot, position) => Some(Hub::PIC(pilot, position)),
        Hub::IX(level, position) => Some(Hub::IE(level, position)),
        Hub::CSD(split) | Hub::CSZ(split) => Some(Hub::CSE(split)),
        _ => None,
    }
}

// Whether a wire or a closed contact leads from the hub with one number to that with another.
pub(crate) fn leads(setup: &Setup, contacts: &Contacts, from: u16, to: u16) -> bool
    ensures { (result ≡ true) ↔ LeadsAt setup.now (has_hub contacts.now) from to }
{
    let Some(exit) = Hub::of_number(from as u32) else {
        return false;
    };
    let Some(entry) = Hub::of_number(to as u32) else {
        return false;
    };
    if setup.has(exit, entry) {
        return true;
    }
    let Some(common) = contact_of(entry) else {
        return false;
    };
    match common.number() {
        Some(number) => number == from as u32 && contacts.has(entry),
        None => false,
    }
}

// The hubs to which contacts lead from this one: none, one or two.
pub(crate) fn contacts_from(common: Hub) -> (Option<Hub>, Option<Hub>)
    ensures { result ≡ contacts_from common }
{
    match common {
        Hub::CI(group) => (Some(Hub::CO(group)), None),
        Hub::BAC(group, position) => (
            Some(Hub::BAN(group, position)),
            Some(Hub::BAT(group, position)),
        ),
        Hub::PIC(pilot, position) => (
            Some(Hub::PIN(pilot, position)),
            Some(Hub::PIT(pilot, position)),
        ),
        Hub::IE(level, position) => (Some(Hub::IX(level, position)), None),
        Hub::CSE(split) => (Some(Hub::CSD(split)), Some(Hub::CSZ(split))),
        _ => (None, None),
    }
}

// Whether the hub with this number is one of the exits.
pub(crate) fn is_start(exits: &Picture, number: u16) -> bool
    ensures { (result ≡ true) ↔ StartsAt (has_hub exits.now) number }
{
    if number == 0 || number as usize > HUBS {
        return false;
    }
    has(exits.words(), number as usize - 1)
}
