//! What holds something in the machine from cycle to cycle.

ghost use Rattle.std.specs.Prelude.{◌≡◌, ◌<◌, ◌+◌};
ghost use Rattle.explain_origins.specs.Holders.{IsHolder, holder_at, is_latch_exit, is_pilot_exit, is_transferred, leads_one, leads_through, passes, ways_rest_on};

use crate::storage::is_read;
use counters::group_of_unit;
use hubs::{Hub, is_one_group};

/// What holds something in the machine from cycle to cycle, until a cycle moves it.
#[derive(Clone, Copy, Debug, PartialEq, Eq)]
pub enum Holder {
    /// The storage unit of a place, 0 to 3: its text.
    Storage { place: usize },
    /// A pilot, 1 to 16: whether it is transferred.
    Pilot { pilot: u8 },
    /// The counter group of a place, 0 to 31: its balance latch. The unit 3 has place 0.
    Latch { place: usize },
}

// How many there are: four storage units, 16 pilots and 32 counter groups.
pub(crate) const HOLDERS: usize = 52;

// Each of them, by its place in this order.
pub(crate) fn holder_at(place: usize) -> Holder
    requires { place < 52 }
    ensures value { result ≡ holder_at place }
    ensures range { IsHolder result }
{
    if place < 4 {
        Holder::Storage { place }
    } else if place < 20 {
        Holder::Pilot {
            pilot: place as u8 - 3,
        }
    } else {
        Holder::Latch { place: place - 20 }
    }
}

// Whether a hub is the exit of a contact that is closed while a pilot is transferred.
fn is_pilot_exit(pilot: u8, hub: Hub) -> bool
    ensures { result ≡ is_pilot_exit pilot hub }
{
    match hub {
        Hub::PIT(own, _) => own == pilot,
        _ => false,
    }
}

// Whether it is that of one that is closed while the balance latch of the group of a place is set.
fn is_latch_exit(place: usize, hub: Hub) -> bool
    requires { place < 32 }
    ensures { result ≡ is_latch_exit place hub }
{
    match hub {
        Hub::BAT(group, _) => is_one_group(group_of_unit(3 + place as u8), group),
        _ => false,
    }
}

// Whether a hub is one of these.
fn is_transferred(holder: Holder, hub: Hub) -> bool
    requires { IsHolder holder }
    ensures { result ≡ is_transferred holder hub }
{
    match holder {
        Holder::Storage { .. } => false,
        Holder::Pilot { pilot } => is_pilot_exit(pilot, hub),
        Holder::Latch { place } => is_latch_exit(place, hub),
    }
}

// Whether one of some hubs is such an exit.
fn passes(holder: Holder, hubs: &[Hub]) -> bool
    requires { IsHolder holder }
    ensures { result ≡ passes holder hubs.now }
{
    for hub in hubs {
        if is_transferred(holder, *hub) {
            return true;
        }
    }
    false
}

// Whether a way leads through such a contact, if there is a way.
fn leads_one(holder: Holder, way: &Option<Vec<Hub>>) -> bool
    requires { IsHolder holder }
    ensures { result ≡ leads_one holder way.now }
{
    match way {
        Some(way) => passes(holder, way.as_slice()),
        None => false,
    }
}

// Whether one of some ways does.
fn leads_through(holder: Holder, ways: &[Option<Vec<Hub>>]) -> bool
    requires { IsHolder holder }
    ensures { result ≡ leads_through holder ways.now }
{
    for way in ways {
        if leads_one(holder, way) {
            return true;
        }
    }
    false
}

// Whether some ways rest on what a holder holds: one begins at an exit of the storage unit, or leads through a contact that is transferred.
pub(crate) fn ways_rest_on(holder: Holder, ways: &[Option<Vec<Hub>>]) -> bool
    requires { IsHolder holder }
    ensures { result ≡ ways_rest_on holder ways.now }
{
    match holder {
        Holder::Storage { place } => is_read(place as u8 + 1, ways),
        Holder::Pilot { .. } | Holder::Latch { .. } => leads_through(holder, ways),
    }
}
