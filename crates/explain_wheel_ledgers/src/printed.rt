//! The counter group that a wheel is printed of.

ghost use Rattle.std.specs.Prelude.{◌≡◌, ◌<◌, IfSome};
ghost use Rattle.explain_wheel_ledgers.specs.Printed.{group_of_exit, group_of_way, group_of_ways, place_printed};

use crate::places::place_of;
use explain_wheels::explanations::Explanation;
use hubs::{Group, Hub};

// The group whose exit a hub is.
fn group_of_exit(hub: Hub) -> Option<Group>
    ensures { result ≡ group_of_exit hub }
{
    match hub {
        Hub::GX(group, _) => Some(group),
        _ => None,
    }
}

// The group at whose exit a way begins, if there is a way and it begins at one.
pub(crate) fn group_of_way(way: &Option<Vec<Hub>>) -> Option<Group>
    ensures { result ≡ group_of_way way.now }
{
    match way {
        Some(way) => group_of_exit(*way.first()?),
        None => None,
    }
}

// The first group at whose exit one of these ways begins.
fn group_of_ways(ways: &[Option<Vec<Hub>>]) -> Option<Group>
    ensures { result ≡ group_of_ways ways.now }
{
    for way in ways {
        if let Some(group) = group_of_way(way) {
            return Some(group);
        }
    }
    None
}

/// The place of the counter group that a wheel is printed of, by its explanation: the first one at whose exit one of the ways to it begins.
/// None if no way begins at one.
pub fn place_printed(told: &Explanation) -> Option<usize>
    ensures value { result ≡ place_printed told.now }
    ensures range { IfSome result (λ place. place < 32) }
{
    place_of(group_of_ways(told.rows.as_slice())?)
}
