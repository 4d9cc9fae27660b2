//! The carries of counter groups.

ghost use Rattle.std.specs.Prelude.{◌≡◌};
ghost use Rattle.hubs.specs.Carries.{is_one_group};
ghost use Rattle.hubs.specs.Hubs.{carry_into, carry_out_of};

use crate::hub::{Group, Hub};

/// Whether two counter groups are one: both have the same width and the same number.
pub fn is_one_group(one: Group, other: Group) -> bool
    ensures { result ≡ is_one_group one other }
{
    one.width == other.width && one.number == other.number
}

/// The counter group whose carry leaves at a hub; none for a hub that is no carry exit.
pub fn carry_out_of(hub: Hub) -> Option<Group>
    ensures { result ≡ carry_out_of hub }
{
    match hub {
        Hub::CO(group) => Some(group),
        _ => None,
    }
}

/// The counter group whose carry enters at a hub; none for a hub that is no carry entry.
pub fn carry_into(hub: Hub) -> Option<Group>
    ensures { result ≡ carry_into hub }
{
    match hub {
        Hub::CI(group) => Some(group),
        _ => None,
    }
}
