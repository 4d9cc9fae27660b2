//! The places of counter groups.

ghost use Rattle.std.specs.Prelude.{◌≡◌, ◌≤◌, ◌<◌, IfSome};
ghost use Rattle.explain_wheel_ledgers.specs.Places.{place_below, place_of};

use counters::group_of_unit;
use hubs::{Group, is_one_group};

// How many counter groups there are.
pub(crate) const GROUPS: usize = 32;

// The place of a group among the first so many.
fn place_below(count: usize, group: Group) -> Option<usize>
    requires { count ≤ 32 }
    ensures value { result ≡ place_below count group }
    ensures range { IfSome result (λ place. place < count) }
{
    if count == 0 {
        return None;
    }
    if is_one_group(group_of_unit(2 + count as u8), group) {
        return Some(count - 1);
    }
    place_below(count - 1, group)
}

// The place of a group; none for what is no group of the panel.
pub(crate) fn place_of(group: Group) -> Option<usize>
    ensures value { result ≡ place_of group }
    ensures range { IfSome result (λ place. place < 32) }
{
    place_below(GROUPS, group)
}
