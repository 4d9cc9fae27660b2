//! How many hubs a picture has.

ghost use Rattle.std.specs.Prelude.{◌≤◌};
ghost use Rattle.net.specs.HubSets.{has_hub};
ghost use Rattle.machine_served.specs.ServedRuns.Seen.{HasSize, IsIn, hub_count};

use net::{HUBS, Picture};

// How many hubs a picture has.
pub(crate) fn size(picture: &Picture) -> u64
    ensures size { HasSize (has_hub picture.now) result }
    ensures few { result ≤ hub_count }
{
    let mut count = 0;
    for number in 1..=HUBS as u32 {
        if is_in(picture, number) {
            count += 1;
        }
    }
    count
}

// Whether the hub with a number is in a picture.
fn is_in(picture: &Picture, number: u32) -> bool
    requires from { 1 ≤ number }
    requires to { number ≤ hub_count }
    ensures { IsIn (has_hub picture.now) number result }
{
    machine_sets::bit_sets::has(picture.words(), number as usize - 1)
}
