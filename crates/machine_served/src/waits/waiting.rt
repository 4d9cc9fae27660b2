//! Which units wait for which.

ghost use Rattle.std.specs.Prelude.{◌≡◌, ◌↔◌, ℕ, ◌+◌, ◌≤◌, ◌<◌, ◌&&◌, ◌||◌, ◌==◌, slice_index_or};
ghost use Rattle.net.specs.HubSets.{is_bit};
ghost use Rattle.net.specs.Nets.{IsNetOf};
ghost use Rattle.hubs.specs.SetupsWords.Wiring.{Wiring};
ghost use Rattle.machine_served.specs.ServedWords.Orders.{unit_count};
ghost use Rattle.machine_served.specs.ServedWords.Units.{IsUnit};
ghost use Rattle.machine_served.specs.WaitsWords.Waits.{AreWaits, AwaitsUnits, IsAwaitedBy};

use crate::waits::bits::{has_bit, with_bit};
use crate::waits::sets::{all_contacts, exits_of, readers};
use net::{Net, Picture};

/// How many units the machine has, as the length of what [`all_waits`] answers. They are numbered from 1.
pub const UNITS: usize = crate::served::UNITS as usize;

/// Which units a unit waits for.
pub trait Waits {
    // The wiring whose wires these are.
    ghost wires: { Wiring → Self → Type 0 };

    /// The units that a unit, 1 to 45, waits for: bit v - 1 stands for unit v.
    fn waits(&self, unit: u8) -> u64
        requires { IsUnit unit_count unit }
        ensures { (wiring : Wiring) → wires wiring self.now → AwaitsUnits wiring unit result };
}

impl Waits for Net {
    ghost wires = { IsNetOf };

    fn waits(&self, unit: u8) -> u64 {
        all_waits(self)[unit as usize - 1]
    }
}

/// For each unit, from unit 1 on, the units that it waits for, as [`Waits::waits`] has them. All are found as quickly as one.
pub fn all_waits(net: &Net) -> [u64; UNITS]
    ensures { (wiring : Wiring) → IsNetOf wiring net.now → AreWaits wiring result }
{
    let mut waits = [0; UNITS];
    for place in 0..UNITS {
        let waiting = waiting_for(net, place as u16 + 1);
        note(&mut waits, place, waiting);
    }
    waits
}

// The units that wait for a unit: unit u is bit u - 1.
fn waiting_for(net: &Net, unit: u16) -> u64
    ensures { (wiring : Wiring) → IsNetOf wiring net.now → IsAwaitedBy wiring unit result }
{
    let mut reached = Picture::new();
    net.picture(&exits_of(unit), &all_contacts(), &mut reached);
    readers(&reached, unit)
}

// Notes that the units of these bits wait for the unit with a place.
fn note(waits: &mut [u64; UNITS], place: usize, waiting: u64)
    requires { place < 45 }
    ensures { (unit other : ℕ) → unit < 45
        → is_bit (slice_index_or waits.new unit 0) other
        ≡ (is_bit (slice_index_or waits.old unit 0) other || (is_bit waiting unit && (other == place))) }
{
    for unit in 0..UNITS {
        if has_bit(waiting, unit) {
            waits[unit] = with_bit(waits[unit], place);
        }
    }
}
