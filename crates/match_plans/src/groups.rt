//! What the wires of a setup tell of a counter group.

ghost use Rattle.std.specs.Prelude.{◌≡◌, ◌↔◌, ◌≤◌, IsTrue};
ghost use Rattle.capacity.specs.Capacities.{HasGroup, standard};
ghost use Rattle.match_plans.specs.Groups.{group_with};
ghost use Rattle.match_plans.specs.Shown.{CarriesTo, ShowsUnits};
ghost use Rattle.wiring_table.specs.Parts.{panel_group};
ghost use Rattle.hubs.specs.declared.hub.Hub.TheVariants.{GX, PX, RO, W};
ghost use Rattle.hubs.specs.SetupsWords.Wiring.{HasWire};

use capacity::CounterGroup;
use hubs::Hub;
use hubs::setups::Setup;
use wiring_totals::panel_group;

/// How many counter groups the standard machine has.
pub(crate) const GROUPS: u8 = 32;

/// The groups of the standard machine by a place, 0 to 31: those of 3 positions first, then those of 4, 6 and 8, each by number.
pub(crate) fn standard_group(place: u8) -> CounterGroup
    requires { place ≤ 31 }
    ensures value { result ≡ group_with place }
    ensures there { HasGroup standard result }
{
    let width = match place / 8 {
        0 => 3,
        1 => 4,
        2 => 6,
        _ => 8,
    };
    CounterGroup {
        width,
        number: place % 8 + 1,
    }
}

/// Whether the program cycle that prints a level reads a group out.
pub(crate) fn is_read_out(setup: &Setup, level: u8, group: CounterGroup) -> bool
    ensures { IsTrue result ↔ HasWire setup.now (PX level 3) (RO (panel_group group)) }
{
    setup.has(Hub::PX(level, 3), Hub::RO(panel_group(group)))
}

/// Whether the first place of a group leads to a wheel.
pub(crate) fn leads_to(setup: &Setup, wheel: u8, group: CounterGroup) -> bool
    ensures { IsTrue result ↔ HasWire setup.now (GX (panel_group group) 1) (W wheel) }
{
    setup.has(Hub::GX(panel_group(group), 1), Hub::W(wheel))
}

/// Whether a group shows the units of a total of a level on a wheel.
pub(crate) fn shows_units(setup: &Setup, level: u8, wheel: u8, group: CounterGroup) -> bool
    ensures { IsTrue result ↔ ShowsUnits setup.now level wheel group }
{
    is_read_out(setup, level, group) && leads_to(setup, wheel, group)
}

/// Whether the carry of a group leads to another.
pub(crate) fn carries_to(setup: &Setup, lower: CounterGroup, upper: CounterGroup) -> bool
    ensures { IsTrue result ↔ CarriesTo setup.now lower upper }
{
    lower != upper && setup.has(Hub::CO(panel_group(lower)), Hub::CI(panel_group(upper)))
}
