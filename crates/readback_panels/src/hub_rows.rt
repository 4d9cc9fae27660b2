//! The lowest exit that leads to an entry, and the lowest entry to which an exit leads.

ghost use Rattle.std.specs.Prelude.{◌≡◌, ◌↔◌, IfNone, IfSome};
ghost use Rattle.hubs.specs.SetupsWords.Wiring.{HasWire};
ghost use Rattle.readback_panels.specs.Lowest.{IsLowest, IsNone, hub_in};

use hubs::Hub;
use hubs::setups::Setup;

/// A row of hubs of one kind, told apart by one number, from 1.
#[derive(Clone, Copy)]
pub(crate) enum HubRow {
    /// The columns at first reading.
    First,
    /// The columns at second reading.
    Second,
    /// The digit exits of the column splits.
    Digits,
    /// The normal exits of the pilots, at a position.
    Normal(u8),
    /// The transferred exits of the pilots, at a position.
    Transferred(u8),
    /// The indicate positions of a level.
    Indicated(u8),
    /// The third program cycles, by level.
    Printing,
    /// The print wheels.
    Wheels,
    /// The program starts, by level.
    Starts,
}

impl HubRow {
    ghost use Rattle.std.specs.Prelude.{◌≡◌};
    ghost use Rattle.readback_panels.specs.Lowest.{hub_in, last_of};

    // The hub of a number.
    fn hub(self, number: u8) -> Hub
        ensures { result ≡ hub_in self number }
    {
        match self {
            HubRow::First => Hub::FR(number),
            HubRow::Second => Hub::SR(number),
            HubRow::Digits => Hub::CSD(number),
            HubRow::Normal(position) => Hub::PIN(number, position),
            HubRow::Transferred(position) => Hub::PIT(number, position),
            HubRow::Indicated(level) => Hub::IX(level, number),
            HubRow::Printing => Hub::PX(number, 3),
            HubRow::Wheels => Hub::W(number),
            HubRow::Starts => Hub::ST(number),
        }
    }

    // How many hubs stand in the row.
    fn last(self) -> u8
        ensures { result ≡ last_of self }
    {
        match self {
            HubRow::First | HubRow::Second => 80,
            HubRow::Digits | HubRow::Normal(_) | HubRow::Transferred(_) => 16,
            HubRow::Indicated(_) => 30,
            HubRow::Printing | HubRow::Starts => 3,
            HubRow::Wheels => 120,
        }
    }
}

/// The number of the lowest hub of a row that leads to an entry, if one does.
pub(crate) fn lowest_exit(setup: &Setup, row: HubRow, entry: Hub) -> Option<u8>
    ensures found { IfSome result (IsLowest row (λ number. HasWire setup.now (hub_in row number) entry)) }
    ensures none { IfNone result (IsNone row (λ number. HasWire setup.now (hub_in row number) entry)) }
{
    for place in 0..row.last() {
        if setup.has(row.hub(place + 1), entry) {
            return Some(place + 1);
        }
    }
    None
}

/// The number of the lowest hub of a row to which an exit leads, if it leads to one.
pub(crate) fn lowest_entry(setup: &Setup, exit: Hub, row: HubRow) -> Option<u8>
    ensures found { IfSome result (IsLowest row (λ number. HasWire setup.now exit (hub_in row number))) }
    ensures none { IfNone result (IsNone row (λ number. HasWire setup.now exit (hub_in row number))) }
{
    for place in 0..row.last() {
        if setup.has(exit, row.hub(place + 1)) {
            return Some(place + 1);
        }
    }
    None
}
