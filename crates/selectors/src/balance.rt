//! The balance latches of the counter groups.

ghost use Rattle.std.specs.Prelude.{◌≡◌, ◌<◌, Bool, List, length, slice_set};
ghost use Rattle.selectors.specs.Spread.{spread};

use crate::spread::spread;
use hubs::{Group, Hub};
use net::Contacts;
use std::marker::Model;

/// How many counter groups there are: they are the units 3 to 34.
pub const GROUPS: usize = 32;

// The first of them.
pub(crate) const FIRST: Group = Group {
    width: 3,
    number: 1,
};

/// The balance latches of the counter groups, in the order of the units 3 to 34.
///
/// A latch seldom changes, and its contacts are closed in every cycle: so they are kept as the row of these contacts.
#[derive(Drop)]
pub struct BalanceLatches {
    // The transferred positions: all four of each group whose latch is set.
    transferred: u128,
}

impl Model for BalanceLatches {
    ghost use Rattle.std.specs.Prelude.{Bool, List};
    ghost use Rattle.selectors.specs.Fields.{IsBalanceRow, balance_latches};

    ghost Value = { List Bool };

    ghost view = { balance_latches };

    ghost invariant = { IsBalanceRow };
}

impl BalanceLatches {
    ghost use Rattle.std.specs.Prelude.{◌≡◌, slice_set};
    ghost use Rattle.net.specs.HubSets.{GainsHubs};
    ghost use Rattle.selectors.specs.Contacts.{balance_closes};

    /// These latches.
    pub fn of(latches: &[bool; GROUPS]) -> Self
        ensures { result ≡ latches.now }
    {
        BalanceLatches {
            transferred: spread(latches, 4),
        }
    }

    /// Sets or resets the latch at a place, 0 to 31. There is no other place.
    pub fn set(&mut self, place: usize, latch: bool)
        ensures { self.new ≡ slice_set self.old place latch }
    {
        if place < GROUPS {
            self.transferred = with_latch(self.transferred, place, latch);
        }
    }

    /// Closes the contacts of the balance positions: the normal ones of the groups whose latch is reset, the transferred ones
    /// of those whose latch is set.
    #[inline(always)]
    pub fn close(&self, contacts: &mut Contacts)
        ensures { GainsHubs (balance_closes self.now) contacts.old contacts.new }
    {
        contacts.insert_row(Hub::BAN(FIRST, 1), u128::MAX - self.transferred);
        contacts.insert_row(Hub::BAT(FIRST, 1), self.transferred);
    }
}

// The row of the transferred positions with those of one group, or without them.
fn with_latch(row: u128, place: usize, latch: bool) -> u128
    requires { place < 32 }
    ensures { (latches : List Bool)
        → length latches ≡ 32
        → row ≡ spread 4 latches
        → result ≡ spread 4 (slice_set latches place latch) }
{
    let positions = 15 << (4 * place);
    if latch {
        row | positions
    } else {
        row & !positions
    }
}
