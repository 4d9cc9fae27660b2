//! The positions of the counter groups of an account.

ghost use Rattle.std.specs.Prelude.{◌≡◌, ◌<◌, ◌+◌, ◌++◌, OnOk};
ghost use Rattle.counters.specs.Counters.{group_of_unit};
ghost use Rattle.explain_ledgers.specs.LedgersWords.Accounts.{IsAccount};
ghost use Rattle.explain_wheel_ledgers.specs.LedgerHoles.Positions.{entry_at, entry_text, position_in, position_of_both};

use counters::group_of_unit;
use explain_ledgers::ledgers::Account;
use hubs::{Group, Hub};
use std::io;
use std::io::Write;

/// A position of a counter group, the units at position 1.
#[derive(Clone, Copy, Debug)]
pub struct Position {
    /// The group.
    pub group: Group,
    /// The position.
    pub position: u8,
}

// The group of a place; unit 3 has place 0.
pub(crate) fn group_at(place: usize) -> Group
    requires { place < 32 }
    ensures { result ≡ group_of_unit (3 + place) }
{
    group_of_unit(3 + place as u8)
}

// A position of two groups, of which the lower one has the units.
fn position_of_both(upper: usize, lower: usize, position: u8) -> Position
    requires upper { upper < 32 }
    requires lower { lower < 32 }
    ensures { result ≡ position_of_both upper lower position }
{
    let units = group_at(lower);
    if position <= units.width {
        Position {
            group: units,
            position,
        }
    } else {
        Position {
            group: group_at(upper),
            position: position - units.width,
        }
    }
}

// A position of an account.
pub(crate) fn position_in(account: Account, position: u8) -> Position
    requires { IsAccount account }
    ensures { result ≡ position_in account position }
{
    match account {
        Account::One { place } => Position {
            group: group_at(place),
            position,
        },
        Account::Coupled { upper, lower } => position_of_both(upper, lower, position),
    }
}

// The hub at which a digit comes in at a position.
pub(crate) fn entry_at(at_position: Position) -> Hub
    ensures { result ≡ entry_at at_position }
{
    Hub::GE(at_position.group, at_position.position)
}

// Its name.
#[tactic(auto, unfolding(crate::specs::LedgerHoles::Positions::entry_text))]
pub(crate) fn write_entry(text: &mut Vec<u8>, at_position: Position) -> io::Result<()>
    ensures { OnOk result (text.new.items ≡ text.old.items ++ entry_text at_position) }
{
    let width = at_position.group.width;
    let number = at_position.group.number;
    let position = at_position.position;
    write!(text, "GE.{width}.{number}.{position}")
}
