//! Accounts: the counter groups whose number a ledger tells.

ghost use Rattle.std.specs.Prelude.{◌≡◌, ◌<◌};
ghost use Rattle.counters.specs.Laws.{IsCounter};
ghost use Rattle.explain_ledgers.specs.LedgersWords.Entries.{are_alike, are_one, carry_leaves, joined, movement_of_both};

use crate::ledgers::entry::{Movement, movement_of_one};
use crate::ledgers::numbers::number_of;
use counters::{Controls, Group};
use net::Cycle;

/// The counter groups whose number a ledger tells, by their places: the unit 3 has place 0, and the last unit place 31.
#[derive(Clone, Copy, Debug, PartialEq, Eq)]
pub enum Account {
    /// One group.
    One {
        /// Its place.
        place: usize,
    },
    /// Two groups that stand for one number.
    Coupled {
        /// The place of the group with the higher positions.
        upper: usize,
        /// The place of the group with the units.
        lower: usize,
    },
}

// Whether two groups are under the same controls, but that each may test its balance or not.
fn are_alike(upper: Controls, lower: Controls) -> bool
    ensures { result ≡ are_alike upper lower }
{
    upper.plus == lower.plus && upper.minus == lower.minus && upper.read_out == lower.read_out
}

// The number of two groups, of which the lower one has so many positions.
fn joined(upper: u64, lower: u64, width: u8) -> u64
    requires upper { upper < 100000000 }
    requires lower { lower < 100000000 }
    ensures { result ≡ joined upper lower width }
{
    match width {
        3 => upper * 1_000 + lower,
        4 => upper * 10_000 + lower,
        6 => upper * 1_000_000 + lower,
        _ => upper * 100_000_000 + lower,
    }
}

// Whether a carry leaves the top of a group, with the one that came in at its units.
fn carry_leaves(group: &Group) -> bool
    ensures { result ≡ carry_leaves group.now }
{
    group.carries_out() || group.carry() && group.nines()
}

// Whether two groups do the same thing, and the carry of the lower one comes in at the upper one.
fn are_one(upper: &Group, lower: &Group) -> bool
    ensures { result ≡ are_one upper.now lower.now }
{
    are_alike(upper.controls(), lower.controls()) && upper.carry() == carry_leaves(lower)
}

// What happens to the number of two groups.
fn movement_of_both(cycle: Cycle, upper: &Group, lower: &Group) -> Movement
    requires upper { IsCounter upper.now }
    requires lower { IsCounter lower.now }
    ensures { result ≡ movement_of_both upper.now lower.now cycle }
{
    let width = lower.name().width;
    let held = joined(upper.value(), lower.value(), width);
    let upper_entered = number_of(upper.entered().as_slice());
    let lower_entered = number_of(lower.entered().as_slice());
    let entered = joined(upper_entered, lower_entered, width);
    let upper_turned = upper.turned(cycle);
    let lower_turned = lower.turned(cycle);
    let after = joined(upper_turned.value(), lower_turned.value(), width);
    let controls = lower.controls();
    Movement {
        read_out: controls.read_out,
        plus: controls.plus,
        minus: controls.minus,
        carry: lower.carry(),
        held,
        entered,
        after,
        apart: !are_one(upper, lower),
    }
}

impl Account {
    ghost use Rattle.std.specs.Prelude.{◌≡◌, All, length};
    ghost use Rattle.counters.specs.Laws.{IsCounter};
    ghost use Rattle.explain_ledgers.specs.LedgersWords.Accounts.{IsAccount, movement_of};

    // What happens to the number of the account in a cycle, by all groups as they stand behind the points of the cycle.
    pub(crate) fn movement(self, cycle: Cycle, groups: &[Group]) -> Movement
        requires account { IsAccount self }
        requires long { length groups.now ≡ 32 }
        requires lawful { All IsCounter groups.now }
        ensures { result ≡ movement_of groups.now cycle self }
    {
        match self {
            Account::One { place } => movement_of_one(cycle, &groups[place]),
            Account::Coupled { upper, lower } => {
                movement_of_both(cycle, &groups[upper], &groups[lower])
            }
        }
    }
}
