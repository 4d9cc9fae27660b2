//! Entries of a ledger.

ghost use Rattle.std.specs.Prelude.{◌≡◌};
ghost use Rattle.counters.specs.Laws.{IsCounter};
ghost use Rattle.explain_ledgers.specs.LedgersWords.Entries.{movement_of_one};

use crate::ledgers::numbers::number_of;
use counters::Group;
use net::Cycle;

/// What a cycle did to a number.
#[derive(Clone, Copy, Debug, PartialEq, Eq)]
pub enum Change {
    /// A number was added.
    Plus,
    /// A number was subtracted.
    Minus,
    /// What was read out was subtracted from it: the number is now the complement.
    Turned,
    /// A carry came in, and nothing else.
    Carry,
    /// Two groups that stand for one number did not do the same thing, so that no sum of that number tells it.
    Apart,
}

/// A cycle in which something came to a number.
#[derive(Clone, Copy, Debug)]
pub struct Entry {
    /// Which cycle it was.
    pub cycle: Cycle,
    /// How many cards were read: the number of the card at second reading.
    pub card: u32,
    /// How many cycles of the run were over: with it the cycle is found again.
    pub passed: u64,
    /// The number before; 0 if it was read out and so began at nothing.
    pub before: u64,
    /// What the cycle did.
    pub change: Change,
    /// The number that was entered.
    pub entered: u64,
    /// Whether a carry came in at the units.
    pub carry: bool,
    /// The number after.
    pub after: u64,
}

/// What happens to a number in a cycle, as it is known behind the points of the cycle.
#[derive(Clone, Copy, Debug)]
pub struct Movement {
    /// Whether it is read out.
    pub read_out: bool,
    /// Whether what is entered is added.
    pub plus: bool,
    /// Whether what is entered is subtracted. This rules over plus.
    pub minus: bool,
    /// Whether a carry came in at the units.
    pub carry: bool,
    /// The number as it stood.
    pub held: u64,
    /// The number that was entered.
    pub entered: u64,
    /// The number once the cycle has ended.
    pub after: u64,
    /// Whether it is a number of two groups that did not do the same thing.
    pub apart: bool,
}

// What happens to the number of one group.
pub(crate) fn movement_of_one(cycle: Cycle, group: &Group) -> Movement
    requires { IsCounter group.now }
    ensures { result ≡ movement_of_one group.now cycle }
{
    let controls = group.controls();
    Movement {
        read_out: controls.read_out,
        plus: controls.plus,
        minus: controls.minus,
        carry: group.carry(),
        held: group.value(),
        entered: number_of(group.entered().as_slice()),
        after: group.turned(cycle).value(),
        apart: false,
    }
}

impl Movement {
    ghost use Rattle.std.specs.Prelude.{◌≡◌};
    ghost use Rattle.explain_ledgers.specs.LedgersWords.Entries.{change_of, entry_of, is_added, is_cleared, is_turned};

    // Whether what is read out is subtracted from it.
    fn is_turned(&self) -> bool
        ensures { result ≡ is_turned self.now }
    {
        !self.apart && self.read_out && self.minus && self.entered == self.held
    }

    // Whether it is read out, and doesn't turn.
    pub(crate) fn is_cleared(&self) -> bool
        ensures { result ≡ is_cleared self.now }
    {
        !self.apart && self.read_out && !self.is_turned()
    }

    // Whether something comes to the number.
    pub(crate) fn is_added(&self) -> bool
        ensures { result ≡ is_added self.now }
    {
        self.apart || self.plus || self.minus || self.carry
    }

    // What is done to the number.
    fn change(&self) -> Change
        ensures { result ≡ change_of self.now }
    {
        if self.apart {
            Change::Apart
        } else if self.is_turned() {
            Change::Turned
        } else if self.minus {
            Change::Minus
        } else if self.plus {
            Change::Plus
        } else {
            Change::Carry
        }
    }

    // The entry of a cycle.
    pub(crate) fn entry(&self, cycle: Cycle, card: u32, passed: u64) -> Entry
        ensures { result ≡ entry_of cycle card passed self.now }
    {
        Entry {
            cycle,
            card,
            passed,
            before: if self.is_cleared() { 0 } else { self.held },
            change: self.change(),
            entered: self.entered,
            carry: self.carry,
            after: self.after,
        }
    }
}
