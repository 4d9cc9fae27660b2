//! The ledger of an account, as much of it as is told.

ghost use Rattle.std.specs.Prelude.{◌≡◌, ◌<◌, ◌+◌, ◌^◌};
ghost use Rattle.explain_ledgers.specs.LedgersWords.Summaries.{IsBounded, with_left_out};

use crate::ledgers::account::Account;
use crate::ledgers::entry::{Change, Entry, Movement};
use net::Cycle;
use std::alloc::{AllocError, Global};
use std::marker::Model;

/// The entries that a long ledger leaves out: how many, and together what was added, what was subtracted and how many carries came in.
#[derive(Clone, Copy, Debug)]
pub struct LeftOut {
    /// How many.
    pub count: u64,
    /// The sum of the numbers that were added.
    pub plus: u128,
    /// The sum of the numbers that were subtracted.
    pub minus: u128,
    /// In how many of them a carry came in at the units.
    pub carries: u64,
}

// One entry more is left out.
fn with_left_out(entry: &Entry, left_out: LeftOut) -> LeftOut
    requires few { left_out.count + 1 < 2 ^ 64 }
    requires bounded { IsBounded left_out }
    ensures value { result ≡ with_left_out entry.now left_out }
    ensures bounded { IsBounded result }
{
    let entered = u128::from(entry.entered);
    LeftOut {
        count: left_out.count + 1,
        plus: left_out.plus
            + if entry.change == Change::Plus {
                entered
            } else {
                0
            },
        minus: left_out.minus
            + if entry.change == Change::Minus {
                entered
            } else {
                0
            },
        carries: left_out.carries + u64::from(entry.carry),
    }
}

/// The ledger of an account: the cycles in which something came to its number since it last stood cleared, in their order. Of a long one the first
/// entries and the last ones are kept, so many at each end, and of those between their sums, so that it takes no more memory however
/// long the run is.
#[derive(Drop)]
pub struct Ledger {
    account: Account,
    ends: usize,
    first: Vec<Entry>,
    left_out: LeftOut,
    last: Vec<Entry>,
}

impl Model for Ledger {
    ghost use Rattle.explain_ledgers.specs.LedgersWords.Summaries.{IsBounded, Summary};

    ghost Value = { Summary };

    ghost view = { λ ledger. record {
      account = ledger.account;
      ends = ledger.ends;
      first = ledger.first.items;
      left_out = ledger.left_out;
      last = ledger.last.items;
    } };

    ghost invariant = { λ ledger. IsBounded ledger.left_out };
}

impl Ledger {
    ghost use Rattle.std.specs.Prelude.{◌≡◌, ◌<◌, ◌+◌, ◌^◌, [], OnOk, length};
    ghost use Rattle.explain_ledgers.specs.LedgersWords.Summaries.{emptied, pushed, shifted, summary_after, summary_of};

    /// The ledger of a number that stands at 0, of which so many entries are kept at each end.
    pub fn new(alloc: Global, account: Account, ends: usize) -> Self
        ensures { result ≡ summary_of account ends [] }
    {
        Ledger {
            account,
            ends,
            first: Vec::new(alloc),
            left_out: LeftOut {
                count: 0,
                plus: 0,
                minus: 0,
                carries: 0,
            },
            last: Vec::new(alloc),
        }
    }

    /// The account.
    pub fn account(&self) -> Account
        ensures { result ≡ self.now.account }
    {
        self.account
    }

    /// Its first entries in their order.
    pub fn first(&self) -> &[Entry]
        ensures { result.now ≡ self.now.first }
    {
        self.first.as_slice()
    }

    /// What is left out between the first entries and the last ones.
    pub fn left_out(&self) -> LeftOut
        ensures { result ≡ self.now.left_out }
    {
        self.left_out
    }

    /// Its last entries in their order, behind the first ones and those that are left out.
    pub fn last(&self) -> &[Entry]
        ensures { result.now ≡ self.now.last }
    {
        self.last.as_slice()
    }

    // Takes a cycle down.
    pub(crate) fn take(
        &mut self,
        cycle: Cycle,
        card: u32,
        passed: u64,
        moved: Movement,
    ) -> Result<(), AllocError>
        requires { self.old.left_out.count + 1 < 2 ^ 64 }
        ensures { OnOk result (self.new ≡ summary_after cycle card passed moved self.old) }
    {
        if moved.is_cleared() {
            self.empty();
        }
        if moved.is_added() {
            self.push(moved.entry(cycle, card, passed))?;
        }
        Ok(())
    }

    // Drops all entries.
    fn empty(&mut self)
        ensures { self.new ≡ emptied self.old }
    {
        self.first.clear();
        self.left_out = LeftOut {
            count: 0,
            plus: 0,
            minus: 0,
            carries: 0,
        };
        self.last.clear();
    }

    // Puts an entry behind the others.
    fn push(&mut self, entry: Entry) -> Result<(), AllocError>
        requires { self.old.left_out.count + 1 < 2 ^ 64 }
        ensures { OnOk result (self.new ≡ pushed entry self.old) }
    {
        if self.first.len() < self.ends {
            self.first.push(entry)?;
            return Ok(());
        }
        self.last.push(entry)?;
        if self.last.len() > self.ends {
            self.leave_out();
        }
        Ok(())
    }

    // Leaves the first of the last entries out.
    fn leave_out(&mut self)
        requires some { 0 < length self.old.last }
        requires few { self.old.left_out.count + 1 < 2 ^ 64 }
        ensures { self.new ≡ shifted self.old }
    {
        let entry = self.last.remove(0);
        self.left_out = with_left_out(&entry, self.left_out);
    }
}
