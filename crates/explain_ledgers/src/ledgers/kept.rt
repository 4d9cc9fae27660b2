//! The ledgers of accounts along a run.

ghost use Rattle.std.specs.Prelude.{◌≡◌, ◌≤◌, ℕ, All, IfOk, OnOk, length, map};
ghost use Rattle.card_code.specs.MostCards.{most_cards};
ghost use Rattle.counters.specs.Laws.{IsCounter};
ghost use Rattle.explain_ledgers.specs.LedgersWords.Accounts.{IsAccount};
ghost use Rattle.explain_ledgers.specs.LedgersWords.KeptLedgers.{CanTake, empty_ledger, kept_after};
ghost use Rattle.explain_ledgers.specs.LedgersWords.Running.{HasCycle, IsKept, IsKeptLedger, asked_of};
ghost use Rattle.explain_ledgers.specs.declared.ledgers.kept.AskedLedger.{AskedLedger};

use crate::ledgers::account::Account;
use crate::ledgers::ledger::Ledger;
use card_code::Card;
use counters::Group;
use explain_wheels::runs::DeckRun;
use hubs::setups::Setup;
use net::Cycle;
use std::alloc::{AllocError, Global};

/// A ledger that is asked for.
#[derive(Clone, Copy, Debug)]
pub struct AskedLedger {
    /// The account.
    pub account: Account,
    /// How many cycles of the run are over before the cycle up to which the ledger is told.
    pub passed: u64,
}

/// A ledger of a run.
#[derive(Drop)]
pub struct KeptLedger {
    /// What was asked for.
    pub asked: AskedLedger,
    /// The ledger.
    pub ledger: Ledger,
}

// A ledger that has no entry yet.
fn empty_ledger(alloc: Global, asked: AskedLedger, ends: usize) -> KeptLedger
    ensures { result ≡ empty_ledger ends asked }
{
    KeptLedger {
        asked,
        ledger: Ledger::new(alloc, asked.account, ends),
    }
}

// Ledgers that have no entry yet.
fn empty_ledgers(
    alloc: Global,
    asked: &[AskedLedger],
    ends: usize,
) -> Result<Vec<KeptLedger>, AllocError>
    ensures { IfOk result (λ kept. kept.items ≡ map (empty_ledger ends) asked.now) }
{
    let mut kept = Vec::new(alloc);
    for one in asked {
        kept.push(empty_ledger(alloc, *one, ends))?;
    }
    Ok(kept)
}

impl KeptLedger {
    ghost use Rattle.std.specs.Prelude.{◌≡◌, All, OnOk, length};
    ghost use Rattle.counters.specs.Laws.{IsCounter};
    ghost use Rattle.explain_ledgers.specs.LedgersWords.KeptLedgers.{CanTake, kept_after};

    // Takes a cycle down, if it comes before the one up to which the ledger is told.
    fn take(
        &mut self,
        cycle: Cycle,
        card: u32,
        passed: u64,
        groups: &[Group],
    ) -> Result<(), AllocError>
        requires can { CanTake self.old }
        requires long { length groups.now ≡ 32 }
        requires lawful { All IsCounter groups.now }
        ensures { OnOk result (self.new ≡ kept_after cycle card passed groups.now self.old) }
    {
        if passed < self.asked.passed {
            let moved = self.asked.account.movement(cycle, groups);
            self.ledger.take(cycle, card, passed, moved)?;
        }
        Ok(())
    }
}

// Takes a cycle down in each ledger.
fn take_each(
    kept: &mut [KeptLedger],
    cycle: Cycle,
    card: u32,
    passed: u64,
    groups: &[Group],
) -> Result<(), AllocError>
    requires can { All CanTake kept.old }
    requires long { length groups.now ≡ 32 }
    requires lawful { All IsCounter groups.now }
    ensures { OnOk result (kept.new ≡ map (kept_after cycle card passed groups.now) kept.old) }
{
    for one in kept.iter_mut() {
        one.take(cycle, card, passed, groups)?;
    }
    Ok(())
}

// The same, in a list of its own.
fn take_all(
    kept: &mut Vec<KeptLedger>,
    cycle: Cycle,
    card: u32,
    passed: u64,
    groups: &[Group],
) -> Result<(), AllocError>
    requires can { All CanTake kept.old.items }
    requires long { length groups.now ≡ 32 }
    requires lawful { All IsCounter groups.now }
    ensures { OnOk result (kept.new.items ≡ map (kept_after cycle card passed groups.now) kept.old.items) }
{
    take_each(kept.as_mut_slice(), cycle, card, passed, groups)?;
    Ok(())
}

// How many cycles come before the last one up to which a ledger is told.
fn last_of(asked: &[AskedLedger]) -> u64
    ensures high { All (λ (one : AskedLedger). one.passed ≤ result) asked.now }
    ensures least { (bound : ℕ) → All (λ (one : AskedLedger). one.passed ≤ bound) asked.now → result ≤ bound }
{
    let mut last = 0;
    for one in asked {
        last = last.max(one.passed);
    }
    last
}

/// The ledgers of accounts in a run of a deck, of at most 999,999 cards, through a setup of the panel, in the order in which they are asked
/// for. Each is told before the cycle that comes behind so many others, which the run has: so many entries at each end, and what
/// those between come to. The deck runs once. Fails only if no memory is left.
pub fn ledgers_before(
    alloc: Global,
    setup: &Setup,
    cards: &[Card],
    asked: &[AskedLedger],
    ends: usize,
) -> Result<Vec<KeptLedger>, AllocError>
    requires few { length cards.now ≤ most_cards }
    requires has { All (λ (one : AskedLedger). HasCycle setup.now cards.now one.passed) asked.now }
    requires accounts { All (λ (one : AskedLedger). IsAccount one.account) asked.now }
    ensures asked { IfOk result (λ kept. map asked_of kept.items ≡ asked.now) }
    ensures kept { IfOk result (λ kept. All (IsKept setup.now cards.now ends) kept.items) }
{
    let mut run = DeckRun::begin(alloc, setup, cards)?;
    let mut kept = empty_ledgers(alloc, asked, ends)?;
    let last = last_of(asked);
    for passed in 0..last {
        let cycle = run.enter_due(setup, cards);
        take_all(&mut kept, cycle, run.card, passed, run.machine.groups())?;
        run.leave(cycle);
    }
    Ok(kept)
}

/// The ledger of an account in a run of a deck, of at most 999,999 cards, through a setup of the panel, before the cycle that comes behind
/// so many others, which the run has: so many entries at each end, and what those between come to. Fails only if no memory is left.
pub fn ledger_before(
    alloc: Global,
    setup: &Setup,
    cards: &[Card],
    count: u64,
    account: Account,
    ends: usize,
) -> Result<Ledger, AllocError>
    requires few { length cards.now ≤ most_cards }
    requires has { HasCycle setup.now cards.now count }
    requires account { IsAccount account }
    ensures { IfOk result (IsKeptLedger setup.now cards.now count ends account) }
{
    let asked = AskedLedger {
        account,
        passed: count,
    };
    let mut kept = ledgers_before(alloc, setup, cards, &[asked], ends)?;
    let KeptLedger {
        asked: _asked,
        ledger,
    } = kept.remove(0);
    Ok(ledger)
}
