//! The ledgers to which the entries of another ledger lead.

ghost use Rattle.std.specs.Prelude.{◌≡◌, ◌≤◌, ◌<◌, ◌++◌, All, OnOk, length};
ghost use Rattle.std.specs.List.{flat_map};
ghost use Rattle.explain_ledgers.specs.LedgersWords.Accounts.{IsAccount};
ghost use Rattle.explain_wheel_ledgers.specs.Lower.{cycle_of, has_units, is_lower, lower_at, lower_in, lower_of, takes_lower};
ghost use Rattle.explain_wheel_ledgers.specs.Totals.{AreAccounts};

use crate::chart_totals::{TitledAccount, find_total};
use crate::ledger_holes::feeds;
use crate::places::GROUPS;
use crate::telling::account_told;
use explain_ledgers::ledgers::{Account, Change, Entry, ReadOuts};
use explain_origins::PassedCycle;
use hubs::setups::Setup;
use std::alloc::AllocError;

/// A counter group whose ledger is asked for before a cycle: that of the group, or of the total that it serves.
#[derive(Clone, Copy, Debug)]
pub struct AskedGroup {
    /// The place of the group.
    pub place: usize,
    /// The cycle.
    pub before: PassedCycle,
}

// Whether the group of a place has the units of an account.
fn has_units(account: Account, place: usize) -> bool
    ensures { result ≡ has_units account place }
{
    match account {
        Account::One { place: own } => own == place,
        Account::Coupled { upper: _, lower } => lower == place,
    }
}

// Whether the number of the group of a place comes to an account, and the group has the units of the number that is told for it.
fn is_lower(
    setup: &Setup,
    totals: &[TitledAccount],
    read_outs: &ReadOuts,
    account: Account,
    place: usize,
) -> bool
    requires accounts { AreAccounts totals.now }
    requires account { IsAccount account }
    requires place { place < 32 }
    ensures { result ≡ is_lower setup.now totals.now read_outs.now.groups account place }
{
    feeds(setup, read_outs.groups[place], place, account)
        && has_units(account_told(&find_total(totals, place), place), place)
}

// Asks for its ledger if it does.
fn add_lower(
    lower: &mut Vec<AskedGroup>,
    setup: &Setup,
    totals: &[TitledAccount],
    read_outs: &ReadOuts,
    account: Account,
    before: PassedCycle,
    place: usize,
) -> Result<(), AllocError>
    requires accounts { AreAccounts totals.now }
    requires account { IsAccount account }
    requires place { place < 32 }
    ensures { OnOk result (lower.new.items ≡ lower.old.items ++ lower_at setup.now totals.now read_outs.now.groups account before place) }
{
    if is_lower(setup, totals, read_outs, account, place) {
        lower.push(AskedGroup { place, before })?;
    }
    Ok(())
}

// Asks for the ledgers of all groups whose numbers come to an account, by which of them are read out.
fn add_lower_in(
    lower: &mut Vec<AskedGroup>,
    setup: &Setup,
    totals: &[TitledAccount],
    read_outs: &ReadOuts,
    account: Account,
    before: PassedCycle,
) -> Result<(), AllocError>
    requires accounts { AreAccounts totals.now }
    requires account { IsAccount account }
    ensures { OnOk result (lower.new.items ≡ lower.old.items ++ lower_in setup.now totals.now read_outs.now.groups account before) }
{
    for place in 0..GROUPS {
        add_lower(lower, setup, totals, read_outs, account, before, place)?;
    }
    Ok(())
}

// The cycle of an entry.
fn cycle_of(entry: &Entry) -> PassedCycle
    ensures { result ≡ cycle_of entry.now }
{
    PassedCycle {
        cycle: entry.cycle,
        card: entry.card,
        passed: entry.passed,
    }
}

// Whether a number of a group can come in by a change.
fn takes_lower(change: Change) -> bool
    ensures { result ≡ takes_lower change }
{
    match change {
        Change::Plus | Change::Minus | Change::Apart => true,
        Change::Turned | Change::Carry => false,
    }
}

// Asks for the ledgers to which an entry leads, by which groups are read out in each cycle.
fn add_lower_of(
    lower: &mut Vec<AskedGroup>,
    setup: &Setup,
    totals: &[TitledAccount],
    read_outs: &[ReadOuts],
    account: Account,
    entry: &Entry,
) -> Result<(), AllocError>
    requires accounts { AreAccounts totals.now }
    requires account { IsAccount account }
    requires within { entry.now.passed < length read_outs.now }
    ensures { OnOk result (lower.new.items ≡ lower.old.items ++ lower_of setup.now totals.now read_outs.now account entry.now) }
{
    if takes_lower(entry.change) {
        let here = &read_outs[entry.passed as usize];
        add_lower_in(lower, setup, totals, here, account, cycle_of(entry))?;
    }
    Ok(())
}

// Asks for those to which some entries lead, in their order.
pub(crate) fn add_lower_of_all(
    lower: &mut Vec<AskedGroup>,
    setup: &Setup,
    totals: &[TitledAccount],
    read_outs: &[ReadOuts],
    account: Account,
    entries: &[Entry],
) -> Result<(), AllocError>
    requires accounts { AreAccounts totals.now }
    requires account { IsAccount account }
    requires within { All (λ entry. entry.passed < length read_outs.now) entries.now }
    ensures { OnOk result (lower.new.items ≡ lower.old.items ++ flat_map (lower_of setup.now totals.now read_outs.now account) entries.now) }
{
    for entry in entries {
        add_lower_of(lower, setup, totals, read_outs, account, entry)?;
    }
    Ok(())
}
