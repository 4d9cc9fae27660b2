//! From which counter groups the number of an account can come in a cycle.

ghost use Rattle.std.specs.Prelude.{◌≡◌, ◌≤◌, ◌<◌};
ghost use Rattle.explain_ledgers.specs.LedgersWords.Accounts.{IsAccount};
ghost use Rattle.explain_wheel_ledgers.specs.LedgerHoles.Feeding.{feeds, leads, leads_from, leads_to};

use crate::ledger_holes::positions::{entry_at, group_at, position_in};
use explain_ledgers::ledgers::Account;
use explain_ledgers::ledgers::ledger_text::positions_of;
use explain_origins::is_wired;
use hubs::Hub;
use hubs::setups::Setup;

// Whether a wire leads from the exit of a position of a group to the entry of a position of an account.
#[tactic(auto, unfolding(crate::specs::LedgerHoles::Feeding::leads))]
fn leads(setup: &Setup, group: hubs::Group, own: u8, account: Account, position: u8) -> bool
    requires { IsAccount account }
    ensures { result ≡ leads setup.now group own account position }
{
    let entry = entry_at(position_in(account, position));
    is_wired(setup, Hub::GX(group, own), entry)
}

// Whether one leads there from one of so many positions of the group.
#[tactic(auto, unfolding(crate::specs::LedgerHoles::Feeding::leads_from))]
fn leads_from(setup: &Setup, group: hubs::Group, owns: u8, account: Account, position: u8) -> bool
    requires { IsAccount account }
    ensures { result ≡ leads_from setup.now group owns account position }
{
    if owns == 0 {
        return false;
    }
    leads(setup, group, owns, account, position)
        || leads_from(setup, group, owns - 1, account, position)
}

// Whether one leads from the group to one of so many positions of the account.
#[tactic(auto, unfolding(crate::specs::LedgerHoles::Feeding::leads_to))]
fn leads_to(setup: &Setup, group: hubs::Group, account: Account, positions: u8) -> bool
    requires { IsAccount account }
    ensures { result ≡ leads_to setup.now group account positions }
{
    if positions == 0 {
        return false;
    }
    leads_from(setup, group, group.width, account, positions)
        || leads_to(setup, group, account, positions - 1)
}

/// Whether the number of the group of a place comes to an account in a cycle: the group is read out in it, and a wire leads from one of its
/// exits to an entry of the account.
pub fn feeds(setup: &Setup, read_out: bool, place: usize, account: Account) -> bool
    requires place { place < 32 }
    requires account { IsAccount account }
    ensures { result ≡ feeds setup.now read_out place account }
{
    let positions = positions_of(account) as u8;
    read_out && leads_to(setup, group_at(place), account, positions)
}
