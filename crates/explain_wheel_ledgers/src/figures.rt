//! The figure that stands on a wheel of a line.

ghost use Rattle.std.specs.Prelude.{◌≡◌, ◌≤◌, ◌<◌, ◌+◌, ◌++◌, OnOk};
ghost use Rattle.explain_ledgers.specs.LedgersWords.Accounts.{IsAccount};
ghost use Rattle.explain_wheel_ledgers.specs.Figures.{balance_to, begin_of, begins_behind, digit_of, digit_to, end_of, ends_before, figure_on, has_digit, has_mark, is_joined, is_own, mark_of, mark_to, printed_text};

use counters::group_of_unit;
use explain_ledgers::ledgers::Account;
use explain_origins::is_wired;
use hubs::setups::Setup;
use hubs::{Group, Hub, Jack};
use page_text::placed_lines::LINE_WHEELS;
use std::io;
use std::io::Write;

// Whether a wire leads to a wheel from one of so many positions of a group.
#[tactic(auto, unfolding(crate::specs::Figures::digit_to))]
fn digit_to(setup: &Setup, group: Group, wheel: u8, positions: u8) -> bool
    ensures { result ≡ digit_to setup.now group wheel positions }
{
    if positions == 0 {
        return false;
    }
    is_wired(setup, Hub::GX(group, positions), Hub::W(wheel))
        || digit_to(setup, group, wheel, positions - 1)
}

// Whether one leads there from the contact of a balance position of a group.
fn balance_to(setup: &Setup, group: Group, wheel: u8, position: u8) -> bool
    ensures { result ≡ balance_to setup.now group wheel position }
{
    is_wired(setup, Hub::BAT(group, position), Hub::W(wheel))
        || is_wired(setup, Hub::BAN(group, position), Hub::W(wheel))
}

// Whether one leads there from one of its four balance positions.
fn mark_to(setup: &Setup, group: Group, wheel: u8) -> bool
    ensures { result ≡ mark_to setup.now group wheel }
{
    balance_to(setup, group, wheel, 1)
        || balance_to(setup, group, wheel, 2)
        || balance_to(setup, group, wheel, 3)
        || balance_to(setup, group, wheel, 4)
}

// Whether a digit of the group of a place is wired to a wheel.
fn digit_of(setup: &Setup, place: usize, wheel: u8) -> bool
    requires { place < 32 }
    ensures { result ≡ digit_of setup.now place wheel }
{
    let group = group_of_unit(3 + place as u8);
    digit_to(setup, group, wheel, group.width)
}

// Whether its mark is.
fn mark_of(setup: &Setup, place: usize, wheel: u8) -> bool
    requires { place < 32 }
    ensures { result ≡ mark_of setup.now place wheel }
{
    mark_to(setup, group_of_unit(3 + place as u8), wheel)
}

// Whether a digit of an account is wired to a wheel.
fn has_digit(setup: &Setup, account: Account, wheel: u8) -> bool
    requires { IsAccount account }
    ensures { result ≡ has_digit setup.now account wheel }
{
    match account {
        Account::One { place } => digit_of(setup, place, wheel),
        Account::Coupled { upper, lower } => {
            digit_of(setup, upper, wheel) || digit_of(setup, lower, wheel)
        }
    }
}

// Whether its mark is.
fn has_mark(setup: &Setup, account: Account, wheel: u8) -> bool
    requires { IsAccount account }
    ensures { result ≡ has_mark setup.now account wheel }
{
    match account {
        Account::One { place } => mark_of(setup, place, wheel),
        Account::Coupled { upper, lower } => {
            mark_of(setup, upper, wheel) || mark_of(setup, lower, wheel)
        }
    }
}

// Whether a wheel is one of an account's own: a digit or the mark of the account is wired to it, or it stands between two digits.
fn is_own(setup: &Setup, account: Account, wheel: u8) -> bool
    requires account { IsAccount account }
    requires from { 1 ≤ wheel }
    requires to { wheel ≤ 120 }
    ensures { result ≡ is_own setup.now account wheel }
{
    has_digit(setup, account, wheel)
        || has_mark(setup, account, wheel)
        || (has_digit(setup, account, wheel - 1) && has_digit(setup, account, wheel + 1))
}

// Whether a wheel is joined to the one before it: LINK is plugged on it, or both are the account's own.
#[tactic(auto, unfolding(crate::specs::Figures::is_joined))]
fn is_joined(setup: &Setup, account: Account, wheel: u8) -> bool
    requires account { IsAccount account }
    requires from { 2 ≤ wheel }
    requires to { wheel ≤ 120 }
    ensures { result ≡ is_joined setup.now account wheel }
{
    setup.has_jack(Jack::Link(wheel))
        || (is_own(setup, account, wheel - 1) && is_own(setup, account, wheel))
}

// Whether a figure that goes on behind a place of a line begins there: the place is blank, or the wheel behind it isn't joined to it.
fn begins_behind(setup: &Setup, account: Account, text: &[u8; LINE_WHEELS], place: usize) -> bool
    requires account { IsAccount account }
    requires place { place < 119 }
    ensures { result ≡ begins_behind setup.now account text.now place }
{
    text[place] == b' ' || !is_joined(setup, account, place as u8 + 2)
}

// Whether one that goes on before a place ends there: the place is blank, or its wheel isn't joined to the one before it.
fn ends_before(setup: &Setup, account: Account, text: &[u8; LINE_WHEELS], place: usize) -> bool
    requires account { IsAccount account }
    requires some { 1 ≤ place }
    requires place { place < 120 }
    ensures { result ≡ ends_before setup.now account text.now place }
{
    text[place] == b' ' || !is_joined(setup, account, place as u8 + 1)
}

// Where a figure begins, if a character of it stands behind so many others of the line.
#[tactic(auto, unfolding(crate::specs::Figures::begin_of))]
fn begin_of(setup: &Setup, account: Account, text: &[u8; LINE_WHEELS], place: usize) -> usize
    requires account { IsAccount account }
    requires place { place < 120 }
    ensures value { result ≡ begin_of setup.now account text.now place }
    ensures range { result ≤ place }
{
    if place == 0 || begins_behind(setup, account, text, place - 1) {
        return place;
    }
    begin_of(setup, account, text, place - 1)
}

// Where it ends, if it goes on before a place, from which the line has so many characters.
#[tactic(auto, unfolding(crate::specs::Figures::end_of))]
fn end_of(
    setup: &Setup,
    account: Account,
    text: &[u8; LINE_WHEELS],
    place: usize,
    others: usize,
) -> usize
    requires account { IsAccount account }
    requires some { 1 ≤ place }
    requires all { place + others ≤ 120 }
    ensures value { result ≡ end_of setup.now account text.now place others }
    ensures from { place ≤ result }
    ensures to { result ≤ 120 }
{
    if others == 0 || ends_before(setup, account, text, place) {
        return place;
    }
    end_of(setup, account, text, place + 1, others - 1)
}

/// The figure of an account on a wheel, 1 to 120, of a line that a setup of the panel printed: the characters on the wheel and on those that
/// are joined with it, up to a blank. A wheel is joined to the one before it by LINK, or if both are wired to digits or to the mark of the
/// account, or stand between two digits.
pub fn figure_on<'a>(
    setup: &Setup,
    account: Account,
    text: &'a [u8; LINE_WHEELS],
    wheel: u8,
) -> &'a [u8]
    requires account { IsAccount account }
    requires from { 1 ≤ wheel }
    requires to { wheel ≤ 120 }
    ensures { result.now ≡ figure_on setup.now account text.now wheel }
{
    let behind = wheel as usize;
    let begin = begin_of(setup, account, text, behind - 1);
    let end = end_of(setup, account, text, behind, LINE_WHEELS - behind);
    &text[begin..end]
}

// Puts behind a text what was printed on a wheel of a line: the line that closes the ledger of a figure.
pub(crate) fn write_printed(
    text: &mut Vec<u8>,
    setup: &Setup,
    account: Account,
    line: &[u8; LINE_WHEELS],
    wheel: u8,
) -> io::Result<()>
    requires account { IsAccount account }
    requires from { 1 ≤ wheel }
    requires to { wheel ≤ 120 }
    ensures { OnOk result (text.new.items ≡ text.old.items ++ printed_text setup.now account line.now wheel) }
{
    if line[wheel as usize - 1] == b' ' {
        return text.write_all(b"printed a blank\n");
    }
    text.write_all(b"printed ")?;
    text.write_all(figure_on(setup, account, line, wheel))?;
    text.write_all(b"\n")
}
