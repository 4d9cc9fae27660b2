//! The text of a ledger down to the holes.

ghost use Rattle.std.specs.Prelude.{◌≡◌, ◌≤◌, ◌++◌, ℕ, All, IfOk, length, option_map};
ghost use Rattle.card_code.specs.MostCards.{most_cards};
ghost use Rattle.explain_ledgers.specs.CycleWays.Points.{ArePointsOf};
ghost use Rattle.explain_ledgers.specs.LedgersWords.Accounts.{IsAccount};
ghost use Rattle.explain_ledgers.specs.LedgersWords.LedgerText.Entries.{entry_line, gap_lines};
ghost use Rattle.explain_ledgers.specs.LedgersWords.LedgerText.Tellings.{heading_line};
ghost use Rattle.explain_ledgers.specs.LedgersWords.LedgerText.Titles.{words_of};
ghost use Rattle.explain_ledgers.specs.LedgersWords.Running.{HasCycle};
ghost use Rattle.explain_wheels.specs.RunsWords.{IsBetween};
ghost use Rattle.explain_wheel_ledgers.specs.LedgerHoles.Down.{AreEntered, AreEntriesDown, IsEntryDown, IsLedgerDown};

use crate::ledger_holes::controls::account_lines;
use crate::ledger_holes::digits::digit_lines;
use crate::texts::put_together;
use card_code::Card;
use explain_ledgers::ledgers::ledger_text::{
    Title, positions_of, write_entry, write_gaps, write_heading,
};
use explain_ledgers::ledgers::{Account, Change, Entry, Ledger, LeftOut};
use explain_wheels::runs::DeckRun;
use hubs::setups::Setup;
use machine::KeptPoint;
use net::Cycle;
use std::alloc::{AllocError, Global};

// The lines of the digits that came in in the cycle of an entry, unless the number turned or got a carry alone.
fn entered_lines(
    alloc: Global,
    setup: &Setup,
    cards: &[Card],
    points: &[KeptPoint; 14],
    account: Account,
    entry: &Entry,
) -> Result<Vec<u8>, AllocError>
    requires { IsAccount account }
    ensures { (passed : ℕ) (is : ArePointsOf setup.now cards.now passed points.now)
        → IfOk result (λ lines. AreEntered is.has account entry.now entry.now.change lines.items) }
{
    match entry.change {
        Change::Plus | Change::Minus | Change::Apart => digit_lines(
            alloc,
            setup,
            cards,
            points,
            entry.cycle,
            entry.card,
            account,
            positions_of(account) as u8,
            1,
            entry.entered,
        ),
        Change::Turned | Change::Carry => Ok(Vec::new(alloc)),
    }
}

// The line of an entry, alone.
fn entry_line(
    alloc: Global,
    title: &Option<Title>,
    account: Account,
    entry: &Entry,
) -> Result<Vec<u8>, AllocError>
    requires { IsAccount account }
    ensures { IfOk result (λ line. line.items ≡ entry_line (option_map words_of title.now) account entry.now) }
{
    let mut line = Vec::new(alloc);
    match write_entry(&mut line, title, account, entry) {
        Ok(()) => Ok(line),
        Err(_) => Err(AllocError),
    }
}

// The line of an entry, below it how its groups were told what to do in its cycle, and then the lines of its digits.
fn entry_by(
    alloc: Global,
    setup: &Setup,
    cards: &[Card],
    points: &[KeptPoint; 14],
    title: &Option<Title>,
    account: Account,
    entry: &Entry,
) -> Result<Vec<u8>, AllocError>
    requires { IsAccount account }
    ensures { ArePointsOf setup.now cards.now entry.now.passed points.now
        → IfOk result (λ text. IsEntryDown setup.now cards.now (option_map words_of title.now) account entry.now text.items) }
{
    let line = entry_line(alloc, title, account, entry)?;
    let controls = account_lines(alloc, setup, points, account)?;
    let entered = entered_lines(alloc, setup, cards, points, account, entry)?;
    let told = put_together(alloc, line.as_slice(), controls.as_slice())?;
    let text = put_together(alloc, told.as_slice(), entered.as_slice())?;
    Ok(text)
}

// The same; the run goes on to the cycle.
fn entry_down<'a>(
    alloc: Global,
    setup: &Setup,
    cards: &'a [Card],
    run: &mut DeckRun<'a>,
    title: &Option<Title>,
    account: Account,
    entry: &Entry,
) -> Result<Vec<u8>, AllocError>
    requires few { length cards.now ≤ most_cards }
    requires account { IsAccount account }
    requires between { IsBetween setup.now cards.now run.old }
    requires has { HasCycle setup.now cards.now entry.now.passed }
    ensures told { IfOk result (λ text. IsEntryDown setup.now cards.now (option_map words_of title.now) account entry.now text.items) }
    ensures between { IsBetween setup.now cards.now run.new }
{
    let points = run.cycle_behind(alloc, setup, cards, entry.passed)?;
    entry_by(alloc, setup, cards, &points, title, account, entry)
}

// The same of some entries.
fn entries_down<'a>(
    alloc: Global,
    setup: &Setup,
    cards: &'a [Card],
    run: &mut DeckRun<'a>,
    title: &Option<Title>,
    account: Account,
    entries: &[Entry],
) -> Result<Vec<u8>, AllocError>
    requires few { length cards.now ≤ most_cards }
    requires account { IsAccount account }
    requires between { IsBetween setup.now cards.now run.old }
    requires has { All (λ entry. HasCycle setup.now cards.now entry.passed) entries.now }
    ensures told { IfOk result (λ text. AreEntriesDown setup.now cards.now (option_map words_of title.now) account entries.now text.items) }
    ensures between { IsBetween setup.now cards.now run.new }
{
    let mut text = Vec::new(alloc);
    for entry in entries {
        let next = entry_down(alloc, setup, cards, run, title, account, entry)?;
        text.extend_from_slice(next.as_slice())?;
    }
    Ok(text)
}

// Whose ledger it is, and before which cycle it is told.
fn heading(alloc: Global, account: Account, cycle: Cycle, card: u32) -> Result<Vec<u8>, AllocError>
    requires { IsAccount account }
    ensures { IfOk result (λ line. line.items ≡ heading_line account cycle card) }
{
    let mut line = Vec::new(alloc);
    match write_heading(&mut line, account, cycle, card) {
        Ok(()) => Ok(line),
        Err(_) => Err(AllocError),
    }
}

// The line in place of the entries that are left out, if some are.
fn gap(alloc: Global, title: &Option<Title>, left_out: LeftOut) -> Result<Vec<u8>, AllocError>
    ensures { IfOk result (λ line. line.items ≡ gap_lines (option_map words_of title.now) left_out) }
{
    let mut line = Vec::new(alloc);
    match write_gaps(&mut line, title, left_out) {
        Ok(()) => Ok(line),
        Err(_) => Err(AllocError),
    }
}

/// The text of a ledger of a run of a deck, of at most 999,999 cards, on a setup of the panel. Below each entry stands by which way each of its
/// groups was told to add, to subtract or to read out, and by which hole of a card, or else by which way, each digit came in. The ledger is told
/// before a cycle, by the number of the card that was read last in it; a title is what a chart knows of it. Fails only if no memory is left.
pub fn tell_ledger_down(
    alloc: Global,
    setup: &Setup,
    cards: &[Card],
    ledger: &Ledger,
    cycle: Cycle,
    card: u32,
    title: &Option<Title>,
) -> Result<Vec<u8>, AllocError>
    requires few { length cards.now ≤ most_cards }
    requires account { IsAccount ledger.now.account }
    requires first { All (λ entry. HasCycle setup.now cards.now entry.passed) ledger.now.first }
    requires last { All (λ entry. HasCycle setup.now cards.now entry.passed) ledger.now.last }
    ensures { IfOk result (λ text.
        IsLedgerDown setup.now cards.now ledger.now cycle card (option_map words_of title.now) text.items) }
{
    let account = ledger.account();
    let mut run = DeckRun::begin(alloc, setup, cards)?;
    let heading = heading(alloc, account, cycle, card)?;
    let first = entries_down(
        alloc,
        setup,
        cards,
        &mut run,
        title,
        account,
        ledger.first(),
    )?;
    let gap = gap(alloc, title, ledger.left_out())?;
    let last = entries_down(alloc, setup, cards, &mut run, title, account, ledger.last())?;
    let begun = put_together(alloc, heading.as_slice(), first.as_slice())?;
    let more = put_together(alloc, begun.as_slice(), gap.as_slice())?;
    let text = put_together(alloc, more.as_slice(), last.as_slice())?;
    Ok(text)
}
