//! The text of the ledger of what is printed on a wheel.

ghost use Rattle.std.specs.Prelude.{◌≡◌, ◌≤◌, ◌<◌, ◌⊎◌, length, Err, IfOk, IfSome, option_map};
ghost use Rattle.card_code.specs.MostCards.{most_cards};
ghost use Rattle.explain_wheels.specs.ExplanationsWords.Explanations.{IsExplanation};
ghost use Rattle.explain_wheels.specs.ExplanationsWords.PlacedInRun.{PrintsNoneAt};
ghost use Rattle.explain_wheels.specs.declared.explanations.refusal.Refusal.TheVariants.{NoSuchLine, NoSuchWheel};
ghost use Rattle.explain_ledgers.specs.LedgersWords.Running.{PlacesLine};
ghost use Rattle.explain_ledgers.specs.LedgersWords.LedgerText.Titles.{words_of};
ghost use Rattle.explain_ledgers.specs.LedgersWords.LedgerText.Tellings.{no_ledger_text};
ghost use Rattle.explain_wheel_ledgers.specs.ToldLedgers.{IsFigureText, IsPlaceText, IsTextFor, TellsLedger, account_told, words_told};
ghost use Rattle.explain_wheel_ledgers.specs.Totals.{AreAccounts, find_total};

use crate::chart_totals::{TitledAccount, find_total};
use crate::figures::write_printed;
use crate::printed::place_printed;
use card_code::Card;
use explain_ledgers::ledgers::ledger_text::{Title, write_ledger, write_no_ledger};
use explain_ledgers::ledgers::{Account, FoundCycle, find_cycle, ledger_before};
use explain_wheels::explanations::{Explanation, Refusal, explain};
use hubs::setups::Setup;
use std::alloc::{AllocError, Global};

/// The account that is told for the group of a place: that of the total that it serves, or else the one group.
pub fn account_told(total: &Option<TitledAccount>, place: usize) -> Account
    ensures { result ≡ account_told total.now place }
{
    match total {
        Some(total) => total.account,
        None => Account::One { place },
    }
}

/// What a chart knows of a total, if one is known.
pub fn title_told(total: &Option<TitledAccount>) -> Option<Title>
    ensures { option_map words_of result ≡ words_told total.now }
{
    match total {
        Some(total) => Some(total.title),
        None => None,
    }
}

// The text of the ledger of the account for a place, before a cycle that placed a line.
pub(crate) fn place_text(
    alloc: Global,
    setup: &Setup,
    totals: &[TitledAccount],
    cards: &[Card],
    found: FoundCycle,
    place: usize,
    ends: usize,
) -> Result<Vec<u8>, AllocError>
    requires few { length cards.now ≤ most_cards }
    requires accounts { AreAccounts totals.now }
    requires places { PlacesLine setup.now cards.now found }
    requires place { place < 32 }
    ensures { IfOk result (λ text. IsPlaceText setup.now cards.now ends found (find_total totals.now place) place text.items) }
{
    let total = find_total(totals, place);
    let account = account_told(&total, place);
    let ledger = ledger_before(alloc, setup, cards, found.passed, account, ends)?;
    let mut text = Vec::new(alloc);
    let title = title_told(&total);
    match write_ledger(&mut text, &ledger, found.cycle, found.card, &title) {
        Ok(()) => Ok(text),
        Err(_) => Err(AllocError),
    }
}

// The text for a figure on a wheel of the line that a cycle placed: the ledger of the account for a place, and the figure.
fn figure_text(
    alloc: Global,
    setup: &Setup,
    totals: &[TitledAccount],
    cards: &[Card],
    found: FoundCycle,
    place: usize,
    wheel: u8,
    ends: usize,
) -> Result<Vec<u8>, AllocError>
    requires few { length cards.now ≤ most_cards }
    requires accounts { AreAccounts totals.now }
    requires places { PlacesLine setup.now cards.now found }
    requires place { place < 32 }
    requires wheel { (1 ≤ wheel) × (wheel ≤ 120) }
    ensures { IfOk result (λ text.
        IsFigureText setup.now cards.now ends found wheel (find_total totals.now place) place text.items) }
{
    let mut text = place_text(alloc, setup, totals, cards, found, place, ends)?;
    let account = account_told(&find_total(totals, place), place);
    match write_printed(&mut text, setup, account, &found.line.text, wheel) {
        Ok(()) => Ok(text),
        Err(_) => Err(AllocError),
    }
}

// The text that there is no ledger to tell.
fn no_ledger_text(alloc: Global) -> Result<Vec<u8>, AllocError>
    ensures { IfOk result (λ text. text.items ≡ no_ledger_text) }
{
    let mut text = Vec::new(alloc);
    match write_no_ledger(&mut text) {
        Ok(()) => Ok(text),
        Err(_) => Err(AllocError),
    }
}

// The text for what is printed on a wheel of a line that was found: the counter group of a place, or none.
fn text_for(
    alloc: Global,
    setup: &Setup,
    totals: &[TitledAccount],
    cards: &[Card],
    found: FoundCycle,
    place: Option<usize>,
    wheel: u8,
    ends: usize,
) -> Result<Vec<u8>, AllocError>
    requires few { length cards.now ≤ most_cards }
    requires accounts { AreAccounts totals.now }
    requires places { PlacesLine setup.now cards.now found }
    requires place { IfSome place (λ place. place < 32) }
    requires wheel { (1 ≤ wheel) × (wheel ≤ 120) }
    ensures { IfOk result (λ text. IsTextFor setup.now cards.now ends found wheel totals.now place text.items) }
{
    match place {
        Some(place) => figure_text(alloc, setup, totals, cards, found, place, wheel, ends),
        None => no_ledger_text(alloc),
    }
}

// The cycle that places a line at a page and a line of it.
pub(crate) fn cycle_at(
    alloc: Global,
    setup: &Setup,
    cards: &[Card],
    page: u64,
    line: u32,
) -> Result<FoundCycle, Refusal>
    requires { length cards.now ≤ most_cards }
    ensures found { IfOk result (PlacesLine setup.now cards.now) }
    ensures page { IfOk result (λ found. found.line.page ≡ page) }
    ensures line { IfOk result (λ found. found.line.line ≡ line) }
    ensures there { result ≡ Err NoSuchWheel → ⊥ }
    ensures no_line { result ≡ Err NoSuchLine → PrintsNoneAt setup.now cards.now page line }
{
    match find_cycle(alloc, setup, cards, page, line) {
        Ok(Some(found)) => Ok(found),
        Ok(None) => Err(Refusal::NoSuchLine),
        Err(_) => Err(Refusal::Memory),
    }
}

// The ledger for a wheel, which is explained, of a line, by the totals that are known.
fn ledger_of(
    alloc: Global,
    setup: &Setup,
    totals: &[TitledAccount],
    cards: &[Card],
    page: u64,
    line: u32,
    wheel: u8,
    told: &Explanation,
    ends: usize,
) -> Result<Vec<u8>, Refusal>
    requires few { length cards.now ≤ most_cards }
    requires accounts { AreAccounts totals.now }
    requires wheel { (1 ≤ wheel) × (wheel ≤ 120) }
    requires explained { IsExplanation setup.now cards.now page line wheel told.now }
    ensures told { IfOk result (λ text. TellsLedger setup.now cards.now totals.now ends page line wheel text.items) }
    ensures there { result ≡ Err NoSuchWheel → ⊥ }
    ensures no_line { result ≡ Err NoSuchLine → PrintsNoneAt setup.now cards.now page line }
{
    let found = cycle_at(alloc, setup, cards, page, line)?;
    let printed = place_printed(told);
    match text_for(alloc, setup, totals, cards, found, printed, wheel, ends) {
        Ok(text) => Ok(text),
        Err(_) => Err(Refusal::Memory),
    }
}

/// The text of the ledger of the figure on a wheel of a line that a setup of the panel prints of a deck, of at most 999,999 cards, by the
/// totals of a chart that are known. The line is told by its page and its line on the page. Of a ledger with more than twice `ends`
/// entries the first and the last `ends` of them are told, and in one line what those between come to. If no way to the wheel begins at
/// a counter group, the text says so.
///
/// Refused with `NoSuchWheel` if the wheel isn't one of 1 to 120, else with `NoSuchLine` if no line stands there, and with `Memory` if
/// no memory is left.
pub fn tell_ledger(
    alloc: Global,
    setup: &Setup,
    totals: &[TitledAccount],
    cards: &[Card],
    page: u64,
    line: u32,
    wheel: u8,
    ends: usize,
) -> Result<Vec<u8>, Refusal>
    requires few { length cards.now ≤ most_cards }
    requires accounts { AreAccounts totals.now }
    ensures told { IfOk result (λ text. TellsLedger setup.now cards.now totals.now ends page line wheel text.items) }
    ensures no_wheel { (wheel < 1) ⊎ (120 < wheel) → result ≡ Err NoSuchWheel }
    ensures wheel { result ≡ Err NoSuchWheel → (wheel < 1) ⊎ (120 < wheel) }
    ensures no_line { result ≡ Err NoSuchLine → PrintsNoneAt setup.now cards.now page line }
{
    if wheel < 1 || 120 < wheel {
        return Err(Refusal::NoSuchWheel);
    }
    let told = explain(alloc, setup, cards, page, line, wheel)?;
    ledger_of(alloc, setup, totals, cards, page, line, wheel, &told, ends)
}
