//! What a wheel is printed of, down to the holes.

ghost use Rattle.std.specs.Prelude.{◌≡◌, ◌≤◌, ◌<◌, ◌++◌, ℕ, All, Err, IfOk, OnOk, length, map};
ghost use Rattle.card_code.specs.MostCards.{most_cards};
ghost use Rattle.explain_wheels.specs.ExplanationsWords.Explanations.{IsExplanation};
ghost use Rattle.explain_wheels.specs.ExplanationsWords.PlacedInRun.{PrintsNoneAt};
ghost use Rattle.explain_wheels.specs.declared.explanations.refusal.Refusal.TheVariants.{NoSuchLine, NoSuchWheel};
ghost use Rattle.explain_wheel_ledgers.specs.LedgerHoles.Down.{IsLedgerDown};
ghost use Rattle.explain_ledgers.specs.LedgersWords.Accounts.{IsAccount};
ghost use Rattle.explain_ledgers.specs.LedgersWords.Running.{HasCycle, PlacesLine};
ghost use Rattle.explain_wheel_ledgers.specs.Lower.{IsAsked};
ghost use Rattle.explain_wheel_ledgers.specs.ToldLedgers.{words_told};
ghost use Rattle.explain_wheel_ledgers.specs.Totals.{AreAccounts};
ghost use Rattle.explain_wheel_ledgers.specs.Whole.{AreDown, IsWholeText, TellsAll, TellsWhole, asked_at, asked_of, cycle_found, is_among, is_same, ledger_asked, lower_told, with_lower, with_one};

use crate::chart_totals::{TitledAccount, find_total};
use crate::ledger_holes::tell_ledger_down;
use crate::lower::{AskedGroup, add_lower_of_all};
use crate::places::GROUPS;
use crate::resting::is_printed_of;
use crate::telling::{account_told, cycle_at, title_told};
use crate::texts::put_together;
use card_code::Card;
use explain_ledgers::ledgers::{
    AskedLedger, FoundCycle, Ledger, ReadOuts, ledgers_before, read_outs_before,
};
use explain_origins::{PassedCycle, origins_of};
use explain_wheels::explanations::{Explanation, Refusal};
use hubs::Hub;
use hubs::setups::Setup;
use std::alloc::{AllocError, Global};

// The ledger that is asked for of a group: that of the total that it serves, or else that of the one group.
fn ledger_asked(totals: &[TitledAccount], asked: AskedGroup) -> AskedLedger
    requires { AreAccounts totals.now }
    ensures { result ≡ ledger_asked totals.now asked }
{
    AskedLedger {
        account: account_told(&find_total(totals, asked.place), asked.place),
        passed: asked.before.passed,
    }
}

// Those that are asked for of some groups.
fn ledgers_asked(
    alloc: Global,
    totals: &[TitledAccount],
    asked: &[AskedGroup],
) -> Result<Vec<AskedLedger>, AllocError>
    requires { AreAccounts totals.now }
    ensures { IfOk result (λ ledgers. ledgers.items ≡ map (ledger_asked totals.now) asked.now) }
{
    let mut ledgers = Vec::new(alloc);
    for one in asked {
        ledgers.push(ledger_asked(totals, *one))?;
    }
    Ok(ledgers)
}

// The text of a ledger down to the holes.
fn text_down(
    alloc: Global,
    setup: &Setup,
    cards: &[Card],
    ledger: &Ledger,
    before: PassedCycle,
    total: &Option<TitledAccount>,
) -> Result<Vec<u8>, AllocError>
    requires few { length cards.now ≤ most_cards }
    requires account { IsAccount ledger.now.account }
    requires first { All (λ entry. HasCycle setup.now cards.now entry.passed) ledger.now.first }
    requires last { All (λ entry. HasCycle setup.now cards.now entry.passed) ledger.now.last }
    ensures { IfOk result (λ text. IsLedgerDown setup.now cards.now ledger.now before.cycle before.card (words_told total.now) text.items) }
{
    let title = title_told(total);
    tell_ledger_down(
        alloc,
        setup,
        cards,
        ledger,
        before.cycle,
        before.card,
        &title,
    )
}

// Asks for the ledgers to which the entries that are told of a ledger lead.
fn add_lower_told(
    lower: &mut Vec<AskedGroup>,
    setup: &Setup,
    totals: &[TitledAccount],
    read_outs: &[ReadOuts],
    ledger: &Ledger,
) -> Result<(), AllocError>
    requires accounts { AreAccounts totals.now }
    requires account { IsAccount ledger.now.account }
    requires first { All (λ entry. entry.passed < length read_outs.now) ledger.now.first }
    requires last { All (λ entry. entry.passed < length read_outs.now) ledger.now.last }
    ensures { OnOk result (lower.new.items ≡ lower.old.items ++ lower_told setup.now totals.now read_outs.now ledger.now) }
{
    let account = ledger.account();
    add_lower_of_all(lower, setup, totals, read_outs, account, ledger.first())?;
    add_lower_of_all(lower, setup, totals, read_outs, account, ledger.last())?;
    Ok(())
}

// Puts the ledgers of groups that are asked for behind a text, and answers those to which they lead. The deck runs once for all, and once for the ways of each.
fn tell_all(
    alloc: Global,
    text: &mut Vec<u8>,
    setup: &Setup,
    totals: &[TitledAccount],
    cards: &[Card],
    read_outs: &[ReadOuts],
    asked: &[AskedGroup],
    ends: usize,
) -> Result<Vec<AskedGroup>, AllocError>
    requires few { length cards.now ≤ most_cards }
    requires accounts { AreAccounts totals.now }
    requires asked { All (IsAsked setup.now cards.now (length read_outs.now)) asked.now }
    ensures told { IfOk result (λ lower.
        TellsAll setup.now cards.now totals.now read_outs.now ends asked.now text.old.items text.new.items lower.items) }
    ensures asked { IfOk result (λ lower. All (IsAsked setup.now cards.now (length read_outs.now)) lower.items) }
{
    let wanted = ledgers_asked(alloc, totals, asked)?;
    let kept = ledgers_before(alloc, setup, cards, wanted.as_slice(), ends)?;
    let ledgers = kept.as_slice();
    let mut lower = Vec::new(alloc);
    for place in 0..asked.len() {
        let one = asked[place];
        let ledger = &ledgers[place].ledger;
        let total = find_total(totals, one.place);
        let down = text_down(alloc, setup, cards, ledger, one.before, &total)?;
        text.extend_from_slice(down.as_slice())?;
        add_lower_told(&mut lower, setup, totals, read_outs, ledger)?;
    }
    Ok(lower)
}

// Whether two ledgers that are asked for are one: of the same group before the same cycle.
fn is_same(one: &AskedGroup, other: AskedGroup) -> bool
    ensures { result ≡ is_same one.now other }
{
    one.place == other.place && one.before.passed == other.before.passed
}

// Whether one of some is this one.
fn is_among(asked: &[AskedGroup], one: AskedGroup) -> bool
    ensures { result ≡ is_among asked.now one }
{
    for other in asked {
        if is_same(other, one) {
            return true;
        }
    }
    false
}

// Asks for a ledger behind others, unless it is asked for already.
fn ask_for(asked: &mut Vec<AskedGroup>, one: AskedGroup) -> Result<(), AllocError>
    ensures { OnOk result (asked.new.items ≡ with_one one asked.old.items) }
{
    if !is_among(asked.as_slice(), one) {
        asked.push(one)?;
    }
    Ok(())
}

// Asks for some.
fn ask_for_all(asked: &mut Vec<AskedGroup>, lower: &[AskedGroup]) -> Result<(), AllocError>
    ensures { OnOk result (asked.new.items ≡ with_lower lower.now asked.old.items) }
{
    for one in lower {
        ask_for(asked, *one)?;
    }
    Ok(())
}

// The ledgers that are asked for, then those to which they lead and that weren't asked for yet, and so on. Each leads to cycles before its
// own, so that there is an end.
fn all_told(
    alloc: Global,
    setup: &Setup,
    totals: &[TitledAccount],
    cards: &[Card],
    read_outs: &[ReadOuts],
    first: Vec<AskedGroup>,
    ends: usize,
) -> Result<Vec<u8>, AllocError>
    requires few { length cards.now ≤ most_cards }
    requires accounts { AreAccounts totals.now }
    requires asked { All (IsAsked setup.now cards.now (length read_outs.now)) first.items }
    ensures { IfOk result (λ text. AreDown setup.now cards.now totals.now read_outs.now ends first.items text.items) }
{
    let mut text = Vec::new(alloc);
    let mut asked = first;
    let mut told = 0;
    for _depth in 0..usize::MAX {
        let known = asked.len();
        if told == known {
            return Ok(text);
        }
        let next = &asked.as_slice()[told..];
        let lower = tell_all(
            alloc, &mut text, setup, totals, cards, read_outs, next, ends,
        )?;
        ask_for_all(&mut asked, lower.as_slice())?;
        told = known;
    }
    Ok(text)
}

// Asks for the ledger of a place before a cycle, if a way begins at an exit of its group.
fn add_asked(
    asked: &mut Vec<AskedGroup>,
    ways: &[Option<Vec<Hub>>],
    before: PassedCycle,
    place: usize,
) -> Result<(), AllocError>
    ensures { OnOk result (asked.new.items ≡ asked.old.items ++ asked_at ways.now before place) }
{
    if is_printed_of(ways, place) {
        asked.push(AskedGroup { place, before })?;
    }
    Ok(())
}

// The ledgers of all groups at which ways begin.
fn asked_of(
    alloc: Global,
    ways: &[Option<Vec<Hub>>],
    before: PassedCycle,
) -> Result<Vec<AskedGroup>, AllocError>
    ensures { IfOk result (λ asked. asked.items ≡ asked_of ways.now before) }
{
    let mut asked = Vec::new(alloc);
    for place in 0..GROUPS {
        add_asked(&mut asked, ways, before, place)?;
    }
    Ok(asked)
}

// The cycle that placed a line.
fn cycle_found(found: FoundCycle) -> PassedCycle
    ensures { result ≡ cycle_found found }
{
    PassedCycle {
        cycle: found.cycle,
        card: found.card,
        passed: found.passed,
    }
}

// What the ways to a wheel begin at, down to the holes.
fn whole_text(
    alloc: Global,
    setup: &Setup,
    totals: &[TitledAccount],
    cards: &[Card],
    found: FoundCycle,
    ways: &[Option<Vec<Hub>>],
    ends: usize,
) -> Result<Vec<u8>, AllocError>
    requires few { length cards.now ≤ most_cards }
    requires accounts { AreAccounts totals.now }
    requires places { PlacesLine setup.now cards.now found }
    requires rows { length ways.now ≡ 12 }
    ensures { IfOk result (λ text. IsWholeText setup.now cards.now totals.now ends found ways.now text.items) }
{
    let asked = asked_of(alloc, ways, cycle_found(found))?;
    let read_outs = read_outs_before(alloc, setup, cards, found.passed)?;
    let read_outs = read_outs.as_slice();
    let ledgers = all_told(alloc, setup, totals, cards, read_outs, asked, ends)?;
    let origins = origins_of(alloc, setup, cards, found, ways)?;
    let text = put_together(alloc, ledgers.as_slice(), origins.as_slice())?;
    Ok(text)
}

/// The text of all that a wheel of a line, which is explained so, is printed of, down to the holes. First come the ledgers of all counter groups
/// at one of whose exits a way of the explanation begins, then those of the groups whose numbers came to these, and so on, each once; below each
/// entry of a card cycle stands by which hole each digit came in. Then come the origins, as [`origins_of`] tells them.
///
/// Refused with `NoSuchLine` if no line stands there, and with `Memory` if no memory is left.
///
/// [`origins_of`]: explain_origins::origins_of
pub fn tell_whole(
    alloc: Global,
    setup: &Setup,
    totals: &[TitledAccount],
    cards: &[Card],
    page: u64,
    line: u32,
    told: &Explanation,
    ends: usize,
) -> Result<Vec<u8>, Refusal>
    requires few { length cards.now ≤ most_cards }
    requires accounts { AreAccounts totals.now }
    requires explained { (wheel : ℕ) × IsExplanation setup.now cards.now page line wheel told.now }
    ensures told { IfOk result (λ text. TellsWhole setup.now cards.now totals.now ends page line told.now text.items) }
    ensures there { result ≡ Err NoSuchWheel → ⊥ }
    ensures no_line { result ≡ Err NoSuchLine → PrintsNoneAt setup.now cards.now page line }
{
    let found = cycle_at(alloc, setup, cards, page, line)?;
    let ways = told.rows.as_slice();
    match whole_text(alloc, setup, totals, cards, found, ways, ends) {
        Ok(text) => Ok(text),
        Err(_) => Err(Refusal::Memory),
    }
}
