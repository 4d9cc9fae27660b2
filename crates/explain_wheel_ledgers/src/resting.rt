//! What a wheel is printed of.

ghost use Rattle.std.specs.Prelude.{◌≡◌, ◌≤◌, ◌<◌, ◌+◌, ℕ, length, Err, IfOk, OnOk};
ghost use Rattle.card_code.specs.MostCards.{most_cards};
ghost use Rattle.explain_wheels.specs.ExplanationsWords.Explanations.{IsExplanation};
ghost use Rattle.explain_wheels.specs.ExplanationsWords.PlacedInRun.{PrintsNoneAt};
ghost use Rattle.explain_wheels.specs.declared.explanations.refusal.Refusal.TheVariants.{NoSuchLine, NoSuchWheel};
ghost use Rattle.explain_ledgers.specs.LedgersWords.Running.{PlacesLine};
ghost use Rattle.explain_wheel_ledgers.specs.Resting.{ArePlaceTexts, IsBasisText, TellsBasis, begins_at, is_printed_of};
ghost use Rattle.explain_wheel_ledgers.specs.Totals.{AreAccounts};

use crate::chart_totals::TitledAccount;
use crate::places::{GROUPS, place_of};
use crate::printed::group_of_way;
use crate::telling::{cycle_at, place_text};
use card_code::Card;
use explain_ledgers::ledgers::FoundCycle;
use explain_origins::origins_of;
use explain_wheels::explanations::{Explanation, Refusal};
use hubs::Hub;
use hubs::setups::Setup;
use std::alloc::{AllocError, Global};

// Whether a way begins at an exit of the group of a place.
fn begins_at(way: &Option<Vec<Hub>>, place: usize) -> bool
    ensures { result ≡ begins_at way.now place }
{
    let Some(group) = group_of_way(way) else {
        return false;
    };
    match place_of(group) {
        Some(own) => own == place,
        None => false,
    }
}

// Whether one of some ways begins at an exit of the group of a place.
pub(crate) fn is_printed_of(ways: &[Option<Vec<Hub>>], place: usize) -> bool
    ensures { result ≡ is_printed_of ways.now place }
{
    for way in ways {
        if begins_at(way, place) {
            return true;
        }
    }
    false
}

// Puts behind a text the ledger of a place if one of the ways to a wheel begins at an exit of its group.
fn add_ledger(
    alloc: Global,
    text: &mut Vec<u8>,
    setup: &Setup,
    totals: &[TitledAccount],
    cards: &[Card],
    found: FoundCycle,
    ways: &[Option<Vec<Hub>>],
    place: usize,
    ends: usize,
) -> Result<(), AllocError>
    requires few { length cards.now ≤ most_cards }
    requires accounts { AreAccounts totals.now }
    requires places { PlacesLine setup.now cards.now found }
    requires place { place < 32 }
    requires texts { ArePlaceTexts setup.now cards.now totals.now ends found ways.now place text.old.items }
    ensures { OnOk result (ArePlaceTexts setup.now cards.now totals.now ends found ways.now (place + 1) text.new.items) }
{
    if !is_printed_of(ways, place) {
        return Ok(());
    }
    let ledger = place_text(alloc, setup, totals, cards, found, place, ends)?;
    Ok(text.extend_from_slice(ledger.as_slice())?)
}

// The ledgers of all places at whose groups ways to a wheel begin, one behind the other.
fn texts_of(
    alloc: Global,
    setup: &Setup,
    totals: &[TitledAccount],
    cards: &[Card],
    found: FoundCycle,
    ways: &[Option<Vec<Hub>>],
    ends: usize,
) -> Result<Vec<u8>, AllocError>
    requires few { length cards.now ≤ most_cards }
    requires accounts { AreAccounts totals.now }
    requires places { PlacesLine setup.now cards.now found }
    ensures { IfOk result (λ text. ArePlaceTexts setup.now cards.now totals.now ends found ways.now 32 text.items) }
{
    let mut text = Vec::new(alloc);
    for place in 0..GROUPS {
        add_ledger(
            alloc, &mut text, setup, totals, cards, found, ways, place, ends,
        )?;
    }
    Ok(text)
}

// The ledgers of all places at whose groups ways to a wheel begin, and behind them the origins.
fn basis_text(
    alloc: Global,
    setup: &Setup,
    totals: &[TitledAccount],
    cards: &[Card],
    found: FoundCycle,
    ways: &[Option<Vec<Hub>>],
    ends: usize,
) -> Result<Vec<u8>, AllocError>
    requires few { length cards.now ≤ most_cards }
    requires accounts { AreAccounts totals.now }
    requires places { PlacesLine setup.now cards.now found }
    requires rows { length ways.now ≡ 12 }
    ensures { IfOk result (λ text. IsBasisText setup.now cards.now totals.now ends found ways.now text.items) }
{
    let mut text = texts_of(alloc, setup, totals, cards, found, ways, ends)?;
    let origins = origins_of(alloc, setup, cards, found, ways)?;
    text.extend_from_slice(origins.as_slice())?;
    Ok(text)
}

/// The text of all that a wheel of a line, which is explained so, is printed of. First come the ledgers of all counter groups at one of whose
/// exits a way of the explanation begins, in the order of the groups on the panel, as [`tell_ledger`] tells them, without the figure that was
/// printed; then the origins, as [`origins_of`] tells them.
///
/// Refused with `NoSuchLine` if no line stands there, and with `Memory` if no memory is left.
///
/// [`tell_ledger`]: crate::tell_ledger
/// [`origins_of`]: explain_origins::origins_of
pub fn tell_basis(
    alloc: Global,
    setup: &Setup,
    totals: &[TitledAccount],
    cards: &[Card],
    page: u64,
    line: u32,
    told: &Explanation,
    ends: usize,
) -> Result<Vec<u8>, Refusal>
    requires few { length cards.now ≤ most_cards }
    requires accounts { AreAccounts totals.now }
    requires explained { (wheel : ℕ) × IsExplanation setup.now cards.now page line wheel told.now }
    ensures told { IfOk result (λ text. TellsBasis setup.now cards.now totals.now ends page line told.now text.items) }
    ensures there { result ≡ Err NoSuchWheel → ⊥ }
    ensures no_line { result ≡ Err NoSuchLine → PrintsNoneAt setup.now cards.now page line }
{
    let found = cycle_at(alloc, setup, cards, page, line)?;
    let ways = told.rows.as_slice();
    match basis_text(alloc, setup, totals, cards, found, ways, ends) {
        Ok(text) => Ok(text),
        Err(_) => Err(Refusal::Memory),
    }
}
