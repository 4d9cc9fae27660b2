//! Running a deck of cards, from the cards to the bytes of the pages.

ghost use Rattle.std.specs.Prelude.{◌≡◌, ◌≢◌, ◌≤◌, ◌<◌, ◌+◌, length, IfOk, IfErr, OnOk, All, option_map};
ghost use Rattle.card_code.specs.MostCards.{most_cards};
ghost use Rattle.report_misfits.specs.ToldMisfits.{told};
ghost use Rattle.report_misfits.specs.Below.report_definition.Misfits.{first_of, misfits};
ghost use Rattle.report_misfits.specs.Below.report_definition.Totals.{Fits};
ghost use Rattle.compile407.specs.RunFaults.{HasRunFault, IsInvalidDeck, IsMisfit};
ghost use Rattle.fault_lines.specs.declared.faults.deck.RunFault.TheVariants as deck;
ghost use Rattle.report_misfits.specs.Below.report_definition.Report.{Report};
ghost use Rattle.compile407.specs.Runnable.{IsRunnable};
ghost use Rattle.chart_rules.specs.ValidCard.{IsValidCard};

use crate::compiled::Compiled;
use card_code::{Card, MOST_CARDS};
use chart_rules::{Chart, valid_card};
use fault_lines::faults::RunFault;
use machine::simulate;
use page_text::page_bytes;
use report_misfits::Misfit;
use std::alloc::Global;

// Refuses a deck with an invalid card, by the first such card.
fn check_cards(chart: &Chart, cards: &[Card]) -> Result<(), RunFault>
    requires { length cards.now ≤ most_cards }
    ensures valid { OnOk result (All (IsValidCard chart.now) cards.now) }
    ensures invalid { IfErr result (IsInvalidDeck chart.now cards.now) }
{
    for (place, card) in cards.iter().enumerate() {
        if let Err(fault) = valid_card(chart, card) {
            return Err(RunFault::of_card(fault, place as u32 + 1));
        }
    }
    Ok(())
}

/// The first total of a deck of at most 999,999 cards that has more digits than its total line has room for: by the last card of its
/// group, then by its level, the lowest first, then by its line of the chart. None where all totals fit.
pub fn first_misfit(compiled: &Compiled, cards: &[Card]) -> Option<Misfit>
    requires { length cards.now ≤ most_cards }
    ensures { option_map told result ≡ first_of (misfits compiled.now.chart.lines cards.now) }
{
    report_misfits::first_misfit(compiled.chart(), cards)
}

// Refuses a deck with a total that doesn't fit, by the first such total.
fn check_totals(compiled: &Compiled, cards: &[Card]) -> Result<(), RunFault>
    requires { length cards.now ≤ most_cards }
    ensures fits { OnOk result (Fits compiled.now.chart.lines cards.now) }
    ensures misfit { IfErr result (IsMisfit compiled.now.chart cards.now) }
{
    match first_misfit(compiled, cards) {
        Some(Misfit { level, name, card }) => Err(RunFault::DoesNotFit { level, name, card }),
        None => Ok(()),
    }
}

/// Whether a compiled chart can be run with a deck of cards.
///
/// # Errors
///
/// `TooManyCards` for more than 999,999 cards, else `NotText` or `NotAmount` for the first card that is not valid for
/// the chart, else `DoesNotFit` for the first total that does not fit.
pub fn check_run(compiled: &Compiled, cards: &[Card]) -> Result<(), RunFault>
    ensures served { OnOk result (IsRunnable compiled.now.chart cards.now) }
    ensures refused { IfErr result (HasRunFault compiled.now.chart cards.now) }
{
    if cards.len() > MOST_CARDS {
        return Err(RunFault::TooManyCards);
    }
    check_cards(compiled.chart(), cards)?;
    check_totals(compiled, cards)?;
    Ok(())
}

/// The report of a deck of cards: what the machine prints, wired as compiled, as the bytes of its pages.
///
/// # Errors
///
/// Those of [`check_run`]; `Memory` where a growth was refused.
pub fn run(alloc: Global, compiled: &Compiled, cards: &[Card]) -> Result<Vec<u8>, RunFault>
    ensures report { IfOk result (λ bytes. bytes.items ≡ Report compiled.now.chart cards.now) }
    ensures served { OnOk result (IsRunnable compiled.now.chart cards.now) }
    ensures refused { IfErr result (λ fault. fault ≢ deck.Memory → HasRunFault compiled.now.chart cards.now fault) }
{
    check_run(compiled, cards)?;
    let lines = simulate(alloc, compiled.setup(), cards)?;
    let long = compiled.setup().tape().lines();
    let bytes = page_bytes(alloc, &lines, u32::from(long))?;
    Ok(bytes)
}
