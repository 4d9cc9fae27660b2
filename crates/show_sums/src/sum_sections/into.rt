//! Into which sums something went.

ghost use Rattle.std.specs.Prelude.{◌≡◌, ◌++◌, OnOk};
ghost use Rattle.std.specs.String.{string_bytes};
ghost use Rattle.show_sums.specs.SumSections.Into.{card_link, card_sums, has_card, has_entry, higher_link, higher_sums, into_words, is_card_cycle, is_of_card, sum_link, takes, takes_card};

use crate::sum_sections::labels::write_label;
use crate::sum_sections::sums::PageSum;
use crate::sum_sections::targets::same_amount;
use explain_ledgers::ledgers::Entry;
use explain_wheel_ledgers::TitledAccount;
use net::Cycle;
use show_links::sum_places::write_sum_open;
use std::alloc::AllocError;

// Whether one of some entries is that of the cycle behind so many others.
fn has_entry(entries: &[Entry], passed: u64) -> bool
    ensures { result ≡ has_entry entries.now passed }
{
    for entry in entries {
        if entry.passed == passed {
            return true;
        }
    }
    false
}

// Whether something was added to a sum, or subtracted, in the cycle behind so many others.
fn takes(sum: &PageSum, passed: u64) -> bool
    ensures { result ≡ takes sum.now passed }
{
    has_entry(sum.ledger.first(), passed) || has_entry(sum.ledger.last(), passed)
}

// How something came into a sum.
fn write_into(text: &mut String, total: &Option<TitledAccount>) -> Result<(), AllocError>
    ensures { OnOk result (string_bytes text.new ≡ string_bytes text.old ++ into_words total.now) }
{
    match total {
        Some(_) => text.push_str("<p>It went into "),
        None => text.push_str("<p>It was counted in "),
    }
}

#[tactic(auto, unfolding(crate::specs::SumSections::Into::sum_link))]
// A link to a sum, by what it is called.
fn write_sum_link(text: &mut String, sum: &PageSum) -> Result<(), AllocError>
    ensures { OnOk result (string_bytes text.new ≡ string_bytes text.old ++ sum_link sum.now) }
{
    write_into(text, &sum.total)?;
    write_sum_open(text, sum.at)?;
    write_label(text, sum)?;
    text.push_str("</a>.</p>\n")
}

// Whether a cycle is a card cycle.
fn is_card_cycle(cycle: Cycle) -> bool
    ensures { result ≡ is_card_cycle cycle }
{
    match cycle {
        Cycle::Card => true,
        Cycle::RunIn | Cycle::Prog(_, _) | Cycle::Head(_) => false,
    }
}

// Whether an entry is of the card cycle of a card.
fn is_of_card(entry: &Entry, card: usize) -> bool
    ensures { result ≡ is_of_card entry.now card }
{
    is_card_cycle(entry.cycle) && entry.card as usize == card
}

// Whether one of some entries is.
fn has_card(entries: &[Entry], card: usize) -> bool
    ensures { result ≡ has_card entries.now card }
{
    for entry in entries {
        if is_of_card(entry, card) {
            return true;
        }
    }
    false
}

// Whether a card was added to a sum, or subtracted, by an entry that is told.
fn takes_card(sum: &PageSum, card: usize) -> bool
    ensures { result ≡ takes_card sum.now card }
{
    has_card(sum.ledger.first(), card) || has_card(sum.ledger.last(), card)
}

// The link to a sum, if a card went into it.
fn write_card_link(text: &mut String, card: usize, sum: &PageSum) -> Result<(), AllocError>
    ensures { OnOk result (string_bytes text.new ≡ string_bytes text.old ++ card_link card sum.now) }
{
    if takes_card(sum, card) {
        write_sum_link(text, sum)
    } else {
        Ok(())
    }
}

#[tactic(auto, using(show_drawings::proofs::MarkupWords::Pieces::one_more))]
/// Writes into which sums the card with a number went, counted from 1, by the entries of sums that are told: a line with a link for each. Fails
/// only if no memory is left; a front of the lines may then have been written.
pub fn write_card_sums(text: &mut String, sums: &[PageSum], card: usize) -> Result<(), AllocError>
    ensures { OnOk result (string_bytes text.new ≡ string_bytes text.old ++ card_sums sums.now card) }
{
    for sum in sums {
        write_card_link(text, card, sum)?;
    }
    Ok(())
}

// The link to a sum, if it takes what another one prints, and is of the same amount.
fn write_higher_link(text: &mut String, lower: &PageSum, sum: &PageSum) -> Result<(), AllocError>
    ensures { OnOk result (string_bytes text.new ≡ string_bytes text.old ++ higher_link lower.now sum.now) }
{
    if takes(sum, lower.found.passed) && same_amount(&sum.total, &lower.total) {
        write_sum_link(text, sum)
    } else {
        Ok(())
    }
}

#[tactic(auto, using(show_drawings::proofs::MarkupWords::Pieces::one_more))]
// Into which sums a total went.
pub(crate) fn write_higher_sums(
    text: &mut String,
    sums: &[PageSum],
    lower: &PageSum,
) -> Result<(), AllocError>
    ensures { OnOk result (string_bytes text.new ≡ string_bytes text.old ++ higher_sums sums.now lower.now) }
{
    for sum in sums {
        write_higher_link(text, lower, sum)?;
    }
    Ok(())
}
