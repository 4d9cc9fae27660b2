//! To what an entry of a sum links.

ghost use Rattle.std.specs.Prelude.{◌≡◌, ◌++◌, OnOk};
ghost use Rattle.std.specs.String.{string_bytes};
ghost use Rattle.show_sums.specs.SumSections.Targets.{lower_sum, same_amount, target_close, target_of, target_open};

use crate::sum_sections::sums::PageSum;
use explain_ledgers::ledgers::Entry;
use explain_wheel_ledgers::TitledAccount;
use net::Cycle;
use show_links::sum_places::{SumPlace, write_sum_open};
use show_links::{Shown, write_card_open};
use std::alloc::AllocError;

/// To what an entry of a sum links.
#[derive(Clone, Copy, Debug)]
pub enum Target {
    /// To nothing that has an element.
    Nothing,
    /// To a card.
    Card {
        /// Its number.
        number: usize,
    },
    /// To the sum of a lower total.
    Sum {
        /// Where it stands.
        at: SumPlace,
    },
}

// Whether two totals are of one amount of a chart.
pub(crate) fn same_amount(one: &Option<TitledAccount>, other: &Option<TitledAccount>) -> bool
    ensures { result ≡ same_amount one.now other.now }
{
    match (one, other) {
        (Some(one), Some(other)) => one.title.name.is(other.title.name),
        _ => false,
    }
}

// The first of some sums that was printed in the cycle behind so many others, and is of this amount.
fn lower_sum(sums: &[PageSum], passed: u64, total: &Option<TitledAccount>) -> Target
    ensures { result ≡ lower_sum sums.now passed total.now }
{
    for sum in sums {
        if sum.found.passed == passed && same_amount(&sum.total, total) {
            return Target::Sum { at: sum.at };
        }
    }
    Target::Nothing
}

// To what an entry of a sum links: of a card cycle to its card, of a program cycle to the lower total.
pub(crate) fn target_of(
    shown: Shown,
    sums: &[PageSum],
    total: &Option<TitledAccount>,
    entry: &Entry,
) -> Target
    ensures { result ≡ target_of shown sums.now total.now entry.now }
{
    match entry.cycle {
        Cycle::Card if shown.has(entry.card as usize) => Target::Card {
            number: entry.card as usize,
        },
        Cycle::Prog(_, _) => lower_sum(sums, entry.passed, total),
        Cycle::Card | Cycle::RunIn | Cycle::Head(_) => Target::Nothing,
    }
}

// The front of a link.
pub(crate) fn write_target_open(text: &mut String, target: Target) -> Result<(), AllocError>
    ensures { OnOk result (string_bytes text.new ≡ string_bytes text.old ++ target_open target) }
{
    match target {
        Target::Nothing => Ok(()),
        Target::Card { number } => write_card_open(text, number),
        Target::Sum { at } => write_sum_open(text, at),
    }
}

// The end of a link.
pub(crate) fn write_target_close(text: &mut String, target: Target) -> Result<(), AllocError>
    ensures { OnOk result (string_bytes text.new ≡ string_bytes text.old ++ target_close target) }
{
    match target {
        Target::Nothing => Ok(()),
        Target::Card { number: _ } | Target::Sum { at: _ } => text.push_str("</a>"),
    }
}
