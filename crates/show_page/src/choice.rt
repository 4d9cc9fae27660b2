//! Which pages of a report are shown, and which cycles of the run.

ghost use Rattle.std.specs.Prelude.{◌≡◌, ◌≤◌, ◌<◌, ◌^◌, IfOk, length};
ghost use Rattle.card_code.specs.MostCards.{most_cards};
ghost use Rattle.show_page.specs.ShownLines.Shown.{AreShown};
ghost use Rattle.explain_words.specs.TracesWords.Parts.{IsTracePart};
ghost use Rattle.show_page.specs.Choice.{cycles_of_lines, cycles_shown, first_shown, last_card, pages_around, pages_shown};

use crate::shown_lines::{ShownLines, all_lines, lines_on_pages};
use card_code::Card;
use explain_wheels::explanations::FoundLine;
use explain_words::traces::{CycleChoice, TracePart, trace_part};
use hubs::setups::Setup;
use std::alloc::{AllocError, Global};

// The pages around one.
fn pages_around(alloc: Global, page: u32) -> Result<Vec<u64>, AllocError>
    ensures { IfOk result (λ pages. pages.items ≡ pages_around page) }
{
    let mut pages = Vec::new(alloc);
    if page <= 1 {
        pages.push(1)?;
        pages.push(2)?;
    } else {
        pages.push(u64::from(page) - 1)?;
        pages.push(u64::from(page))?;
        pages.push(u64::from(page) + 1)?;
    }
    Ok(pages)
}

// The lines on the pages around one.
fn lines_around(
    alloc: Global,
    setup: &Setup,
    cards: &[Card],
    page: u32,
) -> Result<ShownLines, AllocError>
    requires { length cards.now ≤ most_cards }
    ensures { IfOk result (λ shown. AreShown setup.now cards.now (pages_shown (Some page) (length cards.now)) shown.lines.items shown.found.items) }
{
    let pages = pages_around(alloc, page)?;
    lines_on_pages(alloc, setup, cards, &pages)
}

// The lines that are shown where no page is asked for.
fn front_lines(alloc: Global, setup: &Setup, cards: &[Card]) -> Result<ShownLines, AllocError>
    requires { length cards.now ≤ most_cards }
    ensures { IfOk result (λ shown. AreShown setup.now cards.now (pages_shown None (length cards.now)) shown.lines.items shown.found.items) }
{
    if cards.len() <= 200 {
        all_lines(alloc, setup, cards)
    } else {
        lines_on_pages(alloc, setup, cards, &[1, 2])
    }
}

// The lines that are shown.
pub(crate) fn lines_shown(
    alloc: Global,
    setup: &Setup,
    cards: &[Card],
    around: Option<u32>,
) -> Result<ShownLines, AllocError>
    requires { length cards.now ≤ most_cards }
    ensures { IfOk result (λ shown. AreShown setup.now cards.now (pages_shown around (length cards.now)) shown.lines.items shown.found.items) }
{
    match around {
        Some(page) => lines_around(alloc, setup, cards, page),
        None => front_lines(alloc, setup, cards),
    }
}

// The first page that is shown.
pub(crate) fn first_shown(around: Option<u32>) -> u64
    ensures page { result ≡ first_shown around }
    ensures from { 1 ≤ result }
{
    match around {
        Some(page) => u64::from(page).saturating_sub(1).max(1),
        None => 1,
    }
}

// The card of the last of some lines, or this one where there is none.
fn last_card(card: u32, found: &[FoundLine]) -> u32
    ensures { result ≡ last_card card found.now }
{
    let mut last = card;
    for one in found {
        last = one.cards;
    }
    last
}

// The cycles from those of the card before the first of some lines to those of the last one. (A trace has the headings before a card's
// cycle among the cycles of the card before.)
fn cycles_of_lines(found: &[FoundLine]) -> CycleChoice
    ensures { result ≡ cycles_of_lines found.now }
{
    match found.split_first() {
        Some((one, others)) => CycleChoice {
            first_card: one.cards.saturating_sub(1),
            last_card: last_card(one.cards, others),
            most: 1000,
        },
        None => CycleChoice {
            first_card: 1,
            last_card: 0,
            most: 0,
        },
    }
}

// The cycles that are shown of a run over a deck of so many cards, beside these lines.
pub(crate) fn cycles_shown(around: Option<u32>, cards: usize, found: &[FoundLine]) -> CycleChoice
    ensures { result ≡ cycles_shown around cards found.now }
{
    match around {
        Some(_) => cycles_of_lines(found),
        None => CycleChoice {
            first_card: 0,
            last_card: u32::MAX,
            most: if cards <= 200 { usize::MAX } else { 200 },
        },
    }
}

// The part of the trace that is shown.
pub(crate) fn traced(
    alloc: Global,
    setup: &Setup,
    cards: &[Card],
    choice: CycleChoice,
) -> Result<TracePart, AllocError>
    requires { length cards.now ≤ most_cards }
    ensures part { IfOk result (IsTracePart setup.now cards.now choice) }
    ensures few { IfOk result (λ part. part.before < 2 ^ 32) }
{
    match trace_part(alloc, setup, cards, choice) {
        Ok(part) => Ok(part),
        Err(_) => Err(AllocError),
    }
}
