//! Which cards and cycles have an element.

ghost use Rattle.std.specs.Prelude.{◌≡◌, ◌≤◌, ◌<◌, ◌+◌, ◌-◌, ◌^◌, drop, length};
ghost use Rattle.show_page.specs.Shown.{cards_from, cards_shown, first_card, part_cycles, shown_cards, shown_run};

use card_code::Card;
use explain_words::traces::{CycleChoice, TracePart};
use show_links::{Shown, ShownRun};
use show_sections::cycle_sections::count_cycles;

// The first card that is shown.
fn first_card(choice: CycleChoice) -> usize
    ensures value { result ≡ first_card choice }
    ensures from { 1 ≤ result }
    ensures few { result < 2 ^ 32 }
{
    choice.first_card.max(1) as usize
}

// The cards of a deck of so many that are shown, by the choice of the cycles.
fn cards_shown(choice: CycleChoice, cards: usize) -> Shown
    ensures value { result ≡ cards_shown choice cards }
    ensures from { 1 ≤ result.first }
    ensures within { result.last ≤ cards }
    ensures few { result.first < 2 ^ 32 }
    ensures count { result.last ≤ result.first + 199 }
{
    let first = first_card(choice);
    Shown {
        first,
        last: cards.min(choice.last_card as usize).min(first + 199),
    }
}

// The cycles of a part of the trace.
fn part_cycles(part: &TracePart) -> Shown
    requires { part.now.before < 2 ^ 32 }
    ensures { result ≡ part_cycles part.now }
{
    Shown {
        first: part.before + 1,
        last: part.before + count_cycles(&part.text),
    }
}

// What is shown of the run over a deck of so many cards.
pub(crate) fn shown_run(choice: CycleChoice, cards: usize, part: &TracePart) -> ShownRun
    requires { part.now.before < 2 ^ 32 }
    ensures value { result ≡ shown_run choice cards part.now }
    ensures cards { result.cards.first < 2 ^ 32 }
    ensures cycles { result.cycles.first ≤ 2 ^ 32 }
{
    ShownRun {
        cards: cards_shown(choice, cards),
        cycles: part_cycles(part),
    }
}

// What stands behind so many cards.
fn behind(cards: &[Card], count: usize) -> &[Card]
    ensures { result.now ≡ drop count cards.now }
{
    if count < cards.len() {
        &cards[count..]
    } else {
        &[]
    }
}

// The cards of a deck from one to another.
fn cards_from(shown: Shown, cards: &[Card]) -> &[Card]
    requires from { 1 ≤ shown.first }
    requires within { shown.last ≤ length cards.now }
    requires count { shown.last ≤ shown.first + 199 }
    ensures value { result.now ≡ cards_from shown cards.now }
    ensures few { length result.now ≤ 200 }
{
    behind(&cards[..shown.last], shown.first - 1)
}

// The cards of a deck that are shown.
pub(crate) fn shown_cards(choice: CycleChoice, cards: &[Card]) -> &[Card]
    ensures value { result.now ≡ shown_cards choice cards.now }
    ensures few { length result.now ≤ 200 }
{
    cards_from(cards_shown(choice, cards.len()), cards)
}
