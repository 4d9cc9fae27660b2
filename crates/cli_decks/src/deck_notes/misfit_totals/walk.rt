//! The groups of a deck, where they end.

ghost use Rattle.std.specs.Prelude.{◌≡◌, ◌+◌, ◌<◌, ◌≤◌, ◌++◌, ℕ, List, IfOk, OnOk, length, slice_get, slice_range};
ghost use Rattle.card_code.specs.MostCards.{most_cards};
ghost use Rattle.cli_decks.specs.DeckNotes.MisfitTotals.HelperStarts.{Walks, ended_at, start_of};
ghost use Rattle.cli_decks.specs.DeckNotes.MisfitTotals.Large as told;
ghost use Rattle.report_definition.specs.Breaks.{ended_after};

use crate::deck_notes::key_returns::highest_break;
use crate::deck_notes::misfit_totals::words::write_in;
use card_code::Card;
use chart_rules::Chart;
use std::alloc::{AllocError, Global};
use std::io;

// Where the unfinished group of each level begins among the cards of a deck, from 0.
#[derive(Clone, Copy, Debug)]
pub(crate) struct Starts {
    minor: usize,
    intermediate: usize,
    major: usize,
    deck: usize,
}

impl Starts {
    // Where the unfinished group of a level begins.
    fn of(&self, level: u8) -> usize
        ensures { result ≡ start_of self.now level }
    {
        match level {
            1 => self.minor,
            2 => self.intermediate,
            3 => self.major,
            _ => self.deck,
        }
    }

    // Where they begin once the groups of the levels up to a given one have ended before a place.
    fn after(&self, ended: u8, place: usize) -> Starts
        ensures { (level : ℕ) → 1 ≤ level → level ≤ 4 → start_of result level ≡ ended_at ended place level (start_of self.now level) }
    {
        Starts {
            minor: start_after(ended, place, 1, self.minor),
            intermediate: start_after(ended, place, 2, self.intermediate),
            major: start_after(ended, place, 3, self.major),
            deck: start_after(ended, place, 4, self.deck),
        }
    }
}

// Where the unfinished group of a level begins, once those of the levels up to a given one have ended before a place.
fn start_after(ended: u8, place: usize, level: u8, start: usize) -> usize
    ensures { result ≡ ended_at ended place level start }
{
    if level <= ended { place } else { start }
}

// Writes the totals over the groups of the levels up to a given one that end with the card at a place.
fn write_to(
    text: &mut Vec<u8>,
    chart: &Chart,
    cards: &[Card],
    starts: &Starts,
    place: usize,
    ended: u8,
) -> io::Result<()>
    requires few { length cards.now ≤ most_cards }
    requires there { place < length cards.now }
    requires levels { ended ≤ 4 }
    requires starts { (level : ℕ) → 1 ≤ level → level ≤ 4 → start_of starts.now level ≤ place }
    ensures { OnOk result (text.new.items ≡ text.old.items
        ++ told.large_to chart.now.lines (place + 1) ended (λ level. slice_range cards.now (start_of starts.now level) (place + 1))) }
{
    for below in 0..ended {
        let group = &cards[starts.of(below + 1)..place + 1];
        write_in(text, chart, below + 1, place as u32 + 1, group)?;
    }
    Ok(())
}

// The card at a place, if there is one.
fn card_at(cards: &[Card], place: usize) -> Option<Card>
    ensures { result ≡ slice_get cards.now place }
{
    cards.get(place).copied()
}

// The highest level whose group ends after a card, given the next: that of the break between them, and 4 after the last card.
fn ended_after(
    alloc: Global,
    chart: &Chart,
    card: &Card,
    next: &Option<Card>,
) -> Result<u8, AllocError>
    ensures value { IfOk result (λ ended. ended ≡ ended_after chart.now.lines card.now next.now) }
    ensures levels { IfOk result (λ ended. ended ≤ 4) }
{
    match next {
        Some(next) => highest_break(alloc, chart, card, next),
        None => Ok(4),
    }
}

// Writes what is told of the groups that end with the card at a place, and answers where the unfinished ones begin behind it.
fn walk(
    alloc: Global,
    text: &mut Vec<u8>,
    chart: &Chart,
    cards: &[Card],
    starts: &Starts,
    place: usize,
) -> io::Result<Starts>
    requires few { length cards.now ≤ most_cards }
    requires there { place < length cards.now }
    requires before { (level : ℕ) → 1 ≤ level → level ≤ 4 → start_of starts.now level ≤ place }
    ensures { IfOk result (λ after. (old : List ℕ) → Walks chart.now.lines cards.now place starts.now old text.old.items
        → Walks chart.now.lines cards.now (place + 1) after old text.new.items) }
{
    let card = &cards[place];
    let next = card_at(cards, place + 1);
    let ended = ended_after(alloc, chart, card, &next)?;
    write_to(text, chart, cards, starts, place, ended)?;
    Ok(starts.after(ended, place + 1))
}

/// Writes behind a text the totals of a deck of at most 999,999 cards that have more digits than their lines have room for, a line for each: by the
/// last card of its group, then by its level, the lowest first, then by its line of the chart. Nothing where all totals fit.
///
/// # Errors
///
/// `OutOfMemory` alone. The text may then have gained a part of this.
pub fn write_large_totals(
    alloc: Global,
    text: &mut Vec<u8>,
    chart: &Chart,
    cards: &[Card],
) -> io::Result<()>
    requires { length cards.now ≤ most_cards }
    ensures { OnOk result (text.new.items ≡ text.old.items ++ told.large_told chart.now.lines cards.now) }
{
    let mut starts = Starts {
        minor: 0,
        intermediate: 0,
        major: 0,
        deck: 0,
    };
    for place in 0..cards.len() {
        starts = walk(alloc, text, chart, cards, &starts, place)?;
    }
    Ok(())
}
