//! What became of a card in the run: in which cycles it stood at the reading stations, and into which sums it went.

ghost use Rattle.std.specs.Prelude.{◌≡◌, ◌≤◌, ◌<◌, ◌+◌, ◌^◌, ◌++◌, OnOk};
ghost use Rattle.std.specs.String.{string_bytes};
ghost use Rattle.card_code.specs.Lines.{lines_of};
ghost use Rattle.show_sums.specs.CardSections.Readings.{begins_with, card_run, card_stations, cycle_text, first_open, first_reading, first_text, left_behind, nth_line, second_open, second_reading, second_text, stations_text};

use crate::sum_sections::{PageSum, write_card_sums};
use card_code::next_line;
use show_links::{Shown, ShownRun, write_cycle_word};
use std::alloc::AllocError;

// Whether a line begins with a letter.
fn begins_with(letter: u8, line: &[u8]) -> bool
    ensures { result ≡ begins_with letter line.now }
{
    match line.first() {
        Some(first) => *first == letter,
        None => false,
    }
}

// How many lines with a letter are left to pass, behind a line that has it or not.
fn left_behind(has_it: bool, left: usize) -> usize
    ensures { result ≡ left_behind has_it left }
{
    if has_it { left.saturating_sub(1) } else { left }
}

// The number of a line of a trace, of which the first line has the number `first`, of those that begin with a letter; 0 where there are not
// so many.
fn nth_line(letter: u8, nth: usize, first: usize, trace: &[u8]) -> usize
    requires { first ≤ 2 ^ 32 }
    ensures { result ≡ nth_line letter nth first (lines_of trace.now) }
{
    let mut left = nth;
    let mut number = first;
    let mut rest = trace;
    while let Some((line, after)) = next_line(rest) {
        let has_it = begins_with(letter, line);
        if has_it && left == 1 {
            return number;
        }
        left = left_behind(has_it, left);
        number += 1;
        rest = after;
    }
    0
}

#[tactic(auto, unfolding(crate::specs::CardSections::Readings::second_reading))]
// In which cycle a card stood at second reading.
fn second_reading(shown: ShownRun, card: usize, trace: &[u8]) -> usize
    requires few { card + 1 < 2 ^ 64 }
    requires cycles { shown.cycles.first ≤ 2 ^ 32 }
    ensures { result ≡ second_reading shown card trace.now }
{
    let nth = (card + 1).saturating_sub(shown.cards.first);
    nth_line(b'C', nth, shown.cycles.first, trace)
}

#[tactic(auto, unfolding(crate::specs::CardSections::Readings::first_reading))]
// In which cycle a card stood at first reading.
fn first_reading(shown: ShownRun, card: usize, trace: &[u8]) -> usize
    requires { shown.cycles.first ≤ 2 ^ 32 }
    ensures { result ≡ first_reading shown card trace.now }
{
    if card == 1 {
        nth_line(b'R', 1, shown.cycles.first, trace)
    } else {
        let nth = card.saturating_sub(shown.cards.first);
        nth_line(b'C', nth, shown.cycles.first, trace)
    }
}

// A cycle, as a link if it is shown; 0 is one that isn't shown.
fn write_cycle(text: &mut String, shown: Shown, cycle: usize) -> Result<(), AllocError>
    ensures { OnOk result (string_bytes text.new ≡ string_bytes text.old ++ cycle_text shown cycle) }
{
    if cycle == 0 {
        text.push_str("a cycle that isn't shown")
    } else {
        write_cycle_word(text, shown, cycle)
    }
}

#[tactic(auto, unfolding(crate::specs::CardSections::Readings::first_open))]
// What stands before the first cycle.
fn write_first_open(text: &mut String) -> Result<(), AllocError>
    ensures { OnOk result (string_bytes text.new ≡ string_bytes text.old ++ first_open) }
{
    text.push_str("<p>The card stood at first reading in ")
}

#[tactic(auto, unfolding(crate::specs::CardSections::Readings::first_text))]
// The cycle in which a card stood at first reading.
fn write_first(text: &mut String, shown: Shown, first: usize) -> Result<(), AllocError>
    ensures { OnOk result (string_bytes text.new ≡ string_bytes text.old ++ first_text shown first) }
{
    write_first_open(text)?;
    write_cycle(text, shown, first)
}

#[tactic(auto, unfolding(crate::specs::CardSections::Readings::second_open))]
// What stands before the second cycle.
fn write_second_open(text: &mut String) -> Result<(), AllocError>
    ensures { OnOk result (string_bytes text.new ≡ string_bytes text.old ++ second_open) }
{
    text.push_str(", and at second reading in ")
}

#[tactic(auto, unfolding(crate::specs::CardSections::Readings::second_text))]
// The cycle in which a card stood at second reading.
fn write_second(text: &mut String, shown: Shown, second: usize) -> Result<(), AllocError>
    ensures { OnOk result (string_bytes text.new ≡ string_bytes text.old ++ second_text shown second) }
{
    write_second_open(text)?;
    write_cycle(text, shown, second)?;
    text.push_str(".</p>\n")
}

#[tactic(auto, unfolding(crate::specs::CardSections::Readings::stations_text))]
// Both cycles.
fn write_both(
    text: &mut String,
    shown: Shown,
    first: usize,
    second: usize,
) -> Result<(), AllocError>
    ensures { OnOk result (string_bytes text.new ≡ string_bytes text.old ++ stations_text shown first second) }
{
    write_first(text, shown, first)?;
    write_second(text, shown, second)
}

#[tactic(auto, unfolding(crate::specs::CardSections::Readings::card_stations))]
// In which cycles a card stood at the reading stations.
fn write_stations(
    text: &mut String,
    shown: ShownRun,
    card: usize,
    trace: &[u8],
) -> Result<(), AllocError>
    requires few { card + 1 < 2 ^ 64 }
    requires cycles { shown.cycles.first ≤ 2 ^ 32 }
    ensures { OnOk result (string_bytes text.new ≡ string_bytes text.old ++ card_stations shown card trace.now) }
{
    write_both(
        text,
        shown.cycles,
        first_reading(shown, card, trace),
        second_reading(shown, card, trace),
    )
}

#[tactic(auto, unfolding(crate::specs::CardSections::Readings::card_run))]
// What became of a card in the run.
pub(crate) fn write_run(
    text: &mut String,
    shown: ShownRun,
    trace: &[u8],
    sums: &[PageSum],
    card: usize,
) -> Result<(), AllocError>
    requires few { card + 1 < 2 ^ 64 }
    requires cycles { shown.cycles.first ≤ 2 ^ 32 }
    ensures { OnOk result (string_bytes text.new ≡ string_bytes text.old ++ card_run shown trace.now sums.now card) }
{
    write_stations(text, shown, card, trace)?;
    write_card_sums(text, sums, card)
}
