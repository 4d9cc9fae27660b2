//! A part of the trace of a run.

ghost use Rattle.std.specs.Prelude.{◌≡◌, ◌≤◌, ◌<◌, ◌+◌, ◌^◌, [], IfOk, OnOk, length, option_to_list};
ghost use Rattle.card_code.specs.MostCards.{most_cards};
ghost use Rattle.explain_words.specs.TracesWords.Listing.{IsBounded, TakesCycle};
ghost use Rattle.explain_words.specs.TracesWords.Parts.{IsPartOf, IsTracePart};
ghost use Rattle.explain_words.specs.declared.traces.parts.CycleChoice.{CycleChoice};

use crate::traces::tracing::tell_cycle;
use card_code::Card;
use explain_wheels::runs::DeckRun;
use hubs::setups::Setup;
use page_text::placed_lines::PlacedLine;
use std::alloc::{AllocError, Global};
use std::io;

/// Which cycles of a run are chosen. A cycle belongs to the card that was read last, which has the number 0 before the first card cycle.
#[derive(Clone, Copy, Debug, PartialEq, Eq)]
pub struct CycleChoice {
    /// The number of the first card whose cycles are chosen.
    pub first_card: u32,
    /// The number of the last one.
    pub last_card: u32,
    /// How many of these cycles are chosen at most: the first ones.
    pub most: usize,
}

/// Some cycles of a run, and how many it has.
#[derive(Drop)]
pub struct TracePart {
    /// How many cycles come before those of the first card.
    pub before: usize,
    /// How many cycles the run has.
    pub all: usize,
    /// How many lines the run prints.
    pub lines: usize,
    /// How many cycles are chosen.
    pub count: usize,
    /// Their lines in the trace of the run.
    pub text: Vec<u8>,
}

// The part of a trace before any cycle.
fn no_cycles(alloc: Global) -> TracePart
    ensures part { (choice : CycleChoice) → IsPartOf choice [] result }
    ensures lines { result.lines ≡ 0 }
{
    TracePart {
        before: 0,
        all: 0,
        lines: 0,
        count: 0,
        text: Vec::new(alloc),
    }
}

// How many lines were placed.
fn count_placed(placed: &Option<PlacedLine>) -> usize
    ensures { result ≡ length (option_to_list placed.now) }
{
    match placed {
        Some(_) => 1,
        None => 0,
    }
}

// Takes up a cycle of the run: its line in the trace, and what it printed.
fn take_cycle(
    part: &mut TracePart,
    choice: CycleChoice,
    card: u32,
    line: &[u8],
    placed: &Option<PlacedLine>,
) -> Result<(), AllocError>
    requires many { part.old.all + 1 < 2 ^ 64 }
    requires bounded { IsBounded part.old }
    ensures { OnOk result (TakesCycle choice (record { card = card; line = line.now }) (length (option_to_list placed.now)) part.old part.new) }
{
    part.all += 1;
    part.lines += count_placed(placed);
    if card < choice.first_card {
        part.before += 1;
        return Ok(());
    }
    if choice.last_card < card || choice.most <= part.count {
        return Ok(());
    }
    part.text.extend_from_slice(line)?;
    part.count += 1;
    Ok(())
}

/// Runs a deck of at most 999,999 cards through a setup of the panel, and answers the lines of the chosen cycles in the trace of the run,
/// how many cycles come before them, how many there are in all, and how many lines the run prints. Besides the machine it keeps the line of
/// one cycle and what it answers.
///
/// Its only error is that no memory is left.
pub fn trace_part(
    alloc: Global,
    setup: &Setup,
    cards: &[Card],
    choice: CycleChoice,
) -> io::Result<TracePart>
    requires { length cards.now ≤ most_cards }
    ensures part { IfOk result (IsTracePart setup.now cards.now choice) }
    ensures few { IfOk result (λ part. part.before < 2 ^ 32) }
{
    let mut run = DeckRun::begin(alloc, setup, cards)?;
    let mut told = Vec::new(alloc);
    let mut line = Vec::new(alloc);
    let mut part = no_cycles(alloc);
    while let Some(cycle) = run.enter(setup, cards) {
        tell_cycle(&mut run, cycle, &mut told, &mut line)?;
        take_cycle(
            &mut part,
            choice,
            run.card,
            line.as_slice(),
            &run.machine.line(),
        )?;
    }
    Ok(part)
}
