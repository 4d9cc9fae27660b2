//! The lines of a run, found one after another.

ghost use Rattle.std.specs.Prelude.{◌≡◌, ◌≤◌, All, List, None, IfOk, OnOk, length};
ghost use Rattle.card_code.specs.MostCards.{most_cards};
ghost use Rattle.machine.specs.Running.{fed, refusal};
ghost use Rattle.machine.specs.declared.kept.KeptCycle.{KeptCycle};
ghost use Rattle.explain_wheels.specs.ExplanationsWords.LineFeeds.{AreFoundTo, FeedsSome};
ghost use Rattle.explain_wheels.specs.ExplanationsWords.PageFeeds.{found_by};
ghost use Rattle.explain_wheels.specs.ExplanationsWords.Pages.{AreFoundLines, IsFoundLine};
ghost use Rattle.explain_wheels.specs.ExplanationsWords.PlacedInRun.{IsFound, PrintsLine};

use crate::explanations::found::{FoundLine, find_line};
use card_code::Card;
use hubs::setups::Setup;
use machine::{KeptCycle, Machine};
use page_text::placed_lines::PlacedLine;
use std::alloc::{AllocError, Global};

/// Runs a deck of at most 999,999 cards through a setup of the panel, once, and answers for lines that it prints of the deck the cycles
/// that placed them, in the same order. The lines are to be the first ones of the run: else each that comes out of its turn takes a
/// run of its own. Fails only where no memory is left.
pub fn find_lines(
    alloc: Global,
    setup: &Setup,
    cards: &[Card],
    lines: &[PlacedLine],
) -> Result<Vec<FoundLine>, AllocError>
    requires few { length cards.now ≤ most_cards }
    requires printed { All (PrintsLine setup.now cards.now) lines.now }
    ensures { IfOk result (λ found. AreFoundLines setup.now cards.now lines.now found.items) }
{
    let mut ahead = Machine::new(alloc, setup)?;
    let mut machine = Machine::new(alloc, setup)?;
    let mut found = Vec::new(alloc);
    let mut fed = 0;
    let mut at = 0;
    for card in cards {
        if at == lines.len() {
            return Ok(found);
        }
        let mut kept = Vec::new(alloc);
        let page = lines[at].page;
        let count = feed_ahead(alloc, &mut ahead, Some(*card))?;
        feed_counted(alloc, &mut machine, Some(*card), count, page, &mut kept)?;
        let to = end_of(at, count, lines.len());
        add_lines(alloc, setup, cards, fed, &kept, lines, at, to, &mut found)?;
        at = to;
        fed += 1;
    }
    if at == lines.len() {
        return Ok(found);
    }
    let mut kept = Vec::new(alloc);
    feed_kept(&mut machine, None, lines[at].page, &mut kept)?;
    add_lines(
        alloc,
        setup,
        cards,
        fed,
        &kept,
        lines,
        at,
        lines.len(),
        &mut found,
    )?;
    Ok(found)
}

// The end of some lines behind others, which is no further than all.
fn end_of(at: usize, count: usize, all: usize) -> usize
    requires { at ≤ all }
    ensures { (at ≤ result) × (result ≤ all) }
{
    if count < all - at { at + count } else { all }
}

// Feeds a machine, and answers how many lines it placed.
fn feed_ahead(alloc: Global, ahead: &mut Machine, next: Option<Card>) -> Result<usize, AllocError>
    requires { refusal ahead.old next ≡ None }
    ensures { OnOk result (ahead.new ≡ fed next ahead.new.machine ahead.old) }
{
    let mut placed = Vec::new(alloc);
    match ahead.feed(next, &mut placed) {
        Ok(()) => Ok(placed.len()),
        Err(_) => Err(AllocError),
    }
}

// Feeds a machine that places so many lines. Where it places some, its cycles that placed one on a page are put after the others.
fn feed_counted(
    alloc: Global,
    machine: &mut Machine,
    next: Option<Card>,
    count: usize,
    page: u64,
    kept: &mut Vec<KeptCycle>,
) -> Result<(), AllocError>
    requires { refusal machine.old next ≡ None }
    ensures goes_on { OnOk result (machine.new ≡ fed next machine.new.machine machine.old) }
    ensures feeds { OnOk result (FeedsSome machine.old.net machine.old.machine next machine.new.machine kept.old.items kept.new.items) }
{
    if count == 0 {
        feed_unkept(alloc, machine, next)
    } else {
        feed_kept(machine, next, page, kept)
    }
}

// Feeds a machine without keeping a cycle: whatever cycles were kept, there are no more.
fn feed_unkept(alloc: Global, machine: &mut Machine, next: Option<Card>) -> Result<(), AllocError>
    requires { refusal machine.old next ≡ None }
    ensures goes_on { OnOk result (machine.new ≡ fed next machine.new.machine machine.old) }
    ensures feeds { OnOk result ((kept : List KeptCycle) → FeedsSome machine.old.net machine.old.machine next machine.new.machine kept kept) }
{
    let mut placed = Vec::new(alloc);
    match machine.feed(next, &mut placed) {
        Ok(()) => Ok(()),
        Err(_) => Err(AllocError),
    }
}

// Feeds a machine, and puts its cycles that placed a line on a page after the others.
fn feed_kept(
    machine: &mut Machine,
    next: Option<Card>,
    page: u64,
    kept: &mut Vec<KeptCycle>,
) -> Result<(), AllocError>
    requires { refusal machine.old next ≡ None }
    ensures goes_on { OnOk result (machine.new ≡ fed next machine.new.machine machine.old) }
    ensures feeds { OnOk result (FeedsSome machine.old.net machine.old.machine next machine.new.machine kept.old.items kept.new.items) }
{
    match machine.feed_page(next, page, kept) {
        Ok(()) => Ok(()),
        Err(_) => Err(AllocError),
    }
}

// Puts the cycles of some lines after those of the lines before them. So many cards were fed before the feed whose cycles are kept.
fn add_lines(
    alloc: Global,
    setup: &Setup,
    cards: &[Card],
    fed: u32,
    kept: &[KeptCycle],
    lines: &[PlacedLine],
    from: usize,
    to: usize,
    found: &mut Vec<FoundLine>,
) -> Result<(), AllocError>
    requires few { length cards.now ≤ most_cards }
    requires printed { All (PrintsLine setup.now cards.now) lines.now }
    requires kept { All (λ k. IsFound setup.now cards.now (found_by fed k)) kept.now }
    requires order { from ≤ to }
    requires within { to ≤ length lines.now }
    requires before { AreFoundTo setup.now cards.now lines.now from found.old.items }
    ensures { OnOk result (AreFoundTo setup.now cards.now lines.now to found.new.items) }
{
    for place in from..to {
        let one = found_line(alloc, setup, cards, fed, kept, &lines[place])?;
        found.push(one)?;
    }
    Ok(())
}

// The cycle of a line, among those that are kept; where it isn't there, by a run of its own.
fn found_line(
    alloc: Global,
    setup: &Setup,
    cards: &[Card],
    fed: u32,
    kept: &[KeptCycle],
    placed: &PlacedLine,
) -> Result<FoundLine, AllocError>
    requires few { length cards.now ≤ most_cards }
    requires printed { PrintsLine setup.now cards.now placed.now }
    requires kept { All (λ k. IsFound setup.now cards.now (found_by fed k)) kept.now }
    ensures { IfOk result (IsFoundLine setup.now cards.now placed.now) }
{
    for cycle in kept {
        if cycle.line.page == placed.page && cycle.line.line == placed.line {
            return Ok(FoundLine {
                cards: fed,
                kept: *cycle,
            });
        }
    }
    match find_line(alloc, setup, cards, placed.page, placed.line)? {
        Some(found) => Ok(found),
        None => unreachable!(),
    }
}
