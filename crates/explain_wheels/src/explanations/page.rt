//! All lines of a page, found in one run.

ghost use Rattle.std.specs.Prelude.{◌≡◌, ◌≤◌, ◌++◌, None, IfOk, OnOk, length, map};
ghost use Rattle.card_code.specs.MostCards.{most_cards};
ghost use Rattle.machine.specs.Running.{fed, refusal};
ghost use Rattle.explain_wheels.specs.ExplanationsWords.PageFeeds.{GainsFound, found_by};
ghost use Rattle.explain_wheels.specs.ExplanationsWords.Pages.{HasPage};

use crate::explanations::explanation::{Explanation, LineWays};
use crate::explanations::found::FoundLine;
use crate::explanations::refusal::Refusal;
use card_code::Card;
use hubs::setups::Setup;
use machine::{KeptCycle, Machine};
use std::alloc::{AllocError, Global};

// Runs a deck of at most 999,999 cards through a setup of the panel, once, and answers the lines that are placed on a page, in their
// order, each with its cycle: none where the deck has no such page. The only error is that no memory is left.
fn find_page(
    alloc: Global,
    setup: &Setup,
    cards: &[Card],
    page: u64,
) -> Result<Vec<FoundLine>, AllocError>
    requires { length cards.now ≤ most_cards }
    ensures { IfOk result (λ found. HasPage setup.now cards.now page found.items) }
{
    let mut machine = Machine::new(alloc, setup)?;
    let mut found = Vec::new(alloc);
    let mut fed = 0;
    for card in cards {
        feed_page(alloc, &mut machine, Some(*card), page, fed, &mut found)?;
        fed += 1;
    }
    feed_page(alloc, &mut machine, None, page, fed, &mut found)?;
    Ok(found)
}

// Feeds a machine that takes what is fed, and puts the lines that this places on a page after the others. So many cards were fed
// before.
fn feed_page(
    alloc: Global,
    machine: &mut Machine,
    next: Option<Card>,
    page: u64,
    cards: u32,
    found: &mut Vec<FoundLine>,
) -> Result<(), AllocError>
    requires { refusal machine.old next ≡ None }
    ensures found { OnOk result (GainsFound machine.old.net machine.old.machine next machine.new.machine page cards
        found.old.items found.new.items) }
    ensures goes_on { OnOk result (machine.new ≡ fed next machine.new.machine machine.old) }
{
    let mut kept = Vec::new(alloc);
    if machine.feed_page(next, page, &mut kept).is_err() {
        return Err(AllocError);
    }
    add_found(cards, &kept, found)
}

// Puts cycles of a feed after the others. So many cards were fed before.
fn add_found(cards: u32, kept: &[KeptCycle], found: &mut Vec<FoundLine>) -> Result<(), AllocError>
    ensures { OnOk result (found.new.items ≡ found.old.items ++ map (found_by cards) kept.now) }
{
    for cycle in kept {
        found.push(FoundLine {
            cards,
            kept: *cycle,
        })?;
    }
    Ok(())
}

/// The lines of a page of a deck, each with the ways by which impulses reached hubs at the rows of its cycle: all wheels of the page are
/// explained by them, and the deck runs once.
#[derive(Drop)]
pub struct PageWays {
    /// The lines, in their order.
    pub lines: Vec<LineWays>,
}

impl PageWays {
    ghost use Rattle.std.specs.Prelude.{◌≡◌, ◌≤◌, ◌<◌, ◌⊎◌, ℕ, List, All, Contains, None, Err, IfOk, IfSome, length};
    ghost use Rattle.card_code.specs.MostCards.{most_cards};
    ghost use Rattle.explain_wheels.specs.ExplanationsWords.Explanations.{IsExplanation};
    ghost use Rattle.explain_wheels.specs.ExplanationsWords.PlacedInRun.{PrintsNoneAt};
    ghost use Rattle.explain_wheels.specs.ExplanationsWords.Pages.{HasWays, IsPage, IsPageOfSome};
    ghost use Rattle.explain_wheels.specs.declared.explanations.explanation.LineWays.{LineWays};
    ghost use Rattle.explain_wheels.specs.declared.explanations.refusal.Refusal.TheVariants.{NoSuchLine, NoSuchWheel};

    /// The lines of a page of a deck of at most 999,999 cards, by one run. Fails only where no memory is left.
    pub fn of(
        alloc: Global,
        setup: &Setup,
        cards: &[Card],
        page: u64,
    ) -> Result<PageWays, AllocError>
        requires { length cards.now ≤ most_cards }
        ensures page { IfOk result (λ page_ways. IsPage setup.now cards.now page page_ways.lines.items) }
        ensures some { IfOk result (λ page_ways. IsPageOfSome setup.now page_ways.lines.items) }
    {
        let found = find_page(alloc, setup, cards, page)?;
        let mut lines = Vec::new(alloc);
        for line in &found {
            lines.push(LineWays::of(alloc, setup, *line)?)?;
        }
        Ok(PageWays { lines })
    }

    /// The line with a number on the page, with its ways.
    pub fn line(&self, line: u32) -> Option<&LineWays>
        ensures some { IfSome result (λ found. Contains self.now.lines.items found.now) }
        ensures numbered { IfSome result (λ found. found.now.found.kept.line.line ≡ line) }
        ensures none { result ≡ None → All (λ (l : LineWays). l.found.kept.line.line ≡ line → ⊥) self.now.lines.items }
    {
        for ways in &self.lines {
            if ways.found.kept.line.line == line {
                return Some(ways);
            }
        }
        None
    }

    /// Why a wheel of a line of the page printed its character. The setup is that by which the page was found.
    ///
    /// Refused with `NoSuchWheel` where the wheel isn't one of 1 to 120, else with `NoSuchLine` where the page has no such line, and with
    /// `Memory` where no memory is left.
    pub fn wheel(
        &self,
        alloc: Global,
        setup: &Setup,
        line: u32,
        wheel: u8,
    ) -> Result<Explanation, Refusal>
        requires { All (HasWays setup.now) self.now.lines.items }
        ensures told { (deck : List (List ℕ)) (page : ℕ) → IsPage setup.now deck page self.now.lines.items
            → IfOk result (IsExplanation setup.now deck page line wheel) }
        ensures no_wheel { (wheel < 1) ⊎ (120 < wheel) → result ≡ Err NoSuchWheel }
        ensures wheel { result ≡ Err NoSuchWheel → (wheel < 1) ⊎ (120 < wheel) }
        ensures no_line { (deck : List (List ℕ)) (page : ℕ) → IsPage setup.now deck page self.now.lines.items
            → result ≡ Err NoSuchLine → PrintsNoneAt setup.now deck page line }
    {
        if wheel < 1 || 120 < wheel {
            return Err(Refusal::NoSuchWheel);
        }
        match self.line(line) {
            Some(ways) => Ok(ways.wheel(alloc, setup, wheel)?),
            None => Err(Refusal::NoSuchLine),
        }
    }
}
