//! Lines that are shown.

ghost use Rattle.std.specs.Prelude.{◌≡◌, ◌≤◌, None, Some, [], ◌∷◌, ◌++◌, IfOk, OnOk, length, map};
ghost use Rattle.card_code.specs.MostCards.{most_cards};
ghost use Rattle.explain_wheels.specs.ExplanationsWords.PageFeeds.{found_by};
ghost use Rattle.explain_wheels.specs.ExplanationsWords.Pages.{found_of, line_found};
ghost use Rattle.show_page.specs.ShownLines.Helper.{GainsLines, GainsPage};
ghost use Rattle.show_page.specs.ShownLines.Shown.{AreShown};

use card_code::Card;
use explain_wheels::explanations::{FoundLine, LineWays, PageWays, find_lines};
use hubs::setups::Setup;
use machine::{KeptCycle, KeptPoint, simulate};
use page_text::placed_lines::PlacedLine;
use std::alloc::{AllocError, Global};

/// Lines of a run, in their order.
#[derive(Drop)]
pub struct ShownLines {
    /// The lines with their places.
    pub lines: Vec<PlacedLine>,
    /// For each of them the cycle that placed it.
    pub found: Vec<FoundLine>,
}

/// All lines that a setup of the panel prints of a deck of at most 999,999 cards. The deck is run twice. Fails only where no memory is left.
pub fn all_lines(alloc: Global, setup: &Setup, cards: &[Card]) -> Result<ShownLines, AllocError>
    requires { length cards.now ≤ most_cards }
    ensures { IfOk result (λ shown. AreShown setup.now cards.now None shown.lines.items shown.found.items) }
{
    let lines = simulate(alloc, setup, cards)?;
    let found = find_lines(alloc, setup, cards, &lines)?;
    Ok(ShownLines { lines, found })
}

// Adds a cycle, of which these are the points. So many cards were fed before.
fn push_found(
    cards: u32,
    kept: &KeptCycle,
    points: &[KeptPoint; 14],
    found: &mut Vec<FoundLine>,
) -> Result<(), AllocError>
    ensures { OnOk result (found.new.items ≡ found.old.items ++ found_by cards kept.now ∷ []) }
{
    // Passed for their type alone, which the prover has to meet to know what the cycles of a list are made of: that saves a copy of the list.
    let _points = points;
    found.push(FoundLine { cards, kept: *kept })?;
    Ok(())
}

// Adds the line of a cycle.
fn push_placed(one: &FoundLine, lines: &mut Vec<PlacedLine>) -> Result<(), AllocError>
    ensures { OnOk result (lines.new.items ≡ lines.old.items ++ line_found one.now ∷ []) }
{
    lines.push(one.kept.line)?;
    Ok(())
}

// Adds a line, with its cycle.
fn push_line(
    one: &FoundLine,
    lines: &mut Vec<PlacedLine>,
    found: &mut Vec<FoundLine>,
) -> Result<(), AllocError>
    ensures { OnOk result (GainsLines (one.now ∷ []) lines.old.items lines.new.items found.old.items found.new.items) }
{
    push_placed(one, lines)?;
    push_found(one.cards, &one.kept, &one.kept.points, found)
}

// Adds lines.
fn push_lines(
    ways: &[LineWays],
    lines: &mut Vec<PlacedLine>,
    found: &mut Vec<FoundLine>,
) -> Result<(), AllocError>
    ensures { OnOk result (GainsLines (map found_of ways.now) lines.old.items lines.new.items found.old.items found.new.items) }
{
    for line in ways {
        push_line(&line.found, lines, found)?;
    }
    Ok(())
}

// Adds the lines of a page.
fn push_page(
    alloc: Global,
    setup: &Setup,
    cards: &[Card],
    page: u64,
    lines: &mut Vec<PlacedLine>,
    found: &mut Vec<FoundLine>,
) -> Result<(), AllocError>
    requires { length cards.now ≤ most_cards }
    ensures { OnOk result (GainsPage setup.now cards.now page lines.old.items lines.new.items found.old.items found.new.items) }
{
    let ways = PageWays::of(alloc, setup, cards, page)?;
    push_lines(&ways.lines, lines, found)
}

/// The lines that a setup of the panel prints of a deck of at most 999,999 cards on the pages with these numbers, page by page: none on a
/// page that the report doesn't have. The deck is run once for each of these pages, and besides the machine nothing is kept but their lines.
/// Fails only where no memory is left.
pub fn lines_on_pages(
    alloc: Global,
    setup: &Setup,
    cards: &[Card],
    pages: &[u64],
) -> Result<ShownLines, AllocError>
    requires { length cards.now ≤ most_cards }
    ensures { IfOk result (λ shown. AreShown setup.now cards.now (Some pages.now) shown.lines.items shown.found.items) }
{
    let mut lines = Vec::new(alloc);
    let mut found = Vec::new(alloc);
    for page in pages {
        push_page(alloc, setup, cards, *page, &mut lines, &mut found)?;
    }
    Ok(ShownLines { lines, found })
}
