//! Why a wheel of a printed line printed its character.

ghost use Rattle.std.specs.Prelude.{◌≡◌, ◌≤◌, ◌<◌, ◌⊎◌, ℕ, List, Err, IfOk, length};
ghost use Rattle.card_code.specs.MostCards.{most_cards};
ghost use Rattle.explain_wheels.specs.ExplanationsWords.Explanations.{IsExplanation};
ghost use Rattle.explain_wheels.specs.ExplanationsWords.PlacedInRun.{IsFound, PrintsNoneAt};
ghost use Rattle.explain_wheels.specs.ExplanationsWords.Rows.{AreRowWays};
ghost use Rattle.explain_wheels.specs.declared.explanations.refusal.Refusal.TheVariants.{NoSuchLine, NoSuchWheel};

use crate::explanations::found::{FoundLine, find_line};
use crate::explanations::refusal::Refusal;
use crate::explanations::rows::{row_ways, ways_to_wheel};
use crate::explanations::significance::{Significance, significance_of};
use crate::ways::Ways;
use card_code::Card;
use hubs::Hub;
use hubs::setups::Setup;
use net::Cycle;
use page_text::placed_lines::PlacedLine;
use std::alloc::{AllocError, Global};

/// Why a wheel of a printed line printed its character.
#[derive(Drop)]
pub struct Explanation {
    /// The number of the card that the cycle belongs to, counted from 1.
    pub cards: u32,
    /// The cycle that placed the line.
    pub cycle: Cycle,
    /// Whether the card's own cycle was still to come when that cycle was over. So a heading cycle comes before the card where this is
    /// set, and else before the card's totals.
    pub waits: bool,
    /// The line.
    pub line: PlacedLine,
    /// The wheel, 1 to 120.
    pub wheel: u8,
    /// The character that it printed.
    pub character: u8,
    /// For each row of the cycle, in the order of the points (9 to 0, 11, 12), one way by which an impulse reached the wheel, hub by
    /// hub from an exit that emitted; none at the rows at which the wheel was not impulsed.
    pub rows: Vec<Option<Vec<Hub>>>,
    /// Whether the wheel had significance, and from where.
    pub significance: Significance,
}

/// The ways by which impulses reached hubs at the rows of a cycle that placed a line: all wheels of the line are explained by them.
#[derive(Drop)]
pub struct LineWays {
    /// The cycle, and the line.
    pub found: FoundLine,
    /// The ways at each row, in the order of the points.
    pub ways: Vec<Ways>,
}

impl LineWays {
    ghost use Rattle.std.specs.Prelude.{◌≡◌, ◌≤◌, ℕ, List, IfOk};
    ghost use Rattle.explain_wheels.specs.ExplanationsWords.Explanations.{ExplainsBy};
    ghost use Rattle.explain_wheels.specs.ExplanationsWords.PlacedInRun.{IsFound};
    ghost use Rattle.explain_wheels.specs.ExplanationsWords.Rows.{AreRowWays};

    /// The ways of a line that was found on this setup. Fails only where no memory is left.
    pub fn of(alloc: Global, setup: &Setup, found: FoundLine) -> Result<LineWays, AllocError>
        ensures line { IfOk result (λ line. line.found ≡ found) }
        ensures ways { IfOk result (λ line. AreRowWays setup.now found.kept.points 12 line.ways.items) }
    {
        let ways = row_ways(alloc, setup, &found.kept)?;
        Ok(LineWays { found, ways })
    }

    /// Why this wheel, 1 to 120, printed its character, by the points that are kept of the line's cycle. The setup is that by which the
    /// line was found. Fails only where no memory is left.
    pub fn wheel(&self, alloc: Global, setup: &Setup, wheel: u8) -> Result<Explanation, AllocError>
        requires ways { AreRowWays setup.now self.now.found.kept.points 12 self.now.ways.items }
        requires range { (1 ≤ wheel) × (wheel ≤ 120) }
        ensures { (deck : List (List ℕ)) → IsFound setup.now deck self.now.found
            → IfOk result (ExplainsBy self.now.found.kept.points setup.now deck self.now.found.kept.line.page self.now.found.kept.line.line wheel) }
    {
        let kept = &self.found.kept;
        let rows = ways_to_wheel(alloc, setup, kept, &self.ways, wheel)?;
        Ok(Explanation {
            cards: self.found.cards,
            cycle: kept.cycle,
            waits: kept.waits,
            line: kept.line,
            wheel,
            character: kept.line.text[wheel as usize - 1],
            rows,
            significance: significance_of(setup, &self.ways, kept.cycle, wheel),
        })
    }
}

/// Why a wheel of a line that a setup of the panel prints of a deck, of at most 999,999 cards, printed its character. The line is told by its
/// page and its line on the page.
///
/// Refused with `NoSuchWheel` where the wheel isn't one of 1 to 120, else with `NoSuchLine` where no line stands there, and with
/// `Memory` where no memory is left.
pub fn explain(
    alloc: Global,
    setup: &Setup,
    cards: &[Card],
    page: u64,
    line: u32,
    wheel: u8,
) -> Result<Explanation, Refusal>
    requires { length cards.now ≤ most_cards }
    ensures told { IfOk result (IsExplanation setup.now cards.now page line wheel) }
    ensures no_wheel { (wheel < 1) ⊎ (120 < wheel) → result ≡ Err NoSuchWheel }
    ensures wheel { result ≡ Err NoSuchWheel → (wheel < 1) ⊎ (120 < wheel) }
    ensures no_line { result ≡ Err NoSuchLine → PrintsNoneAt setup.now cards.now page line }
{
    if wheel < 1 || 120 < wheel {
        return Err(Refusal::NoSuchWheel);
    }
    let Some(found) = find_line(alloc, setup, cards, page, line)? else {
        return Err(Refusal::NoSuchLine);
    };
    Ok(LineWays::of(alloc, setup, found)?.wheel(alloc, setup, wheel)?)
}
