//! The cycles that placed lines.

ghost use Rattle.std.specs.Prelude.{◌≡◌, ◌≤◌, All, Ok, None, IfOk, IfSome, OnOk, length, map, true};
ghost use Rattle.card_code.specs.MostCards.{most_cards};
ghost use Rattle.explain_wheels.specs.ExplanationsWords.PlacedInRun.{PrintsNoneAt};
ghost use Rattle.explain_ledgers.specs.LedgersWords.Running.{IsSought, PlacesLine, sought_at};
ghost use Rattle.explain_ledgers.specs.LedgersWords.SoughtLines.{IsUnfound, found_at, is_found, noted, unfound};

use card_code::Card;
use explain_wheels::runs::DeckRun;
use hubs::setups::Setup;
use net::Cycle;
use page_text::placed_lines::PlacedLine;
use std::alloc::{AllocError, Global};

/// The cycle of a run that placed a line.
#[derive(Clone, Copy, Debug)]
pub struct FoundCycle {
    /// How many cycles of the run were over before it.
    pub passed: u64,
    /// Which cycle it was.
    pub cycle: Cycle,
    /// How many cards were read, that of this cycle with them.
    pub card: u32,
    /// The line.
    pub line: PlacedLine,
}

/// Where a line stands.
#[derive(Clone, Copy, Debug)]
pub struct LinePlace {
    /// Its page.
    pub page: u64,
    /// Its line on the page.
    pub line: u32,
}

/// A line that is sought in a run.
#[derive(Clone, Copy, Debug)]
pub struct SoughtLine {
    /// Where it stands.
    pub at: LinePlace,
    /// The cycle that placed it, if one is found.
    pub found: Option<FoundCycle>,
}

// A cycle of a run that has ended.
#[derive(Clone, Copy, Debug)]
struct EndedCycle {
    // How many cycles were over before it.
    passed: u64,
    // Which cycle it was.
    cycle: Cycle,
    // How many cards were read, that of this cycle with them.
    card: u32,
    // The line that it placed, if it placed one.
    placed: Option<PlacedLine>,
}

// A line that is not found yet.
fn unfound(at: LinePlace) -> SoughtLine
    ensures { result ≡ unfound at }
{
    SoughtLine { at, found: None }
}

// Lines that are not found yet.
fn all_unfound(alloc: Global, places: &[LinePlace]) -> Result<Vec<SoughtLine>, AllocError>
    ensures { IfOk result (λ sought. sought.items ≡ map unfound places.now) }
{
    let mut sought = Vec::new(alloc);
    for at in places {
        sought.push(unfound(*at))?;
    }
    Ok(sought)
}

// The cycle, if it placed a line there.
fn found_at(one: &EndedCycle, at: LinePlace) -> Option<FoundCycle>
    ensures { result ≡ found_at one.now at one.now.placed }
{
    match one.placed {
        Some(line) => {
            if line.page == at.page && line.line == at.line {
                Some(FoundCycle {
                    passed: one.passed,
                    cycle: one.cycle,
                    card: one.card,
                    line,
                })
            } else {
                None
            }
        }
        None => None,
    }
}

impl SoughtLine {
    ghost use Rattle.std.specs.Prelude.{◌≡◌};
    ghost use Rattle.explain_ledgers.specs.LedgersWords.SoughtLines.{noted};

    // Notes the cycle, if it placed the line and none was found before.
    fn note(&mut self, one: &EndedCycle)
        ensures { self.new ≡ noted one.now self.old }
    {
        if self.found.is_some() {
            return;
        }
        if let Some(found) = found_at(one, self.at) {
            self.found = Some(found);
        }
    }
}

// Notes a cycle at the lines that it placed.
fn note_all(sought: &mut [SoughtLine], one: &EndedCycle)
    ensures { sought.new ≡ map (noted one.now) sought.old }
{
    if one.placed.is_none() {
        return;
    }
    for line in sought.iter_mut() {
        line.note(one);
    }
}

// Whether all lines are found.
fn are_found(sought: &[SoughtLine]) -> bool
    ensures { result ≡ true → All (λ line. is_found line ≡ true) sought.now }
{
    for line in sought {
        if line.found.is_none() {
            return false;
        }
    }
    true
}

// Runs a deck up to the cycle that places the last of the lines that are sought.
fn seek(
    alloc: Global,
    setup: &Setup,
    cards: &[Card],
    sought: &mut [SoughtLine],
) -> Result<(), AllocError>
    requires few { length cards.now ≤ most_cards }
    requires unfound { All IsUnfound sought.old }
    ensures places { OnOk result (map sought_at sought.new ≡ map sought_at sought.old) }
    ensures found { OnOk result (All (IsSought setup.now cards.now) sought.new) }
{
    let mut run = DeckRun::begin(alloc, setup, cards)?;
    while !are_found(sought) {
        let passed = run.begun;
        let Some(cycle) = run.enter(setup, cards) else {
            return Ok(());
        };
        run.leave(cycle);
        let one = EndedCycle {
            passed,
            cycle,
            card: run.card,
            placed: run.machine.line(),
        };
        note_all(sought, &one);
    }
    Ok(())
}

/// Runs a deck of at most 999,999 cards through a setup of the panel, once, up to the cycles that place lines at these places, and answers
/// for each place, in their order, which cycle does: none if no cycle of the whole run does. Fails only if no memory is left.
pub fn find_cycles(
    alloc: Global,
    setup: &Setup,
    cards: &[Card],
    places: &[LinePlace],
) -> Result<Vec<SoughtLine>, AllocError>
    requires { length cards.now ≤ most_cards }
    ensures places { IfOk result (λ sought. map sought_at sought.items ≡ places.now) }
    ensures found { IfOk result (λ sought. All (IsSought setup.now cards.now) sought.items) }
{
    let mut sought = all_unfound(alloc, places)?;
    seek(alloc, setup, cards, sought.as_mut_slice())?;
    Ok(sought)
}

/// Runs a deck of at most 999,999 cards through a setup of the panel, up to the cycle that places a line at this page and this line of
/// it. `None` if no cycle of the whole run does. Fails only if no memory is left.
pub fn find_cycle(
    alloc: Global,
    setup: &Setup,
    cards: &[Card],
    page: u64,
    line: u32,
) -> Result<Option<FoundCycle>, AllocError>
    requires { length cards.now ≤ most_cards }
    ensures found { IfOk result (λ found. IfSome found (PlacesLine setup.now cards.now)) }
    ensures page { IfOk result (λ found. IfSome found (λ f. f.line.page ≡ page)) }
    ensures line { IfOk result (λ found. IfSome found (λ f. f.line.line ≡ line)) }
    ensures none { result ≡ Ok None → PrintsNoneAt setup.now cards.now page line }
{
    let sought = find_cycles(alloc, setup, cards, &[LinePlace { page, line }])?;
    Ok(sought[0].found)
}
