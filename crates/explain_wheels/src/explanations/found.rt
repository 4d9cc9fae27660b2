//! The cycle that placed a line of a deck's pages.

ghost use Rattle.std.specs.Prelude.{◌≡◌, ◌≤◌, Ok, None, IfOk, IfSome, length};
ghost use Rattle.card_code.specs.MostCards.{most_cards};
ghost use Rattle.hubs.specs.SetupsWords.Wiring.{Wiring};
ghost use Rattle.net.specs.Nets.{IsNetOf};
ghost use Rattle.machine.specs.Kept.{FeedsPast, PlacedInFeed};
ghost use Rattle.machine.specs.Running.{fed, refusal};
ghost use Rattle.explain_wheels.specs.ExplanationsWords.PlacedInRun.{IsFound, PrintsNoneAt};

use card_code::Card;
use hubs::setups::Setup;
use machine::{KeptCycle, Machine};
use std::alloc::{AllocError, Global};

/// The cycle of a run over a deck that placed a line.
#[derive(Clone, Copy, Debug)]
pub struct FoundLine {
    /// How many cards were fed before the one whose feed ran the cycle. So it is the number of the card that the cycle belongs to,
    /// counted from 1: in its card cycle and the cycles behind it, that card stands at second reading.
    pub cards: u32,
    /// The cycle, its points, and the line.
    pub kept: KeptCycle,
}

/// Runs a deck of at most 999,999 cards through a setup of the panel, up to the cycle that places a line at this page and this line of
/// it. `None` where no cycle of the whole run does. The only error is that no memory is left.
pub fn find_line(
    alloc: Global,
    setup: &Setup,
    cards: &[Card],
    page: u64,
    line: u32,
) -> Result<Option<FoundLine>, AllocError>
    requires { length cards.now ≤ most_cards }
    ensures found { IfOk result (λ found. IfSome found (IsFound setup.now cards.now)) }
    ensures page { IfOk result (λ found. IfSome found (λ f. f.kept.line.page ≡ page)) }
    ensures line { IfOk result (λ found. IfSome found (λ f. f.kept.line.line ≡ line)) }
    ensures none { result ≡ Ok None → PrintsNoneAt setup.now cards.now page line }
{
    let mut machine = Machine::new(alloc, setup)?;
    let mut fed = 0;
    for card in cards {
        if let Some(kept) = feed_to(&mut machine, Some(*card), page, line) {
            return Ok(Some(FoundLine { cards: fed, kept }));
        }
        fed += 1;
    }
    match feed_to(&mut machine, None, page, line) {
        Some(kept) => Ok(Some(FoundLine { cards: fed, kept })),
        None => Ok(None),
    }
}

// Feeds a machine that takes what is fed, up to the cycle that places a line at this page and this line of it.
fn feed_to(machine: &mut Machine, next: Option<Card>, page: u64, line: u32) -> Option<KeptCycle>
    requires { refusal machine.old next ≡ None }
    ensures found { (wiring : Wiring) → IsNetOf wiring machine.old.net → IfSome result (PlacedInFeed wiring machine.old.machine next) }
    ensures page { IfSome result (λ kept. kept.line.page ≡ page) }
    ensures line { IfSome result (λ kept. kept.line.line ≡ line) }
    ensures past { (wiring : Wiring) → IsNetOf wiring machine.old.net → result ≡ None
        → FeedsPast wiring machine.old.machine next machine.new.machine page line }
    ensures goes_on { result ≡ None → machine.new ≡ fed next machine.new.machine machine.old }
{
    match machine.feed_to(next, page, line) {
        Ok(found) => found,
        Err(_) => unreachable!(),
    }
}
