//! The machine in a cycle of a run.

ghost use Rattle.std.specs.Prelude.{◌≡◌, ◌≤◌, IfOk, None, Some, length};
ghost use Rattle.card_code.specs.MostCards.{most_cards};
ghost use Rattle.explain_ledgers.specs.LedgersWords.Running.{HasCycle};
ghost use Rattle.explain_ledgers.specs.LedgersWords.InCycle.{IsInCycle};

use card_code::Card;
use explain_wheels::runs::DeckRun;
use hubs::setups::Setup;
use machine::SteppedMachine;
use std::alloc::{AllocError, Global};

/// The machine of a setup of the panel in a run of a deck, of at most 999,999 cards, behind the points of the cycle that comes behind so many
/// others, which the run has, and before the end of that cycle. Fails only if no memory is left.
pub fn machine_in_cycle(
    alloc: Global,
    setup: &Setup,
    cards: &[Card],
    count: u64,
) -> Result<SteppedMachine, AllocError>
    requires few { length cards.now ≤ most_cards }
    requires has { HasCycle setup.now cards.now count }
    ensures { IfOk result (λ stepped. IsInCycle setup.now cards.now count stepped.machine) }
{
    let mut run = DeckRun::begin(alloc, setup, cards)?;
    run.go_to(setup, cards, count);
    let _last = run.enter_due(setup, cards);
    Ok(run.machine)
}
