//! The last cycle of a run that moved what something in the machine holds.

ghost use Rattle.std.specs.Prelude.{◌≡◌, ◌≤◌, ◌<◌, IfOk, IfSome, length};
ghost use Rattle.card_code.specs.MostCards.{most_cards};
ghost use Rattle.explain_ledgers.specs.LedgersWords.Running.{HasCycle};
ghost use Rattle.explain_origins.specs.Changes.{IsLastBefore, is_changed, last_with, moves};
ghost use Rattle.explain_origins.specs.Holders.{IsHolder};
ghost use Rattle.selectors.specs.Pilots.{moves_pilots};

use crate::holders::Holder;
use crate::holding::hold_same;
use card_code::Card;
use explain_wheels::runs::DeckRun;
use hubs::setups::Setup;
use machine::SteppedMachine;
use net::Cycle;
use std::alloc::{AllocError, Global};
use storage_units::Storage;

/// A cycle of a run that did something.
#[derive(Clone, Copy, Debug)]
pub struct PassedCycle {
    /// Which cycle it was.
    pub cycle: Cycle,
    /// How many cards were read: the number of the card at second reading.
    pub card: u32,
    /// How many cycles of the run were over.
    pub passed: u64,
}

// Whether a unit holds another text at the end of a cycle, by the unit behind the points of the cycle.
fn is_changed(storage: &Storage, cycle: Cycle) -> bool
    ensures { result ≡ is_changed cycle storage.now }
{
    !hold_same(storage, &storage.behind_end(cycle))
}

// Whether a cycle sets the pilots anew.
fn moves_pilots(cycle: Cycle) -> bool
    ensures { result ≡ moves_pilots cycle }
{
    match cycle {
        Cycle::RunIn | Cycle::Card => true,
        Cycle::Prog(_, _) | Cycle::Head(_) => false,
    }
}

// Whether a cycle moves what a holder holds, by the machine behind the points of the cycle.
fn moves(holder: Holder, cycle: Cycle, machine: &SteppedMachine) -> bool
    requires holder { IsHolder holder }
    requires storage { length machine.now.machine.storage ≡ 4 }
    requires groups { length machine.now.machine.groups ≡ 32 }
    ensures { result ≡ moves holder cycle machine.now.machine }
{
    match holder {
        Holder::Storage { place } => is_changed(&machine.storage()[place], cycle),
        Holder::Pilot { .. } => moves_pilots(cycle),
        Holder::Latch { place } => machine.groups()[place].controls().test,
    }
}

// This cycle if it did it, else the last one that did.
fn last_with(here: PassedCycle, done: bool, last: Option<PassedCycle>) -> Option<PassedCycle>
    ensures { result ≡ last_with done here last }
{
    if done { Some(here) } else { last }
}

/// The last cycle that moved what a holder of the panel holds, in a run of a deck, of at most 999,999 cards, through a setup of the panel,
/// before the cycle that comes behind so many others, which the run has; none if no cycle moved it. Fails only if no memory is left.
pub fn last_move(
    alloc: Global,
    setup: &Setup,
    cards: &[Card],
    count: u64,
    holder: Holder,
) -> Result<Option<PassedCycle>, AllocError>
    requires few { length cards.now ≤ most_cards }
    requires has { HasCycle setup.now cards.now count }
    requires holder { IsHolder holder }
    ensures last { IfOk result (IsLastBefore setup.now cards.now count (moves holder)) }
    ensures has { IfOk result (λ last. IfSome last (λ since. HasCycle setup.now cards.now since.passed)) }
{
    let mut run = DeckRun::begin(alloc, setup, cards)?;
    let mut last = None;
    for passed in 0..count {
        let cycle = run.enter_due(setup, cards);
        let here = PassedCycle {
            cycle,
            card: run.card,
            passed,
        };
        last = last_with(here, moves(holder, cycle, &run.machine), last);
        run.leave(cycle);
    }
    Ok(last)
}
