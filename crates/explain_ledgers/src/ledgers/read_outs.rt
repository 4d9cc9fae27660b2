//! Which counter groups are read out in the cycles of a run.

ghost use Rattle.std.specs.Prelude.{◌≡◌, ◌≤◌, IfOk, length};
ghost use Rattle.card_code.specs.MostCards.{most_cards};
ghost use Rattle.explain_ledgers.specs.LedgersWords.CycleReadOuts.{TellReadOuts, read_outs_of};
ghost use Rattle.explain_ledgers.specs.LedgersWords.Running.{HasCycle};

use card_code::Card;
use counters::Group;
use explain_wheels::runs::DeckRun;
use hubs::setups::Setup;
use std::alloc::{AllocError, Global};

/// Which counter groups are read out in a cycle.
#[derive(Clone, Copy, Debug)]
pub struct ReadOuts {
    /// Whether the group of each place is. Unit 3 has place 0.
    pub groups: [bool; 32],
}

// Which groups of a machine are read out.
fn read_outs_of(groups: &[Group]) -> ReadOuts
    requires { length groups.now ≡ 32 }
    ensures { result.groups ≡ read_outs_of groups.now }
{
    let mut read_outs = [false; 32];
    for place in 0..32 {
        read_outs[place] = groups[place].controls().read_out;
    }
    ReadOuts { groups: read_outs }
}

/// Which counter groups are read out behind the points of each of the first so many cycles of a run of a deck, of at most 999,999 cards,
/// through a setup of the panel. The run has a cycle behind them. The deck runs once. Fails only if no memory is left.
pub fn read_outs_before(
    alloc: Global,
    setup: &Setup,
    cards: &[Card],
    count: u64,
) -> Result<Vec<ReadOuts>, AllocError>
    requires few { length cards.now ≤ most_cards }
    requires has { HasCycle setup.now cards.now count }
    ensures all { IfOk result (λ all. length all.items ≡ count) }
    ensures told { IfOk result (λ all. TellReadOuts setup.now cards.now all.items) }
{
    let mut run = DeckRun::begin(alloc, setup, cards)?;
    let mut all = Vec::new(alloc);
    for _passed in 0..count {
        let cycle = run.enter_due(setup, cards);
        all.push(read_outs_of(run.machine.groups()))?;
        run.leave(cycle);
    }
    Ok(all)
}
