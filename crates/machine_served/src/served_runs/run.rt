//! A whole served run.

ghost use Rattle.std.specs.Prelude.{◌≤◌, IfOk, length};
ghost use Rattle.card_code.specs.MostCards.{most_cards};
ghost use Rattle.machine.specs.Runs.{MachineLines};
ghost use Rattle.page_text.specs.PlacedLines.InOrder.{IsInOrder};
ghost use Rattle.machine_served.specs.ServedRuns.Runs.{IsServedRun};

use crate::served::Service;
use crate::served_runs::counts::Counts;
use crate::served_runs::course::Panel;
use crate::served_runs::feed::{make_ready, move_cards};
use crate::served_runs::rounds::serve_cycle;
use crate::waits::all_waits;
use card_code::Card;
use hubs::setups::Setup;
use machine::UnitSet;
use net::Net;
use page_text::placed_lines::PlacedLine;
use std::alloc::{AllocError, Global};

/// What a served run of a deck printed, and what was counted in it.
#[derive(Drop)]
pub struct Served {
    /// The printed lines in order with their places.
    pub lines: Vec<PlacedLine>,
    /// How many rounds were taken in all cycles.
    pub rounds: u64,
    /// How many hubs the pictures had that the units sensed, all together.
    pub seen: u64,
}

/// Runs a deck of at most 999,999 cards through a setup of the panel. In each cycle the units are served in rounds, by the orders of
/// the service in turn; the rounds are counted on from cycle to cycle.
///
/// The lines are those of the machine in which all units act at once, whatever the orders are. Any setup will do. An empty deck takes no
/// round. The only error is that no memory is left.
pub fn simulate_served(
    alloc: Global,
    setup: &Setup,
    cards: &[Card],
    service: &Service,
) -> Result<Served, AllocError>
    requires { length cards.now ≤ most_cards }
    ensures lines { IfOk result (λ run. MachineLines setup.now cards.now run.lines.items) }
    ensures in_order { IfOk result (λ run. IsInOrder setup.now.tape.lines run.lines.items) }
    ensures served { IfOk result (λ run. IsServedRun setup.now service.now cards.now run.lines.items (record { rounds = run.rounds; seen = run.seen })) }
{
    // That the form is one of a tape is told with the setup: it spares a clause in every call that takes one.
    let _form = setup.known();
    let net = Net::of(alloc, setup)?;
    let waits = all_waits(&net);
    let panel = Panel { net, waits };
    let mut units = UnitSet::new(setup);
    let mut hopper = move_cards(&mut units, cards);
    let mut counts = Counts { rounds: 0, seen: 0 };
    let mut lines = Vec::new(alloc);
    while let Some(cycle) = units.cycle_due() {
        hopper = make_ready(&mut units, cycle, hopper);
        (units, counts) = serve_cycle(units, &panel, cycle, service, counts);
        units.append_line(&mut lines)?;
    }
    let Counts { rounds, seen } = counts;
    Ok(Served {
        lines,
        rounds,
        seen,
    })
}
