//! The pages of a replay by orders, and what is counted in it, from the bytes of its texts.

ghost use Rattle.std.specs.Prelude.{◌≡◌, ◌≢◌, IfErr, IfOk};
ghost use Rattle.cli_commands.specs.CommandsWords.ServedReplays.Answers.{IsReplayByOrders, IsServedOn};
ghost use Rattle.fault_lines.specs.ProgramIo.Refusals.{RefusesDeck};
ghost use Rattle.cli_commands.specs.CommandsWords.ServedReplays.Refusals.{RefusesByOrders};

use crate::commands::served_replays::fault::service_of;
use card_code::read_deck;
use fault_lines::faults::Fault;
use hubs::setups::Setup;
use machine_served::served::Service;
use machine_served::served_runs::{Counts, simulate_served};
use page_text::page_bytes;
use std::alloc::Global;
use wire_chart::read_setup;

/// The pages of a replay by orders, and what was counted in it.
#[derive(Drop)]
pub struct ServedPages {
    /// The bytes of the pages.
    pub pages: Vec<u8>,
    /// The rounds that were taken, and how many hubs were seen.
    pub counts: Counts,
}

// The pages of a deck on a panel that is wired so, served by the orders of a service, and what is counted.
fn served_on<'a>(
    alloc: Global,
    setup: &Setup,
    service: &Service,
    deck: &[u8],
) -> Result<ServedPages, Fault<'a>>
    ensures served { IfOk result (λ answer. IsServedOn setup.now service.now deck.now answer.pages.items answer.counts) }
    ensures refused { IfErr result (λ told. told ≢ Fault.Memory → RefusesDeck deck.now told) }
{
    let cards = read_deck(alloc, deck)?;
    let run = simulate_served(alloc, setup, cards.as_slice(), service)?;
    let long = setup.tape().lines();
    let pages = page_bytes(alloc, run.lines.as_slice(), u32::from(long))?;
    let counts = Counts {
        rounds: run.rounds,
        seen: run.seen,
    };
    Ok(ServedPages { pages, counts })
}

/// The pages of a wiring chart, a text of orders and a deck, and what is counted: what the machine prints of the deck, wired so, whatever
/// is on its cards, while its units are served in rounds by the orders in turn, a line each.
///
/// # Errors
///
/// The fault of the wiring chart, else of the orders, else of the deck's text, or `Memory` where a growth was refused.
pub fn replayed_by_orders<'a>(
    alloc: Global,
    wiring: &[u8],
    orders: &[u8],
    deck: &[u8],
) -> Result<ServedPages, Fault<'a>>
    ensures served { IfOk result (λ answer. IsReplayByOrders wiring.now orders.now deck.now answer.pages.items answer.counts) }
    ensures refused { IfErr result (λ told. told ≢ Fault.Memory → RefusesByOrders wiring.now orders.now deck.now told) }
{
    let setup = read_setup(alloc, wiring)?;
    let service = service_of(alloc, orders)?;
    served_on(alloc, &setup, &service, deck)
}
