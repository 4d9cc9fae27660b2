//! A whole run of the machine.

ghost use Rattle.std.specs.Prelude.{◌≤◌, IfOk, length};
ghost use Rattle.card_code.specs.MostCards.{most_cards};
ghost use Rattle.page_text.specs.PlacedLines.InOrder.{IsInOrder};
ghost use Rattle.machine.specs.Runs.{MachineLines};

use crate::units::Units;
use card_code::Card;
use hubs::setups::Setup;
use net::{Net, RowSets};
use page_text::placed_lines::PlacedLine;
use std::alloc::{AllocError, Global};

/// Runs a deck of at most 999,999 cards through a setup of the panel, and answers the printed lines in order with their
/// places.
///
/// Any setup will do. An empty deck prints nothing. The only error is that no memory is left.
pub fn simulate(alloc: Global, setup: &Setup, cards: &[Card]) -> Result<Vec<PlacedLine>, AllocError>
    requires { length cards.now ≤ most_cards }
    ensures lines { IfOk result (λ lines. MachineLines setup.now cards.now lines.items) }
    ensures in_order { IfOk result (λ lines. IsInOrder setup.now.tape.lines lines.items) }
{
    // That the form is one of a tape is told with the setup: it spares a clause in every call that takes one.
    let _form = setup.known();
    let net = Net::of(alloc, setup)?;
    let mut units = Units::new(setup);
    let mut sets = RowSets::new();
    let mut lines = Vec::new(alloc);
    for card in cards {
        units.feed(&net, &mut sets, &Some(*card), &mut lines)?;
    }
    units.feed(&net, &mut sets, &None, &mut lines)?;
    Ok(lines)
}
