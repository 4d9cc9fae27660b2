//! Running a deck through two panels.

ghost use Rattle.std.specs.Prelude.{◌≤◌, IfOk, length};
ghost use Rattle.card_code.specs.MostCards.{most_cards};
ghost use Rattle.cli_matching.specs.MatchDecks.Wheels.{DifferOnDeck};

use crate::match_decks::wheels::{Difference, line_difference};
use card_code::Card;
use hubs::setups::Setup;
use machine::simulate;
use std::alloc::{AllocError, Global};

/// Where the machine prints a deck of at most 999,999 cards differently, wired as two setups: the place of the first line that differs, and
/// the first wheel of it; none where it prints the same lines. Its only refusal is memory.
pub fn deck_difference(
    alloc: Global,
    one: &Setup,
    other: &Setup,
    cards: &[Card],
) -> Result<Option<Difference>, AllocError>
    requires { length cards.now ≤ most_cards }
    ensures { IfOk result (DifferOnDeck one.now other.now cards.now) }
{
    let lines = simulate(alloc, one, cards)?;
    let other_lines = simulate(alloc, other, cards)?;
    Ok(line_difference(lines.as_slice(), other_lines.as_slice()))
}
