//! The cards of a run: they lie in a hopper, and move on before each card cycle.

ghost use Rattle.std.specs.Prelude.{◌≡◌};
ghost use Rattle.machine.specs.Runs.{cards_moved, made_ready};

use card_code::Card;
use machine::UnitSet;
use net::Cycle;

// The cards move on by one: the next card of the hopper, if any, goes to first reading. Answers what is left in the hopper.
pub(crate) fn move_cards<'a>(units: &mut UnitSet, hopper: &'a [Card]) -> &'a [Card]
    ensures { cards_moved units.old hopper.now ≡ record { machine = units.new; hopper = result.now } }
{
    match hopper.split_first() {
        Some((card, others)) => {
            units.load(&Some(*card));
            others
        }
        None => {
            units.load(&None);
            hopper
        }
    }
}

// Just before a card cycle the cards move on; before other cycles they stay. Answers what is left in the hopper.
pub(crate) fn make_ready<'a>(units: &mut UnitSet, cycle: Cycle, hopper: &'a [Card]) -> &'a [Card]
    ensures { made_ready cycle (record { machine = units.old; hopper = hopper.now })
        ≡ record { machine = units.new; hopper = result.now } }
{
    match cycle {
        Cycle::Card => move_cards(units, hopper),
        Cycle::RunIn | Cycle::Prog(_, _) | Cycle::Head(_) => hopper,
    }
}
