//! The column splits.

ghost use Rattle.std.specs.Prelude.{◌≡◌};
ghost use Rattle.selectors.specs.Splits.{is_digit_row};

use card_code::Row;
use hubs::Hub;
use net::{Contacts, Cycle, Picture, Point, Unit};

/// The column splits: 16 selectors of one position each, without a state.
///
/// A split leads to its digit exit at the rows 9 to 0, and to its zone exit at the rows 11 and 12.
#[derive(Clone, Copy, Debug, PartialEq, Eq)]
pub struct Splits;

impl Splits {
    ghost use Rattle.std.specs.Prelude.{◌≡◌};
    ghost use Rattle.net.specs.HubSets.{GainsHubs};
    ghost use Rattle.net.specs.declared.cycle.Cycle.{Cycle};
    ghost use Rattle.selectors.specs.Splits.{splits_at_start, splits_closes};

    /// The splits of the panel.
    pub fn new() -> Self
        ensures { result ≡ splits_at_start }
    {
        Splits
    }

    /// Closes the contacts to the digit exits at the rows 9 to 0 and those to the zone exits at the rows 11 and 12, in any
    /// cycle.
    #[inline(always)]
    pub fn close(&self, point: Point, contacts: &mut Contacts)
        ensures { (cycle : Cycle) → GainsHubs (splits_closes self.now cycle point) contacts.old contacts.new }
    {
        if let Point::Row(row) = point {
            if is_digit_row(row) {
                contacts.insert_row(Hub::CSD(1), 0xffff);
            } else {
                contacts.insert_row(Hub::CSZ(1), 0xffff);
            }
        }
    }
}

impl Unit for Splits {
    ghost use Rattle.selectors.specs.OwnHubs.{splits_keep};
    ghost use Rattle.std.specs.Prelude.{refl};
    ghost use Rattle.net.specs.Nothing.{emits_nothing, senses_nothing, ends_unchanged};
    ghost use Rattle.selectors.specs.Splits.{splits_closes, splits_number};

    ghost emits = { emits_nothing };

    ghost closes = { splits_closes };

    ghost sensed = { senses_nothing };

    ghost ended = { ends_unchanged };

    ghost number = { splits_number };

    fn emit(&self, _cycle: Cycle, _point: Point, _exits: &mut Picture) {}

    fn sense(&mut self, _cycle: Cycle, _point: Point, _picture: &Picture) {}

    fn end_cycle(&mut self, _cycle: Cycle) {}

    ghost keeps_to_its_own = { splits_keep };

    ghost emits_steadily = { λ unit cycle at other picture hub. refl };

    ghost closes_steadily = { λ unit cycle at other picture hub. refl };
}

// Whether a row is one of the digits 9 to 0.
fn is_digit_row(row: Row) -> bool
    ensures { result ≡ is_digit_row row }
{
    row.number() <= 9
}
