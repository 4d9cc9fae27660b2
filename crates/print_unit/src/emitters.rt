//! The emitters, unit 42: exits that emit a row at its point in the cycles of their kind.

ghost use Rattle.std.specs.Prelude.{◌≡◌, ◌≤◌, IfSome, Some};
ghost use Rattle.net.specs.Cycles.{emitter_of};
ghost use Rattle.net.specs.RowSets.{GainsRows};
ghost use Rattle.print_unit.specs.Emitters.{emits_row};

use hubs::Hub;
use net::{Cycle, Ordinal, Picture, Point, RowSets, Unit};

/// The eight emitters: 1 to 3 for the heading cycles, 4 for card cycles, 5 to 8 for the third program cycles of the levels
/// 1 to 4.
///
/// They keep nothing and sense nothing.
#[derive(Clone, Copy, Debug, PartialEq, Eq)]
pub struct Emitters {}

impl Emitters {
    ghost use Rattle.std.specs.Prelude.{◌≡◌};
    ghost use Rattle.net.specs.RowSets.{GainsRows};
    ghost use Rattle.net.specs.declared.cycle.Point.TheVariants.{Row as AtRow};
    ghost use Rattle.print_unit.specs.Emitters.{emitters_at_start, emitters_emit};

    /// The emitters.
    pub fn new() -> Self
        ensures { result ≡ emitters_at_start }
    {
        Emitters {}
    }

    /// Adds to the sets of the exits the rows at whose points they emit.
    pub fn emit_rows(&self, cycle: Cycle, sets: &mut RowSets)
        ensures { GainsRows (λ row. emitters_emit self.now cycle (AtRow row)) sets.old sets.new }
    {
        if let Some(emitter) = emitter_of(cycle) {
            emit_each(emitter, sets);
        }
    }
}

// The sets of the exits of an emitter, for the rows 0 to 9, 11 and 12: each has its own row alone, by its place among the points.
const ROW_SETS: [u16; 12] = [512, 256, 128, 64, 32, 16, 8, 4, 2, 1, 1024, 2048];

// The hub number of the first exit of the first emitter.
const FIRST_EXIT: u32 = 929;

// Adds each row to the set of an emitter's exit for it: its exits follow one another.
fn emit_each(emitter: u8, sets: &mut RowSets)
    requires from { 1 ≤ emitter }
    requires to { emitter ≤ 8 }
    ensures { GainsRows (emits_row (Some emitter)) sets.old sets.new }
{
    let number = FIRST_EXIT + 12 * (u32::from(emitter) - 1);
    sets.insert_sets_at(Hub::EM(emitter, 0), number, &ROW_SETS);
}

impl Unit for Emitters {
    ghost use Rattle.print_unit.specs.OwnHubs.{emitters_keep};
    ghost use Rattle.std.proofs.Common.{refl};
    ghost use Rattle.net.specs.Nothing.{closes_nothing, senses_nothing, ends_unchanged};
    ghost use Rattle.print_unit.specs.Emitters.{emitters_emit, emitters_number};

    ghost emits = { emitters_emit };

    ghost closes = { closes_nothing };

    ghost sensed = { senses_nothing };

    ghost ended = { ends_unchanged };

    ghost number = { emitters_number };

    ghost keeps_to_its_own = { emitters_keep };

    ghost emits_steadily = { λ unit cycle at other picture hub. refl };

    ghost closes_steadily = { λ unit cycle at other picture hub. refl };

    fn emit(&self, cycle: Cycle, point: Point, exits: &mut Picture) {
        if let Point::Row(row) = point {
            if let Some(emitter) = emitter_of(cycle) {
                exits.insert(Hub::EM(emitter, row.number()));
            }
        }
    }

    fn sense(&mut self, _cycle: Cycle, _point: Point, _picture: &Picture) {}

    fn end_cycle(&mut self, _cycle: Cycle) {}
}

// The emitter of a cycle, if it has one.
fn emitter_of(cycle: Cycle) -> Option<u8>
    ensures value { result ≡ emitter_of cycle }
    ensures range { IfSome result (λ emitter. (1 ≤ emitter) × (emitter ≤ 8)) }
{
    match cycle {
        Cycle::Card => Some(4),
        Cycle::Prog(level, Ordinal::Third) => Some(4 + level.number()),
        Cycle::Head(heading) => Some(heading.number()),
        Cycle::RunIn | Cycle::Prog(_, Ordinal::First | Ordinal::Second) => None,
    }
}
