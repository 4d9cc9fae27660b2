//! The print wheels, unit 43: each prints the character of the rows that it received in a cycle.

ghost use Rattle.std.specs.Prelude.{◌≡◌, ℕ, ◌<◌, ◌&&◌, List};
ghost use Rattle.net.specs.HubSets.{is_bit};
ghost use Rattle.print_unit.specs.WheelWords.{hides, received_at, HasPrinted};
ghost use Rattle.print_unit.specs.ZeroControl.{has_zero_control};

use crate::characters::Characters;
use crate::line::{BITS, hide, print, receive, receive_runs, take_row};
use crate::wheel_words::{WHEELS, WheelJack, plugged};
use crate::zero_control::hidden;
use card_code::CARD_COLUMNS;
use hubs::Hub;
use hubs::setups::Setup;
use net::{Cycle, Picture, Point, RowSets, Straight, Unit};
use std::marker::Model;

/// The print wheels 1 to 120.
///
/// In every cycle a wheel collects the rows at whose points its hub is impulsed; at the end of the cycle the line is made.
/// They emit nothing and have no contacts.
#[derive(Debug, Drop)]
pub struct Wheels {
    // For each wheel the rows that it received in this cycle, by their places among the points.
    sets: [u16; BITS],
    // The wheels whose jacks are plugged.
    link: u128,
    suppress: u128,
    symbol: u128,
    // What each set of rows prints.
    characters: Characters,
    // The characters of the cycle that ended last.
    line: [u8; WHEELS],
}

impl Model for Wheels {
    ghost use Rattle.print_unit.specs.Wheels.{WheelsState};

    ghost Value = { WheelsState };

    ghost use Rattle.print_unit.specs.WheelWords.{state_of};

    ghost view = { state_of };
}

impl Wheels {
    ghost use Rattle.std.specs.Prelude.{◌≡◌, ℕ, ◌+◌, ◌<◌, All, Bool};
    ghost use Rattle.card_code.specs.Rows.{passing_place};
    ghost use Rattle.card_code.specs.declared.row.Row.{Row as CardRow};
    ghost use Rattle.hubs.specs.declared.hub.Hub.TheVariants.{W};
    ghost use Rattle.net.specs.RowSets.{after_rows, pictures_of};
    ghost use Rattle.net.specs.Straight.{IsInside, is_brought};
    ghost use Rattle.net.specs.declared.cycle.Point.TheVariants.{Row};
    ghost use Rattle.print_unit.specs.Wheels.{wheels_at_start, wheels_sensed};

    /// The wheels of a setup with nothing received, and a blank line.
    pub fn new(setup: &Setup) -> Self
        ensures { result ≡ wheels_at_start setup.now }
    {
        Wheels {
            sets: [0; BITS],
            link: plugged(setup, WheelJack::Link),
            suppress: plugged(setup, WheelJack::Suppress),
            symbol: plugged(setup, WheelJack::Symbol),
            characters: Characters::new(),
            line: [b' '; WHEELS],
        }
    }

    /// The characters of the wheels 1 to 120 in the cycle that ended last, printing or not: blanks before any.
    pub fn line(&self) -> &[u8; WHEELS]
        ensures { result.now ≡ self.now.line }
    {
        &self.line
    }

    /// Senses the points of all rows at once.
    pub fn sense_rows(&mut self, _cycle: Cycle, pictures: &RowSets)
        ensures { self.new ≡ after_rows wheels_sensed _cycle (pictures_of pictures.now) self.old }
    {
        receive(&mut self.sets, 0, WHEELS, pictures.from(Hub::W(1)));
    }

    /// Senses the points of all rows at once, if rows come to the wheels by these runs of wires alone. `columns` has the set of rows of each
    /// column of the card; the runs lead from columns 0 to 79 to wheels 0 to 119.
    pub fn receive_columns(&mut self, runs: &[Straight], columns: &[u16; CARD_COLUMNS])
        requires { All IsInside runs.now }
        ensures { (cycle : Cycle) (pictures : Point → Hub → Bool)
            → ((row : CardRow) (wheel : ℕ) → wheel < 120
            → pictures (Row row) (W (wheel + 1)) ≡ is_brought columns.now runs.now wheel (passing_place row))
            → self.new ≡ after_rows wheels_sensed cycle pictures self.old }
    {
        receive_runs(&mut self.sets, runs, columns);
    }
}

impl Unit for Wheels {
    ghost use Rattle.print_unit.specs.OwnHubs.{wheels_keep};
    ghost use Rattle.std.proofs.Common.{refl};
    ghost use Rattle.net.specs.Nothing.{emits_nothing, closes_nothing};
    ghost use Rattle.print_unit.specs.Wheels.{wheels_sensed, wheels_ended, wheels_number};

    ghost emits = { emits_nothing };

    ghost closes = { closes_nothing };

    ghost sensed = { wheels_sensed };

    ghost ended = { wheels_ended };

    ghost number = { wheels_number };

    ghost keeps_to_its_own = { wheels_keep };

    ghost emits_steadily = { λ unit cycle at other picture hub. refl };

    ghost closes_steadily = { λ unit cycle at other picture hub. refl };

    fn emit(&self, _cycle: Cycle, _point: Point, _exits: &mut Picture) {}

    fn sense(&mut self, _cycle: Cycle, point: Point, picture: &Picture) {
        if let Point::Row(row) = point {
            take_row(&mut self.sets, picture.row(Hub::W(1)), row.place());
        }
    }

    fn end_cycle(&mut self, cycle: Cycle) {
        print(&self.characters, &self.sets, &mut self.line);
        let control = has_zero_control(cycle);
        let hidden = hidden_by(control, &self.line, self.link, self.suppress, self.symbol);
        hide(hidden, &mut self.line);
        self.sets = [0; BITS];
    }
}

// The wheels that zero control makes blank, if it works in the cycle, by the characters of what they received. Where no wheel has a jack
// for it none is looked at.
fn hidden_by(control: bool, line: &[u8; WHEELS], link: u128, suppress: u128, symbol: u128) -> u128
    ensures { (sets : List ℕ) → HasPrinted sets 120 line.now → (k : ℕ) → k < 120
        → is_bit result k ≡ (control && hides (received_at sets) link suppress symbol k) }
{
    if suppress | symbol == 0 {
        return 0;
    }
    hidden(control, line, link, suppress, symbol)
}

// Zero control works in card and program cycles.
fn has_zero_control(cycle: Cycle) -> bool
    ensures { result ≡ has_zero_control cycle }
{
    match cycle {
        Cycle::Card | Cycle::Prog(_, _) => true,
        Cycle::RunIn | Cycle::Head(_) => false,
    }
}
