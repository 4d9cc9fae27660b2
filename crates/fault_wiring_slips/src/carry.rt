//! Carries that the panel can't have.

ghost use Rattle.std.specs.Prelude.{◌≡◌, Some};
ghost use Rattle.hubs.specs.Carries.{may_carry};
ghost use Rattle.fault_wiring_slips.specs.CarrySlips as law;

use crate::hub::letters_in;
use crate::meeting::{CarryWire, Meeting, carry_of, first_met};
use chart_lines::tokens::is;
use fault_slips::line_marks::word;
use hubs::is_one_group;

/// Why the panel can't have the carry that a line wires.
#[derive(Clone, Copy, Debug, PartialEq, Eq)]
pub enum CarrySlip {
    /// A carry exit leads to an entry that is no carry's.
    Leads,
    /// A carry entry is fed by an exit that is no carry's.
    Comes,
    /// The groups are not one, and not both of 8 positions.
    Groups,
    /// It can't be there together with the carry that the line with this number wires.
    Meets(Option<u64>),
}

/// Whether a carry may leave one group and enter another, as far as these two go.
fn may_carry(wire: CarryWire) -> bool
    ensures { result ≡ may_carry (Some wire.from) (Some wire.to) }
{
    is_one_group(wire.from, wire.to) || (wire.from.width == 8 && wire.to.width == 8)
}

/// Why the panel can't have the carry that a line wires, beside the lines of a text that it has.
#[tactic(auto, unfolding(crate::specs::CarrySlips::carry_slip))]
pub fn carry_slip(line: &[u8], good: &[u8]) -> CarrySlip
    ensures { result ≡ law.carry_slip line.now good.now }
{
    match carry_of(line) {
        Some(wire) if may_carry(wire) => { CarrySlip::Meets(first_met(Meeting::Carry, line, good)) }
        Some(_) => CarrySlip::Groups,
        None if is(letters_in(word(line, 1)), b"CO") => CarrySlip::Leads,
        None => CarrySlip::Comes,
    }
}
