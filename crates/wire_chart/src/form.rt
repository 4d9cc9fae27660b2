//! The forms of the lines of wires.

ghost use Rattle.std.specs.Prelude.{◌≡◌, ◌↔◌, IsTrue};
ghost use Rattle.wire_chart.specs.WrittenText.{carry_form, wire_form};

use hubs::{Group, Hub, carry_into, carry_out_of, is_one_group};
use wiring_text::Version;

/// The form of the line of a wire.
#[derive(Clone, Copy, Debug, PartialEq, Eq)]
pub enum WireForm {
    /// `RING`, in version 2: from the carry exit of a counter group to its carry entry.
    Ring,
    /// `COUPLE`, in version 2: from the carry exit of a counter group to the carry entry of another.
    Couple,
    /// `WIRE`: any other wire, and in version 1 each wire.
    Plain,
}

// The form of the line of a wire.
pub(crate) fn wire_form(version: Version, exit: Hub, entry: Hub) -> WireForm
    ensures { result ≡ wire_form version (exit, entry) }
{
    match version {
        Version::First => WireForm::Plain,
        Version::Second => carry_form(carry_out_of(exit), carry_into(entry)),
    }
}

// The form of the line of a wire that leaves and enters these counter groups as a carry.
fn carry_form(from: Option<Group>, to: Option<Group>) -> WireForm
    ensures { result ≡ carry_form from to }
{
    match (from, to) {
        (Some(from), Some(to)) if is_one_group(from, to) => WireForm::Ring,
        (Some(_), Some(_)) => WireForm::Couple,
        _ => WireForm::Plain,
    }
}

// Whether two forms are the same.
pub(crate) fn is_same_form(one: WireForm, other: WireForm) -> bool
    ensures { IsTrue result ↔ (one ≡ other) }
{
    one == other
}
