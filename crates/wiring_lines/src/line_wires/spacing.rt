//! The carriage: spacing, and what follows a line.

ghost use Rattle.std.specs.Prelude.{◌≡◌, ◌≤◌, OnOk, None, true};
ghost use Rattle.hubs.specs.Hubs.{is_exit_hub, is_entry_hub, carry_out_of, carry_into};
ghost use Rattle.wiring_lines.specs.LineWires.HelperAdds.{Adds};
ghost use Rattle.wiring_lines.specs.LineWires.HelperRanges.{HasChannel};
ghost use Rattle.wiring_lines.specs.LineWires.HelperRows.{SpaceWires, AfterWires, entry_of_action};
ghost use Rattle.wiring_table.specs.Parts.{source_of};

use crate::line_wires::adding::connect;
use chart_lines::charts::{After, BodyLine, Spacing};
use hubs::Hub;
use hubs::setups::Setup;
use std::alloc::AllocError;

// The exit that tells of the cycle that prints a kind of body line.
fn source_of(line: BodyLine) -> Hub
    ensures value { result ≡ source_of line }
    ensures exit { is_exit_hub result ≡ true }
    ensures ring { carry_out_of result ≡ None }
{
    match line {
        BodyLine::Detail => Hub::CC,
        BodyLine::Total(level) => Hub::PX(level.number(), 3),
    }
}

// The entry of the carriage that does what follows a line.
fn entry_of_action(action: After) -> Hub
    requires { HasChannel action }
    ensures value { result ≡ entry_of_action action }
    ensures entry { is_entry_hub result ≡ true }
    ensures ring { carry_into result ≡ None }
{
    match action {
        After::Page => Hub::RS,
        After::Skip(channel) => Hub::SK(channel as u8),
    }
}

/// Wires the spacing of a kind of line, if it is not single.
pub fn wire_space(setup: &mut Setup, line: BodyLine, spacing: Spacing) -> Result<(), AllocError>
    ensures { OnOk result (Adds (SpaceWires line spacing) setup.old setup.new) }
{
    let lines = spacing.number();
    if lines > 1 {
        connect(setup, source_of(line), Hub::SP(lines))
    } else {
        Ok(())
    }
}

/// Wires what follows a kind of line.
pub fn wire_after(setup: &mut Setup, line: BodyLine, action: After) -> Result<(), AllocError>
    requires { HasChannel action }
    ensures { OnOk result (Adds (AfterWires line action) setup.old setup.new) }
{
    connect(setup, source_of(line), entry_of_action(action))
}
