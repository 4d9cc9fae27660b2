//! The counter groups of a total: the places of its positions, what all its groups are told, and the carry between them.

ghost use Rattle.std.specs.Prelude.{◌≡◌, ◌+◌, ◌≤◌, None, OnOk, true};
ghost use Rattle.hubs.specs.Hubs.{carry_out_of, is_exit_hub};
ghost use Rattle.wiring_lines.specs.LineWires.HelperAdds.{Adds, One};
ghost use Rattle.wiring_totals.specs.HelperControls.{control_entry};
ghost use Rattle.wiring_totals.specs.HelperCounters.{CarryUpWires, ControlWires, IsCounterOnPanel, IsOnPanel, RingWires, place_of, positions_of};
ghost use Rattle.wiring_lines.specs.Below.wiring_table.Parts.{panel_group, top_group};

use capacity::CounterGroup;
use chart_plans::plans::TotalCounter;
use hubs::setups::Setup;
use hubs::{Group, Hub};
use std::alloc::AllocError;
use wiring_lines::line_wires::connect;

/// What every group of a counter is told alike.
#[derive(Clone, Copy)]
pub(crate) enum Control {
    /// To add.
    Plus,
    /// To subtract.
    Minus,
    /// To show its number.
    ReadOut,
}

/// A counter group of a plan as a group of the panel.
pub fn panel_group(group: CounterGroup) -> Group
    ensures { result ≡ panel_group group }
{
    Group {
        width: group.width,
        number: group.number,
    }
}

/// The group with the balance of a counter: its only one, or the upper one of two.
pub(crate) fn top_group(counter: TotalCounter) -> Group
    requires { IsCounterOnPanel counter }
    ensures value { result ≡ top_group counter }
    ensures on_panel { IsOnPanel result }
{
    match counter {
        TotalCounter::Single { group } => panel_group(group),
        TotalCounter::Coupled { upper, .. } => panel_group(upper),
    }
}

/// The group with a position of a counter, counted from 1 at the units, and its place there, counted from 1 at the units of that group.
/// The positions of two groups are first those of the lower group, then those of the upper one.
pub(crate) fn place_of(counter: TotalCounter, position: u8) -> (Group, u8)
    requires counter { IsCounterOnPanel counter }
    requires from { 1 ≤ position }
    requires to { position ≤ positions_of counter }
    ensures value { result ≡ place_of counter position }
    ensures on_panel { IsOnPanel result.0 }
    ensures from { 1 ≤ result.1 }
    ensures to { result.1 ≤ result.0.width }
{
    match counter {
        TotalCounter::Single { group } => (panel_group(group), position),
        TotalCounter::Coupled { lower, upper } => {
            if position <= lower.width {
                (panel_group(lower), position)
            } else {
                (panel_group(upper), position - lower.width)
            }
        }
    }
}

// Wires an exit to a control of one group.
fn wire_group_control(
    setup: &mut Setup,
    exit: Hub,
    control: Control,
    group: Group,
) -> Result<(), AllocError>
    requires exit { is_exit_hub exit ≡ true }
    requires no_carry { carry_out_of exit ≡ None }
    requires group { IsOnPanel group }
    ensures { OnOk result (Adds (One exit (control_entry control group)) setup.old setup.new) }
{
    match control {
        Control::Plus => connect(setup, exit, Hub::PL(group)),
        Control::Minus => connect(setup, exit, Hub::MI(group)),
        Control::ReadOut => connect(setup, exit, Hub::RO(group)),
    }
}

/// Wires an exit to a control of each group of a counter.
pub(crate) fn wire_controls(
    setup: &mut Setup,
    exit: Hub,
    control: Control,
    counter: TotalCounter,
) -> Result<(), AllocError>
    requires exit { is_exit_hub exit ≡ true }
    requires no_carry { carry_out_of exit ≡ None }
    requires counter { IsCounterOnPanel counter }
    ensures { OnOk result (Adds (ControlWires exit (control_entry control) counter) setup.old setup.new) }
{
    match counter {
        TotalCounter::Single { group } => {
            wire_group_control(setup, exit, control, panel_group(group))
        }
        TotalCounter::Coupled { lower, upper } => {
            wire_group_control(setup, exit, control, panel_group(lower))?;
            wire_group_control(setup, exit, control, panel_group(upper))
        }
    }
}

/// Wires the carry of a counter of two groups from the lower one to the upper one.
pub(crate) fn wire_carry_up(setup: &mut Setup, counter: TotalCounter) -> Result<(), AllocError>
    requires { IsCounterOnPanel counter }
    ensures { OnOk result (Adds (CarryUpWires counter) setup.old setup.new) }
{
    match counter {
        TotalCounter::Single { .. } => Ok(()),
        TotalCounter::Coupled { lower, upper } => {
            let (lower, upper) = (panel_group(lower), panel_group(upper));
            connect(setup, Hub::CO(lower), Hub::CI(upper))
        }
    }
}

/// Wires the carry of a counter round from its highest position to its lowest.
pub(crate) fn wire_ring(setup: &mut Setup, counter: TotalCounter) -> Result<(), AllocError>
    requires { IsCounterOnPanel counter }
    ensures { OnOk result (Adds (RingWires counter) setup.old setup.new) }
{
    match counter {
        TotalCounter::Single { group } => {
            let group = panel_group(group);
            connect(setup, Hub::CO(group), Hub::CI(group))
        }
        TotalCounter::Coupled { lower, upper } => {
            let (lower, upper) = (panel_group(lower), panel_group(upper));
            connect(setup, Hub::CO(upper), Hub::CI(lower))
        }
    }
}
