//! Control fields: comparing consecutive cards.

ghost use Rattle.std.specs.Prelude.{◌≡◌, ◌+◌, ◌≤◌, ◌<◌, OnOk};
ghost use Rattle.chart_rules.specs.HelperOnCard.{IsOnCard};
ghost use Rattle.wiring_lines.specs.LineWires.HelperAdds.{Adds};
ghost use Rattle.wiring_lines.specs.LineWires.HelperRows.{ComparedColumn, ComparedWires, PickupWires};

use crate::line_wires::adding::connect;
use chart_lines::charts::{ControlLevel, Field};
use chart_plans::plans::Plan;
use chart_plans::wanted::Position;
use hubs::Hub;
use hubs::setups::Setup;
use std::alloc::AllocError;

// Wires a column of a control field at both readings to its comparing position, and that to the program of a level.
fn wire_compared(
    setup: &mut Setup,
    plan: &Plan,
    level: ControlLevel,
    at: Position,
) -> Result<(), AllocError>
    requires { (1 ≤ at.column) × (at.column ≤ 80) }
    ensures { OnOk result (Adds (ComparedColumn plan.now level at.line at.column) setup.old setup.new) }
{
    let Some(position) = plan.comparing_position(at) else {
        return Ok(());
    };
    let column = at.column as u8;
    connect(setup, Hub::FR(column), Hub::CA(position))?;
    connect(setup, Hub::SR(column), Hub::CB(position))?;
    connect(setup, Hub::CX(position), Hub::ST(level.number()))
}

/// Wires the columns of a control field of a line of the chart.
pub fn wire_control(
    setup: &mut Setup,
    plan: &Plan,
    level: ControlLevel,
    line: u16,
    field: Field,
) -> Result<(), AllocError>
    requires { IsOnCard field }
    ensures { OnOk result (Adds (ComparedWires plan.now level line field) setup.old setup.new) }
{
    let first = field.first;
    for j in 0..field.columns() as u16 {
        let column = first + j;
        wire_compared(setup, plan, level, Position { line, column })?;
    }
    Ok(())
}
