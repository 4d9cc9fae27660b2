//! The texts of total lines: storage units.

ghost use Rattle.std.specs.Prelude.{◌≡◌, ◌+◌, ◌≤◌, OnOk};
ghost use Rattle.chart_rules.specs.HelperOnCard.{IsOnCard};
ghost use Rattle.chart_lines.specs.ChartsWords.Field.{columns_of};
ghost use Rattle.wiring_lines.specs.LineWires.HelperAdds.{Adds, OfSome};
ghost use Rattle.wiring_totals.specs.HelperTotalRows.{StoredColumns, TotalTextWires};
ghost use Rattle.wiring_lines.specs.Below.wiring_table.Parts.{unit_for};

use chart_lines::charts::{Field, Level};
use chart_plans::plans::Plan;
use hubs::Hub;
use hubs::setups::Setup;
use std::alloc::AllocError;
use wiring_lines::line_wires::connect;

// Wires the columns of a text through a storage unit to as many wheels.
fn wire_stored(setup: &mut Setup, unit: u8, wheel: u16, field: Field) -> Result<(), AllocError>
    requires unit { (1 ≤ unit) × (unit ≤ 4) }
    requires card { IsOnCard field }
    requires narrow { columns_of field ≤ 16 }
    requires wheels { (1 ≤ wheel) × (wheel + columns_of field ≤ 121) }
    ensures { OnOk result (Adds (StoredColumns unit wheel field) setup.old setup.new) }
{
    let (wheel, first) = (wheel as u8, field.first as u8);
    for j in 0..field.columns() as u8 {
        connect(setup, Hub::SR(first + j), Hub::SE(unit, j + 1))?;
        connect(setup, Hub::SX(unit, j + 1), Hub::W(wheel + j))?;
    }
    Ok(())
}

/// Wires a text on a total line: its storage unit takes it from each card, and gives it in the cycle that prints the line.
pub fn wire_total_text(
    setup: &mut Setup,
    plan: &Plan,
    line: u16,
    level: Level,
    wheel: u16,
    field: Field,
) -> Result<(), AllocError>
    requires card { IsOnCard field }
    requires narrow { columns_of field ≤ 16 }
    requires wheels { (1 ≤ wheel) × (wheel + columns_of field ≤ 121) }
    ensures { OnOk result (Adds
        (OfSome (unit_for plan.now line) (λ unit. TotalTextWires level unit wheel field)) setup.old setup.new) }
{
    let Some(unit) = plan.storage_unit(line) else {
        return Ok(());
    };
    connect(setup, Hub::CC, Hub::SI(unit))?;
    connect(setup, Hub::PX(level.number(), 3), Hub::SO(unit))?;
    wire_stored(setup, unit, wheel, field)
}
