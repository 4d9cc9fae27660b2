//! Characters from an emitter.

ghost use Rattle.std.specs.Prelude.{◌≡◌, ◌+◌, ◌≤◌, ◌<◌, OnOk, None, length, true};
ghost use Rattle.hubs.specs.Hubs.{is_entry_hub, carry_into};
ghost use Rattle.hubs.specs.declared.hub.Hub.TheVariants.{W};
ghost use Rattle.wiring_table.specs.Figures.{mark_wheel};
ghost use Rattle.wiring_lines.specs.LineWires.HelperAdds.{Adds};
ghost use Rattle.wiring_lines.specs.LineWires.HelperRows.{ColumnWires, CharacterWires, LiteralWires, PointWires};

use crate::line_wires::adding::connect;
use card_code::{Column, ROWS};
use hubs::Hub;
use hubs::setups::Setup;
use std::alloc::AllocError;

// Wires the rows of a column from an emitter to an entry.
fn wire_rows(setup: &mut Setup, emitter: u8, entry: Hub, column: Column) -> Result<(), AllocError>
    requires emitter { (1 ≤ emitter) × (emitter ≤ 8) }
    requires entry { is_entry_hub entry ≡ true }
    requires ring { carry_into entry ≡ None }
    ensures { OnOk result (Adds (ColumnWires emitter entry column) setup.old setup.new) }
{
    for row in ROWS {
        if column.has_row(row) {
            connect(setup, Hub::EM(emitter, row.number()), entry)?;
        }
    }
    Ok(())
}

/// Wires the rows of a character from an emitter to an entry; a blank has none.
pub fn wire_character(
    setup: &mut Setup,
    emitter: u8,
    entry: Hub,
    character: u8,
) -> Result<(), AllocError>
    requires emitter { (1 ≤ emitter) × (emitter ≤ 8) }
    requires entry { is_entry_hub entry ≡ true }
    requires ring { carry_into entry ≡ None }
    ensures { OnOk result (Adds (CharacterWires emitter entry character) setup.old setup.new) }
{
    match Column::of_char(character as char) {
        Some(column) => wire_rows(setup, emitter, entry, column),
        None => Ok(()),
    }
}

/// Wires the characters of a literal from an emitter to as many wheels.
pub fn wire_literal(
    setup: &mut Setup,
    emitter: u8,
    wheel: u16,
    text: &[u8],
) -> Result<(), AllocError>
    requires emitter { (1 ≤ emitter) × (emitter ≤ 8) }
    requires wheels { (1 ≤ wheel) × (wheel + length text.now ≤ 121) }
    ensures { OnOk result (Adds (LiteralWires emitter wheel text.now) setup.old setup.new) }
{
    for (j, character) in text.iter().enumerate() {
        let entry = Hub::W((wheel as usize + j) as u8);
        wire_character(setup, emitter, entry, *character)?;
    }
    Ok(())
}

/// Wires the point of an amount with decimals from an emitter to its wheel.
pub fn wire_point(
    setup: &mut Setup,
    emitter: u8,
    wheel: u16,
    digits: u16,
    decimals: u16,
) -> Result<(), AllocError>
    requires emitter { (1 ≤ emitter) × (emitter ≤ 8) }
    requires decimals { decimals ≤ digits }
    requires first { 1 ≤ wheel }
    requires last { mark_wheel wheel digits decimals ≤ 121 }
    ensures { OnOk result (Adds (PointWires emitter wheel digits decimals) setup.old setup.new) }
{
    if decimals > 0 {
        let entry = Hub::W((wheel + digits - decimals) as u8);
        wire_character(setup, emitter, entry, b'.')
    } else {
        Ok(())
    }
}
