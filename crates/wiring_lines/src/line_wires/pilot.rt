//! The pilots of signed amounts: their pickup, and what passes through them.

ghost use Rattle.std.specs.Prelude.{◌≡◌, ◌+◌, ◌≤◌, OnOk, None, IfSome, true, length};
ghost use Rattle.chart_lines.specs.ChartsWords.Field.{sign_column};
ghost use Rattle.hubs.specs.Hubs.{is_exit_hub, carry_out_of};
ghost use Rattle.wiring_table.specs.Figures.{rule_of, mark_text};
ghost use Rattle.wiring_lines.specs.LineWires.HelperAdds.{Adds};
ghost use Rattle.wiring_lines.specs.LineWires.HelperRows.{DetailMark, PickupWires};
ghost use Rattle.wiring_table.specs.Parts.{negative_side, positive_side};

use crate::line_wires::adding::connect;
use crate::line_wires::character::wire_character;
use chart_lines::charts::{Field, FieldKind, Mark, Name, SignRule};
use chart_plans::plans::Plan;
use hubs::Hub;
use hubs::setups::Setup;
use std::alloc::AllocError;

// The emitter of the line of a card.
const DETAIL_EMITTER: u8 = 4;

/// The sign rule of a field, if it has one.
pub fn rule_of(kind: FieldKind) -> Option<SignRule>
    ensures { result ≡ rule_of kind }
{
    match kind {
        FieldKind::Text => None,
        FieldKind::Amount { sign, .. } => sign,
    }
}

/// The characters of a mark.
pub fn mark_characters(mark: Mark) -> &'static [u8]
    ensures value { result.now ≡ mark_text mark }
    ensures few { length (mark_text mark) ≤ 2 }
{
    match mark {
        Mark::Credit => b"CR",
        Mark::Minus => b"-",
    }
}

/// The contact of a pilot's position, 1 to 3, that is closed while the sign column of its amount tells negative: by X, while it has row 11;
/// by NX, while it has none. That of a zero or a blank may tell so too, but its sign never shows.
pub fn negative_side(rule: SignRule, pilot: u8, position: u8) -> Hub
    ensures value { result ≡ negative_side rule pilot position }
    ensures exit { 1 ≤ pilot → pilot ≤ 16 → 1 ≤ position → position ≤ 3 → is_exit_hub result ≡ true }
    ensures ring { carry_out_of result ≡ None }
{
    match rule {
        SignRule::X(_) => Hub::PIT(pilot, position),
        SignRule::NX(_) => Hub::PIN(pilot, position),
    }
}

/// The contact of a pilot's position, 1 to 3, that is closed while the sign column of its amount doesn't tell negative.
pub fn positive_side(rule: SignRule, pilot: u8, position: u8) -> Hub
    ensures value { result ≡ positive_side rule pilot position }
    ensures exit { 1 ≤ pilot → pilot ≤ 16 → 1 ≤ position → position ≤ 3 → is_exit_hub result ≡ true }
    ensures ring { carry_out_of result ≡ None }
{
    match rule {
        SignRule::X(_) => Hub::PIN(pilot, position),
        SignRule::NX(_) => Hub::PIT(pilot, position),
    }
}

/// Wires the pickup of the pilot of a signed amount: its sign column at first reading.
pub fn wire_pickup(setup: &mut Setup, plan: &Plan, field: Field) -> Result<(), AllocError>
    requires { IfSome (sign_column field.kind) (λ column. (1 ≤ column) × (column ≤ 80)) }
    ensures { OnOk result (Adds (PickupWires plan.now field) setup.old setup.new) }
{
    let Some(column) = field.kind.sign_column() else {
        return Ok(());
    };
    match plan.pilot_of(field.name) {
        Some(pilot) => connect(setup, Hub::FR(column as u8), Hub::PIX(pilot)),
        None => Ok(()),
    }
}

/// Wires the mark of an amount on the line of a card, through the positions 2 and 3 of its pilot.
pub(crate) fn wire_detail_mark(
    setup: &mut Setup,
    rule: SignRule,
    pilot: u8,
    wheel: u16,
    mark: Mark,
) -> Result<(), AllocError>
    requires pilot { (1 ≤ pilot) × (pilot ≤ 16) }
    requires wheels { (1 ≤ wheel) × (wheel + length (mark_text mark) ≤ 121) }
    ensures { OnOk result (Adds (DetailMark rule pilot wheel mark) setup.old setup.new) }
{
    for (k, character) in mark_characters(mark).iter().enumerate() {
        let position = 2 + k as u8;
        let side = negative_side(rule, pilot, position);
        wire_character(setup, DETAIL_EMITTER, Hub::PIC(pilot, position), *character)?;
        connect(setup, side, Hub::W((wheel as usize + k) as u8))?;
    }
    Ok(())
}
