//! The notes on a way: what its exit stands for, and why each contact on it was closed.

ghost use Rattle.std.specs.Prelude.{◌≡◌, ◌<◌, ◌+◌, ◌++◌, OnOk};
ghost use Rattle.std.specs.String.{string_bytes};
ghost use Rattle.hubs.specs.HubText.{group_text};
ghost use Rattle.net.specs.HubSets.{has_hub};
ghost use Rattle.machine.specs.Kept.{kept_at};
ghost use Rattle.explain_words.specs.ExplanationText.Notes.{article, contact_note, counted, cycle_words, digit_text, emitter_words, exit_note, exit_words, held_text, notes, ordinal_word, punch_words, read_out_words, reason_words, step_note, step_notes, stored_words, way_lines};

use crate::explanation_text::lines::write_row_line;
use crate::explanation_text::names::{is_contact_exit, row_at};
use chart_numerals::{push_between, push_number, push_numbered};
use hubs::{Group, Hub, write_hub};
use machine::KeptPoint;
use net::{Cycle, Ordinal};
use std::alloc::AllocError;

/// A cycle of a run, as the notes on the ways of its impulses tell of it.
#[derive(Clone, Copy)]
pub struct WayCycle<'a> {
    /// The number of the card that the cycle belongs to, counted from 1: it stands at second reading.
    pub card: u32,
    /// Which cycle it was.
    pub cycle: Cycle,
    /// Its points in their order.
    pub points: &'a [KeptPoint; 14],
}

/// Writes the lines of a way by which an impulse came at a row of a cycle: the way, hub by hub, and its notes. The place is that of the row in the order of
/// the points, 9 to 0, 11, 12. Fails only if no memory is left.
pub fn write_way_lines(
    text: &mut String,
    cycle: &WayCycle,
    place: usize,
    way: &[Hub],
) -> Result<(), AllocError>
    requires { place < 12 }
    ensures { OnOk result (string_bytes text.new
        ≡ string_bytes text.old ++ way_lines cycle.now.card cycle.now.cycle cycle.now.points.now place way.now) }
{
    write_row_line(text, place, way)?;
    write_notes(text, cycle, place, way)
}

// The notes on a way to the row of a place.
fn write_notes(
    text: &mut String,
    cycle: &WayCycle,
    place: usize,
    way: &[Hub],
) -> Result<(), AllocError>
    requires { place < 12 }
    ensures { OnOk result (string_bytes text.new
        ≡ string_bytes text.old ++ notes cycle.now.card cycle.now.cycle cycle.now.points.now place way.now) }
{
    let Some((exit, others)) = way.split_first() else {
        return Ok(());
    };
    write_exit_note(text, cycle, place, *exit)?;
    write_step_notes(text, *exit, others)
}

// What an exit that emitted at the row of a place stands for.
fn write_exit_note(
    text: &mut String,
    cycle: &WayCycle,
    place: usize,
    exit: Hub,
) -> Result<(), AllocError>
    requires { place < 12 }
    ensures { OnOk result (string_bytes text.new
        ≡ string_bytes text.old ++ exit_note cycle.now.card cycle.now.cycle cycle.now.points.now place exit) }
{
    text.push_str("  ")?;
    write_hub(text, exit)?;
    write_exit_words(text, cycle, row_at(place), exit)?;
    text.push_str("\n")
}

// What an exit that emitted at a row stands for, behind its name.
fn write_exit_words(
    text: &mut String,
    cycle: &WayCycle,
    row: u8,
    exit: Hub,
) -> Result<(), AllocError>
    ensures { OnOk result (string_bytes text.new
        ≡ string_bytes text.old ++ exit_words cycle.now.card cycle.now.cycle cycle.now.points.now row exit) }
{
    match exit {
        Hub::SR(column) => write_punch(text, column, u64::from(cycle.card), row),
        Hub::FR(column) => write_punch(text, column, u64::from(cycle.card) + 1, row),
        Hub::EM(emitter, _) => write_emitter(text, emitter, row, cycle.cycle),
        Hub::GX(group, _) => write_read_out(text, cycle.points, group),
        Hub::SX(unit, column) => write_stored(text, unit, column, row),
        _ => Ok(()),
    }
}

// That a column of a card is punched in a row.
fn write_punch(text: &mut String, column: u8, card: u64, row: u8) -> Result<(), AllocError>
    ensures { OnOk result (string_bytes text.new ≡ string_bytes text.old ++ punch_words column card row) }
{
    push_numbered(text, ": column ", column)?;
    push_between(text, " of card ", card, " has ")?;
    write_counted(text, row)
}

// That an emitter sends a row.
fn write_emitter(text: &mut String, emitter: u8, row: u8, cycle: Cycle) -> Result<(), AllocError>
    ensures { OnOk result (string_bytes text.new ≡ string_bytes text.old ++ emitter_words emitter row cycle) }
{
    push_numbered(text, ": emitter ", emitter)?;
    push_between(text, " sends row ", row, " in ")?;
    write_cycle(text, cycle)
}

// That a counter group is read out, and its digits.
fn write_read_out(
    text: &mut String,
    points: &[KeptPoint; 14],
    group: Group,
) -> Result<(), AllocError>
    ensures { OnOk result (string_bytes text.new ≡ string_bytes text.old ++ read_out_words points.now group) }
{
    text.push_str(": group ")?;
    write_group(text, group)?;
    text.push_str(" held ")?;
    write_held(text, points, group)?;
    text.push_str(", and is read out")
}

// That a storage unit is read out, and what it holds in a column.
fn write_stored(text: &mut String, unit: u8, column: u8, row: u8) -> Result<(), AllocError>
    ensures { OnOk result (string_bytes text.new ≡ string_bytes text.old ++ stored_words unit column row) }
{
    push_between(text, ": storage ", unit, " holds ")?;
    write_counted(text, row)?;
    push_between(text, " in column ", column, ", and is read out")
}

// The width and the number of a counter group.
fn write_group(text: &mut String, group: Group) -> Result<(), AllocError>
    ensures { OnOk result (string_bytes text.new ≡ string_bytes text.old ++ group_text group) }
{
    push_number(text, group.width)?;
    push_numbered(text, ".", group.number)
}

// What stands before a punch or a digit.
fn article(row: u8) -> &'static str
    ensures { result.now ≡ article row }
{
    if row == 8 || row == 11 { "an " } else { "a " }
}

// A punch or a digit with its article.
fn write_counted(text: &mut String, row: u8) -> Result<(), AllocError>
    ensures { OnOk result (string_bytes text.new ≡ string_bytes text.old ++ counted row) }
{
    push_numbered(text, article(row), row)
}

// A cycle in words.
fn write_cycle(text: &mut String, cycle: Cycle) -> Result<(), AllocError>
    ensures { OnOk result (string_bytes text.new ≡ string_bytes text.old ++ cycle_words cycle) }
{
    match cycle {
        Cycle::RunIn => text.push_str("the run-in"),
        Cycle::Card => text.push_str("card cycles"),
        Cycle::Prog(level, ordinal) => {
            text.push_str(ordinal_word(ordinal))?;
            push_numbered(text, " cycle of level ", level.number())
        }
        Cycle::Head(heading) => {
            text.push_str(ordinal_word(heading))?;
            text.push_str(" heading cycle")
        }
    }
}

// First, second or third.
fn ordinal_word(ordinal: Ordinal) -> &'static str
    ensures { result.now ≡ ordinal_word ordinal }
{
    match ordinal {
        Ordinal::First => "the first",
        Ordinal::Second => "the second",
        Ordinal::Third => "the third",
    }
}

// The digits of a counter group that is read out, by what its exits emitted in the cycle.
fn write_held(text: &mut String, points: &[KeptPoint; 14], group: Group) -> Result<(), AllocError>
    ensures { OnOk result (string_bytes text.new ≡ string_bytes text.old ++ held_text points.now group) }
{
    for down in 0..group.width {
        write_digit(text, points, Hub::GX(group, group.width - down))?;
    }
    Ok(())
}

// The digit of a counter position: the row at which its exit emitted.
fn write_digit(text: &mut String, points: &[KeptPoint; 14], exit: Hub) -> Result<(), AllocError>
    ensures { OnOk result (string_bytes text.new ≡ string_bytes text.old ++ digit_text points.now exit) }
{
    for place in 0..10 {
        if has_emitted(points, place, exit) {
            return push_number(text, row_at(place));
        }
    }
    Ok(())
}

// Whether an exit emitted at the row of a place.
fn has_emitted(points: &[KeptPoint; 14], place: usize, exit: Hub) -> bool
    requires { place < 12 }
    ensures { result ≡ has_hub (kept_at points.now (place + 1)).exits exit }
{
    points[place + 1].exits.has(exit)
}

// The notes on the steps from a hub to others, one after another.
fn write_step_notes(text: &mut String, exit: Hub, others: &[Hub]) -> Result<(), AllocError>
    ensures { OnOk result (string_bytes text.new ≡ string_bytes text.old ++ step_notes exit others.now) }
{
    let mut hub = exit;
    for next in others {
        write_step_note(text, hub, *next)?;
        hub = *next;
    }
    Ok(())
}

// What is noted of the step from one hub to the next: why the contact between them was closed. Of a wire nothing is.
fn write_step_note(text: &mut String, hub: Hub, next: Hub) -> Result<(), AllocError>
    ensures { OnOk result (string_bytes text.new ≡ string_bytes text.old ++ step_note hub next) }
{
    if is_contact_exit(next) {
        write_contact_note(text, hub, next)
    } else {
        Ok(())
    }
}

// Why the contact from a hub to an exit was closed.
fn write_contact_note(text: &mut String, common: Hub, exit: Hub) -> Result<(), AllocError>
    ensures { OnOk result (string_bytes text.new ≡ string_bytes text.old ++ contact_note common exit) }
{
    text.push_str("  ")?;
    write_hub(text, common)?;
    text.push_str(" => ")?;
    write_hub(text, exit)?;
    write_reason(text, exit)?;
    text.push_str("\n")
}

// A counter group between words.
fn write_of_group(
    text: &mut String,
    before: &str,
    group: Group,
    behind: &str,
) -> Result<(), AllocError>
    ensures { OnOk result (string_bytes text.new ≡ string_bytes text.old ++ (before.now ++ group_text group ++ behind.now)) }
{
    text.push_str(before)?;
    write_group(text, group)?;
    text.push_str(behind)
}

// Why the contact that leads to an exit was closed.
fn write_reason(text: &mut String, exit: Hub) -> Result<(), AllocError>
    ensures { OnOk result (string_bytes text.new ≡ string_bytes text.old ++ reason_words exit) }
{
    match exit {
        Hub::BAT(group, _) => {
            write_of_group(text, ": the balance latch of group ", group, " is set")
        }
        Hub::BAN(group, _) => {
            write_of_group(text, ": the balance latch of group ", group, " is not set")
        }
        Hub::PIT(pilot, _) => push_between(text, ": pilot ", pilot, " is transferred"),
        Hub::PIN(pilot, _) => push_between(text, ": pilot ", pilot, " is normal"),
        Hub::IX(level, _) => push_numbered(
            text,
            ": the card is the first of a group of level ",
            level,
        ),
        Hub::CSD(split) => {
            push_between(text, ": split ", split, " leads there at the rows 9 to 0")
        }
        Hub::CSZ(split) => push_between(
            text,
            ": split ",
            split,
            " leads there at the rows 11 and 12",
        ),
        _ => Ok(()),
    }
}
