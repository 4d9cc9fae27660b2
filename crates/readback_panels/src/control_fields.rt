//! Control fields, and the texts on total lines that show them.

ghost use Rattle.std.specs.Prelude.{◌≡◌, OnOk};
ghost use Rattle.chart_lines.specs.declared.charts.level.Level.{Level};
ghost use Rattle.chart_lines.specs.declared.charts.statement.BodyLine.TheVariants.{Total};
ghost use Rattle.readback_panels.specs.Items.{Gains, IsTotalText};
ghost use Rattle.readback_panels.specs.Shown.{KeepsFields};
ghost use Rattle.readback_panels.specs.declared.draft.PrintedLine.TheVariants.{Body};

use crate::compared::{Division, Interval, compared_of, divided};
use crate::draft::{Control, Draft, DraftField, Item, PrintedLine, Said};
use crate::total_texts::{TotalText, total_texts};
use chart_lines::charts::{BodyLine, ControlLevel, FieldKind, Level};
use hubs::setups::Setup;
use std::alloc::{AllocError, Global};

// The total line of a level.
fn total_line(level: ControlLevel) -> PrintedLine
    ensures { (of : Level) × (result ≡ Body (Total of)) }
{
    PrintedLine::Body(BodyLine::Total(match level {
        ControlLevel::Minor => Level::Minor,
        ControlLevel::Intermediate => Level::Intermediate,
        ControlLevel::Major => Level::Major,
    }))
}

// A text field of these columns.
fn text_field(first: u8, last: u8) -> DraftField {
    DraftField {
        first,
        last,
        kind: FieldKind::Text,
        pilot: None,
    }
}

// Whether a field is free for a control field: it controls not yet its level, and stands not yet on the lines of the texts that it serves.
fn is_free(
    draft: &Draft,
    place: usize,
    division: &Division,
    texts: &[TotalText],
    interval: usize,
    level: ControlLevel,
) -> bool {
    if draft.has_control(level, place) {
        return false;
    }
    for (text, serving) in texts.iter().zip(&division.serving) {
        if *serving == interval && draft.is_on(total_line(text.level), place) {
            return false;
        }
    }
    true
}

// The place of the first text field of the columns of a control field that is free for it, else of a new one.
fn control_field(
    draft: &mut Draft,
    division: &Division,
    texts: &[TotalText],
    interval: usize,
    its: Interval,
) -> Result<usize, AllocError>
    ensures items { draft.new.items ≡ draft.old.items }
    ensures kept { OnOk result (KeepsFields draft.old draft.new) }
{
    let wanted = text_field(its.first, its.last);
    for place in 0..draft.fields.len() {
        if draft.fields[place] == wanted
            && is_free(draft, place, division, texts, interval, its.level)
        {
            return Ok(place);
        }
    }
    draft.add_field(wanted)
}

// Puts a text on its total line.
fn put_text(draft: &mut Draft, field: usize, text: TotalText) -> Result<(), AllocError>
    ensures gained { OnOk result (Gains IsTotalText draft.old draft.new) }
    ensures kept { OnOk result (KeepsFields draft.old draft.new) }
{
    draft.put(Item {
        line: total_line(text.level),
        first: text.wheel,
        last: text.last_wheel,
        said: Said::Text {
            field,
            indicated: None,
        },
    })
}

// Adds a control field, and puts the texts that it serves on their lines.
fn add_control(
    draft: &mut Draft,
    division: &Division,
    texts: &[TotalText],
    interval: usize,
    its: Interval,
) -> Result<(), AllocError>
    ensures gained { OnOk result (Gains IsTotalText draft.old draft.new) }
    ensures kept { OnOk result (KeepsFields draft.old draft.new) }
{
    let field = control_field(draft, division, texts, interval, its)?;
    let level = its.level;
    draft.controls.push(Control { level, field })?;
    for (text, serving) in texts.iter().zip(&division.serving) {
        if *serving == interval {
            put_text(draft, field, *text)?;
        }
    }
    Ok(())
}

// Adds the control fields of a level that begin with a column.
fn add_controls_at(
    draft: &mut Draft,
    division: &Division,
    texts: &[TotalText],
    level: ControlLevel,
    column: u8,
) -> Result<(), AllocError>
    ensures gained { OnOk result (Gains IsTotalText draft.old draft.new) }
    ensures kept { OnOk result (KeepsFields draft.old draft.new) }
{
    for (place, interval) in division.intervals.iter().enumerate() {
        if interval.level == level && interval.first == column {
            add_control(draft, division, texts, place, *interval)?;
        }
    }
    Ok(())
}

// Puts the texts that no control field serves on their lines, each a field of its own.
fn put_unserved(
    draft: &mut Draft,
    division: &Division,
    texts: &[TotalText],
) -> Result<(), AllocError>
    ensures gained { OnOk result (Gains IsTotalText draft.old draft.new) }
    ensures kept { OnOk result (KeepsFields draft.old draft.new) }
{
    if division.serving.is_empty() {
        for text in texts {
            let field = draft.add_field(text_field(text.first, text.last))?;
            put_text(draft, field, *text)?;
        }
    }
    Ok(())
}

/// Adds the control fields of a setup, the highest level first and each level by columns, and puts the texts on total lines on theirs.
pub(crate) fn put_controls(
    alloc: Global,
    setup: &Setup,
    draft: &mut Draft,
) -> Result<(), AllocError>
    ensures gained { OnOk result (Gains IsTotalText draft.old draft.new) }
    ensures kept { OnOk result (KeepsFields draft.old draft.new) }
{
    let texts = total_texts(alloc, setup)?;
    let compared = compared_of(alloc, setup)?;
    let division = divided(alloc, compared.as_slice(), texts.as_slice())?;
    for level in [
        ControlLevel::Major,
        ControlLevel::Intermediate,
        ControlLevel::Minor,
    ] {
        for column in 1..81 {
            add_controls_at(draft, &division, texts.as_slice(), level, column)?;
        }
    }
    put_unserved(draft, &division, texts.as_slice())
}
