//! Writing a draft as the text of a planning chart.

ghost use Rattle.std.specs.Prelude.{IfOk, string_bytes};
ghost use Rattle.readback_panels.specs.Lines.{IsFramed};

use crate::draft::{Draft, DraftField, Item, PrintedLine, Said};
use crate::lines::DraftLine;
use crate::names::names_of;
use chart_lines::charts::{
    After, BodyLine, ControlLevel, FieldKind, MAX_STOPS, Mark, Printing, SignRule, Spacing,
};
use chart_numerals::{push_number, push_numbered};
use hubs::setups::Tape;
use std::alloc::{AllocError, Global};

// Writes the name of the field at a place.
fn write_name(text: &mut String, names: &[String], place: usize) -> Result<(), AllocError> {
    match names.get(place) {
        Some(name) => text.push_str(name.as_str()),
        None => Ok(()),
    }
}

// Writes what the columns of a field hold.
fn write_kind(text: &mut String, field: DraftField) -> Result<(), AllocError> {
    match field.kind {
        FieldKind::Text => text.push_str(" TEXT")?,
        FieldKind::Amount { .. } => text.push_str(" AMOUNT")?,
    }
    push_numbered(text, " ", field.first)?;
    push_numbered(text, " ", field.last)?;
    let FieldKind::Amount { decimals, sign } = field.kind else {
        return Ok(());
    };
    push_numbered(text, " ", decimals)?;
    match sign {
        None => Ok(()),
        Some(SignRule::X(column)) => push_numbered(text, " X ", column),
        Some(SignRule::NX(column)) => push_numbered(text, " NX ", column),
    }
}

// Writes a field.
fn write_field(
    text: &mut String,
    draft: &Draft,
    names: &[String],
    place: usize,
) -> Result<(), AllocError> {
    let Some(field) = draft.fields.get(place) else {
        return Ok(());
    };
    text.push_str("FIELD ")?;
    write_name(text, names, place)?;
    write_kind(text, *field)
}

// Writes a control field.
fn write_control(
    text: &mut String,
    draft: &Draft,
    names: &[String],
    place: usize,
) -> Result<(), AllocError> {
    let Some(control) = draft.controls.get(place) else {
        return Ok(());
    };
    push_numbered(text, "CONTROL ", control.level.number())?;
    text.push_str(" ")?;
    write_name(text, names, control.field)
}

// Writes the word of a printed line, and its number.
fn write_line_words(text: &mut String, line: PrintedLine) -> Result<(), AllocError> {
    match line {
        PrintedLine::Heading(heading) => push_numbered(text, "HEAD ", heading.number()),
        PrintedLine::Body(body) => write_body_words(text, body),
    }
}

// Writes the word of a body line, and its number.
fn write_body_words(text: &mut String, line: BodyLine) -> Result<(), AllocError> {
    match line {
        BodyLine::Detail => text.push_str("DETAIL"),
        BodyLine::Total(level) => push_numbered(text, "TOTAL ", level.number()),
    }
}

// Writes a literal between apostrophes.
fn write_literal(text: &mut String, characters: &str) -> Result<(), AllocError> {
    text.push_str("'")?;
    text.push_str(characters)?;
    text.push_str("'")
}

// Writes a mark, if there is one.
fn write_mark(text: &mut String, mark: Option<Mark>) -> Result<(), AllocError> {
    match mark {
        None => Ok(()),
        Some(Mark::Credit) => text.push_str(" MARK CR"),
        Some(Mark::Minus) => text.push_str(" MARK -"),
    }
}

// Writes how many digits a total has, and COUPLED where it needs more positions than a counter group has: one for each digit, and one for a
// sign.
fn write_digits(text: &mut String, digits: u8, mark: Option<Mark>) -> Result<(), AllocError> {
    push_numbered(text, " ", digits)?;
    let most = if mark.is_some() { 7 } else { 8 };
    if digits > most {
        text.push_str(" COUPLED")?;
    }
    Ok(())
}

// Writes the level at which a text is indicated, if it is.
fn write_indicated(text: &mut String, level: Option<ControlLevel>) -> Result<(), AllocError> {
    match level {
        None => Ok(()),
        Some(level) => push_numbered(text, " INDICATE ", level.number()),
    }
}

// Writes an item.
fn write_item(
    text: &mut String,
    draft: &Draft,
    names: &[String],
    place: usize,
) -> Result<(), AllocError> {
    let Some(item) = draft.items.get(place) else {
        return Ok(());
    };
    write_line_words(text, item.line)?;
    push_numbered(text, " ", item.first)?;
    text.push_str(" ")?;
    match &item.said {
        Said::Text { field, indicated } => {
            write_name(text, names, *field)?;
            write_indicated(text, *indicated)
        }
        Said::Amount {
            field,
            digits,
            mark,
        } => {
            write_name(text, names, *field)?;
            if item.line.emitter() > 4 {
                write_digits(text, *digits, *mark)?;
            }
            write_mark(text, *mark)
        }
        Said::Literal { characters } => write_literal(text, characters.as_str()),
    }
}

// Writes a blank.
fn write_blank(text: &mut String, line: PrintedLine, wheel: u8) -> Result<(), AllocError> {
    write_line_words(text, line)?;
    push_numbered(text, " ", wheel)?;
    text.push_str(" ' '")
}

// Writes which lines are printed.
fn write_printing(text: &mut String, printing: Printing) -> Result<(), AllocError> {
    match printing {
        Printing::Detail => text.push_str("PRINT DETAIL"),
        Printing::Group => text.push_str("PRINT GROUP"),
    }
}

// Writes the spacing of a line.
fn write_space(text: &mut String, line: BodyLine, spacing: Spacing) -> Result<(), AllocError> {
    text.push_str("SPACE ")?;
    write_body_words(text, line)?;
    push_numbered(text, " ", spacing.number())
}

// Writes what follows a line.
fn write_after(text: &mut String, line: BodyLine, action: After) -> Result<(), AllocError> {
    text.push_str("AFTER ")?;
    write_body_words(text, line)?;
    match action {
        After::Page => text.push_str(" PAGE"),
        After::Skip(channel) => push_numbered(text, " SKIP ", channel),
    }
}

// Writes the first stops of a channel: as many as a line of a chart takes.
fn write_tape(text: &mut String, tape: &Tape, channel: u8) -> Result<(), AllocError> {
    push_numbered(text, "TAPE ", channel)?;
    let mut free = MAX_STOPS;
    for line in 1..145u8 {
        if free > 0 && tape.has_stop(channel, line) {
            push_numbered(text, " ", line)?;
            free -= 1;
        }
    }
    Ok(())
}

// Writes the form.
fn write_form(text: &mut String, lines: u8, first: u8, overflow: u8) -> Result<(), AllocError> {
    push_numbered(text, "FORM ", lines)?;
    push_numbered(text, " ", first)?;
    push_numbered(text, " ", overflow)
}

// Writes a line.
fn write_line(
    text: &mut String,
    draft: &Draft,
    names: &[String],
    tape: &Tape,
    line: DraftLine,
) -> Result<(), AllocError> {
    match line {
        DraftLine::Field { field } => write_field(text, draft, names, field),
        DraftLine::Control { control } => write_control(text, draft, names, control),
        DraftLine::Print { printing } => write_printing(text, printing),
        DraftLine::Item { item } => write_item(text, draft, names, item),
        DraftLine::Blank { line, wheel } => write_blank(text, line, wheel),
        DraftLine::Space { line, spacing } => write_space(text, line, spacing),
        DraftLine::After { line, action } => write_after(text, line, action),
        DraftLine::Tape { channel } => write_tape(text, tape, channel),
        DraftLine::Form {
            lines,
            first,
            overflow,
        } => write_form(text, lines, first, overflow),
    }
}

// The lines of a draft, each with its end.
fn written_lines(
    alloc: Global,
    draft: &Draft,
    tape: &Tape,
    lines: &[DraftLine],
) -> Result<String, AllocError> {
    let names = names_of(alloc, draft)?;
    let mut text = String::new(alloc);
    for line in lines {
        write_line(&mut text, draft, names.as_slice(), tape, *line)?;
        text.push_str("\n")?;
    }
    Ok(text)
}

/// The text of a chart of version 2 with these lines of a draft, between the line of the version and `END`; the stops are those of a tape.
/// Its only refusal is memory.
pub fn write_draft(
    alloc: Global,
    draft: &Draft,
    tape: &Tape,
    lines: &[DraftLine],
) -> Result<String, AllocError>
    ensures { IfOk result (λ text. IsFramed (string_bytes text)) }
{
    let body = written_lines(alloc, draft, tape, lines)?;
    let mut text = String::from_str(alloc, "CHART407 2\n")?;
    text.push_str(body.as_str())?;
    text.push_str("END\n")?;
    Ok(text)
}
