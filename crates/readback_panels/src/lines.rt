//! The lines of a draft, in the order of a chart.

ghost use Rattle.std.specs.Prelude.{IfOk, OnOk};
ghost use Rattle.readback_panels.specs.Lines.{AreOf, EndsWithForm, IsOf};

use crate::draft::{Draft, PRINTED_LINES, PrintedLine};
use chart_lines::charts::{After, BodyLine, HeadingLine, Level, Printing, Spacing};
use hubs::setups::{Setup, Tape};
use hubs::{Hub, Jack};
use std::alloc::{AllocError, Global};

/// What a line of a chart says of a draft.
#[derive(Clone, Copy)]
pub enum DraftLine {
    /// The field at a place.
    Field {
        /// The place.
        field: usize,
    },
    /// The control field at a place.
    Control {
        /// The place.
        control: usize,
    },
    /// Which lines are printed.
    Print {
        /// Which.
        printing: Printing,
    },
    /// The item at a place.
    Item {
        /// The place.
        item: usize,
    },
    /// A blank, so that a line is printed on which nothing else stands.
    Blank {
        /// The line.
        line: PrintedLine,
        /// The wheel.
        wheel: u8,
    },
    /// The spacing of a line.
    Space {
        /// The line.
        line: BodyLine,
        /// Its spacing.
        spacing: Spacing,
    },
    /// What follows a line.
    After {
        /// The line.
        line: BodyLine,
        /// What follows.
        action: After,
    },
    /// The stops of a channel.
    Tape {
        /// The channel.
        channel: u8,
    },
    /// The form.
    Form {
        /// How many lines it has.
        lines: u8,
        /// Its first line.
        first: u8,
        /// Its overflow line.
        overflow: u8,
    },
}

// Adds the lines of the fields of one kind in the same columns.
#[tactic(auto, using(crate::proofs::Kept::one_more))]
fn push_fields_in(
    lines: &mut Vec<DraftLine>,
    draft: &Draft,
    first: u8,
    last: u8,
    are_amounts: bool,
) -> Result<(), AllocError>
    requires { AreOf draft.now lines.old.items }
    ensures { OnOk result (AreOf draft.now lines.new.items) }
{
    for field in 0..draft.fields.len() {
        let its = draft.fields[field];
        if its.first == first && its.last == last && its.kind.is_amount() == are_amounts {
            lines.push(DraftLine::Field { field })?;
        }
    }
    Ok(())
}

// Whether a field begins with a column.
fn begins_field(draft: &Draft, column: u8) -> bool {
    draft.fields.iter().any(|field| field.first == column)
}

// Adds the lines of the fields: by columns, texts before amounts.
fn push_fields(lines: &mut Vec<DraftLine>, draft: &Draft) -> Result<(), AllocError>
    requires { AreOf draft.now lines.old.items }
    ensures { OnOk result (AreOf draft.now lines.new.items) }
{
    for first in 1..81 {
        if begins_field(draft, first) {
            for last in first..81 {
                push_fields_in(lines, draft, first, last, false)?;
                push_fields_in(lines, draft, first, last, true)?;
            }
        }
    }
    Ok(())
}

/// Whether a printed line has its jack: that of a heading line, of the line of a card or of a total line.
pub(crate) fn is_printed(setup: &Setup, line: PrintedLine) -> bool {
    match line {
        PrintedLine::Heading(heading) => is_last_heading(setup, heading),
        PrintedLine::Body(BodyLine::Detail) => setup.has_jack(Jack::List),
        PrintedLine::Body(BodyLine::Total(level)) => setup.has_jack(Jack::Total(level.number())),
    }
}

// Whether a heading line is the last that is printed.
fn is_last_heading(setup: &Setup, heading: HeadingLine) -> bool {
    let number = heading.number();
    setup.has_jack(Jack::Head(number))
        && !(number + 1..4).any(|next| setup.has_jack(Jack::Head(next)))
}

// The first wheel on which no amount stands.
fn wheel_without_amount(draft: &Draft) -> u8 {
    for wheel in 1..121 {
        if !draft.has_amount(wheel) {
            return wheel;
        }
    }
    1
}

/// The blank of a line on which nothing else stands.
pub(crate) fn blank_on(draft: &Draft, line: PrintedLine) -> DraftLine
    ensures { IsOf draft.now result }
{
    let wheel = match line {
        PrintedLine::Heading(_) => 1,
        PrintedLine::Body(_) => wheel_without_amount(draft),
    };
    DraftLine::Blank { line, wheel }
}

// Adds the lines of the items of a printed line that begin on a wheel.
#[tactic(auto, using(crate::proofs::Kept::one_more))]
fn push_items_on(
    lines: &mut Vec<DraftLine>,
    draft: &Draft,
    line: PrintedLine,
    wheel: u8,
) -> Result<(), AllocError>
    requires { AreOf draft.now lines.old.items }
    ensures { OnOk result (AreOf draft.now lines.new.items) }
{
    for item in 0..draft.items.len() {
        let its = &draft.items[item];
        if its.line == line && its.first == wheel {
            lines.push(DraftLine::Item { item })?;
        }
    }
    Ok(())
}

// Adds the lines of the items of a printed line, by wheels; that of a blank, where it is printed without an item.
#[tactic(auto, using(crate::proofs::Kept::one_more))]
fn push_items(
    lines: &mut Vec<DraftLine>,
    setup: &Setup,
    draft: &Draft,
    line: PrintedLine,
) -> Result<(), AllocError>
    requires { AreOf draft.now lines.old.items }
    ensures { OnOk result (AreOf draft.now lines.new.items) }
{
    let before = lines.len();
    for wheel in 1..121 {
        push_items_on(lines, draft, line, wheel)?;
    }
    if lines.len() == before && is_printed(setup, line) {
        lines.push(blank_on(draft, line))?;
    }
    if let PrintedLine::Body(body) = line {
        if lines.len() > before {
            push_carriage(lines, setup, draft, body)?;
        }
    }
    Ok(())
}

// The exit that speaks to the carriage while a line is printed.
fn carriage_source(line: BodyLine) -> Hub {
    match line {
        BodyLine::Detail => Hub::CC,
        BodyLine::Total(level) => Hub::PX(level.number(), 3),
    }
}

// Whether a channel of a tape has a stop.
fn has_stops(tape: &Tape, channel: u8) -> bool {
    for line in 1..145 {
        if tape.has_stop(channel, line) {
            return true;
        }
    }
    false
}

// What follows a line by the wires from its source: a page, else a skip to the lowest channel that has a stop.
fn action_of(setup: &Setup, source: Hub) -> Option<After> {
    if setup.has(source, Hub::RS) {
        return Some(After::Page);
    }
    for channel in 2..12 {
        if setup.has(source, Hub::SK(channel)) && has_stops(setup.tape(), channel) {
            return Some(After::Skip(u16::from(channel)));
        }
    }
    None
}

// The spacing of a line by the wires from its source; single spacing comes unasked.
fn spacing_of(setup: &Setup, source: Hub) -> Option<Spacing> {
    if setup.has(source, Hub::SP(3)) {
        Some(Spacing::Triple)
    } else if setup.has(source, Hub::SP(2)) {
        Some(Spacing::Double)
    } else {
        None
    }
}

// Adds the spacing of a line and what follows it.
#[tactic(auto, using(crate::proofs::Kept::one_more))]
fn push_carriage(
    lines: &mut Vec<DraftLine>,
    setup: &Setup,
    draft: &Draft,
    line: BodyLine,
) -> Result<(), AllocError>
    requires { AreOf draft.now lines.old.items }
    ensures { OnOk result (AreOf draft.now lines.new.items) }
{
    let source = carriage_source(line);
    if let Some(spacing) = spacing_of(setup, source) {
        lines.push(DraftLine::Space { line, spacing })?;
    }
    if let Some(action) = action_of(setup, source) {
        lines.push(DraftLine::After { line, action })?;
    }
    Ok(())
}

// Whether a line below the headings is printed.
fn has_body_line(setup: &Setup) -> bool {
    setup.has_jack(Jack::List) || (1..5).any(|level| setup.has_jack(Jack::Total(level)))
}

// Adds the lines of the tape and the form.
#[tactic(auto, using(crate::proofs::Kept::one_more))]
fn push_form(lines: &mut Vec<DraftLine>, tape: &Tape, draft: &Draft) -> Result<(), AllocError>
    requires { AreOf draft.now lines.old.items }
    ensures of { OnOk result (AreOf draft.now lines.new.items) }
    ensures form { OnOk result (EndsWithForm tape.now lines.new.items) }
{
    for channel in 2..12 {
        if has_stops(tape, channel) {
            lines.push(DraftLine::Tape { channel })?;
        }
    }
    lines.push(DraftLine::Form {
        lines: tape.lines(),
        first: tape.first(),
        overflow: tape.overflow(),
    })?;
    Ok(())
}

/// The lines of a draft: fields, control fields, which lines are printed, the items of each printed line with its spacing and what follows it,
/// the tape and the form.
#[tactic(auto, using(crate::proofs::Kept::one_more))]
pub(crate) fn lines_of(
    alloc: Global,
    setup: &Setup,
    draft: &Draft,
) -> Result<Vec<DraftLine>, AllocError>
    ensures of { IfOk result (λ lines. AreOf draft.now lines.items) }
    ensures form { IfOk result (λ lines. EndsWithForm setup.now.tape lines.items) }
{
    let mut lines = Vec::new(alloc);
    push_fields(&mut lines, draft)?;
    for control in 0..draft.controls.len() {
        lines.push(DraftLine::Control { control })?;
    }
    let printing = if setup.has_jack(Jack::List) {
        Printing::Detail
    } else {
        Printing::Group
    };
    lines.push(DraftLine::Print { printing })?;
    for line in PRINTED_LINES {
        push_items(&mut lines, setup, draft, line)?;
    }
    if !draft.has_body_item() && !has_body_line(setup) {
        lines.push(blank_on(draft, PrintedLine::Body(BodyLine::Total(Level::Final))))?;
    }
    push_form(&mut lines, setup.tape(), draft)?;
    Ok(lines)
}
