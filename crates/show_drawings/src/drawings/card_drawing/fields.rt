//! The fields of a chart over a card.

ghost use Rattle.std.specs.Prelude.{◌≡◌, ◌++◌, ◌==◌, ◌%◌, OnOk};
ghost use Rattle.std.specs.List.{flat_map};
ghost use Rattle.std.specs.String.{string_bytes};
ghost use Rattle.show_drawings.specs.DrawingsWords.CardDrawing.Drawings.{field_open, field_text, fields_open, fields_text, frame_end, frame_start, frame_text, line_field, name_open, name_row, named_text, sign_text};

use crate::markup::push_escaped;
use chart_lines::charts::{Field, Line, Name, Statement};
use chart_numerals::{push_between, push_number, push_numbered};
use std::alloc::AllocError;

#[tactic(auto, unfolding(crate::specs::DrawingsWords::CardDrawing::Drawings::field_open))]
// The front of a field, with its colour.
fn write_open(text: &mut String, number: u16) -> Result<(), AllocError>
    ensures { OnOk result (string_bytes text.new ≡ string_bytes text.old ++ field_open number) }
{
    push_between(text, "<g class=\"c", number % 12, "\">")
}

#[tactic(auto, unfolding(crate::specs::DrawingsWords::CardDrawing::Drawings::frame_start))]
// The front of a frame.
fn write_frame_start(text: &mut String, first: u16) -> Result<(), AllocError>
    ensures { OnOk result (string_bytes text.new ≡ string_bytes text.old ++ frame_start first) }
{
    push_between(text, "<path d=\"M", 10 + 15 * u64::from(first), " -10v444h")
}

#[tactic(auto, unfolding(crate::specs::DrawingsWords::CardDrawing::Drawings::frame_end))]
// The end of a frame.
fn write_frame_end(text: &mut String, first: u16, columns: u32) -> Result<(), AllocError>
    ensures { OnOk result (string_bytes text.new ≡ string_bytes text.old ++ frame_end first columns) }
{
    push_number(text, 15 * u64::from(columns))?;
    push_between(text, "v-372H", 10 + 15 * u64::from(first), "\"/>")
}

#[tactic(auto, unfolding(crate::specs::DrawingsWords::CardDrawing::Drawings::frame_text))]
// A frame around columns.
fn write_frame(text: &mut String, first: u16, columns: u32) -> Result<(), AllocError>
    ensures { OnOk result (string_bytes text.new ≡ string_bytes text.old ++ frame_text first columns) }
{
    write_frame_start(text, first)?;
    write_frame_end(text, first, columns)
}

// A frame around a sign column, where there is one.
fn write_sign(text: &mut String, column: Option<u16>) -> Result<(), AllocError>
    ensures { OnOk result (string_bytes text.new ≡ string_bytes text.old ++ sign_text column) }
{
    match column {
        Some(column) => write_frame(text, column, 1),
        None => Ok(()),
    }
}

// In which of two rows a name stands.
fn write_name_row(text: &mut String, number: u16) -> Result<(), AllocError>
    ensures { OnOk result (string_bytes text.new ≡ string_bytes text.old ++ name_row number) }
{
    if number % 2 == 0 {
        text.push_str("\" y=\"-44\">")
    } else {
        text.push_str("\" y=\"-16\">")
    }
}

#[tactic(auto, unfolding(crate::specs::DrawingsWords::CardDrawing::Drawings::name_open))]
// The front of a name.
fn write_name_open(text: &mut String, number: u16, first: u16) -> Result<(), AllocError>
    ensures { OnOk result (string_bytes text.new ≡ string_bytes text.old ++ name_open number first) }
{
    push_numbered(text, "<text x=\"", 10 + 15 * u64::from(first))?;
    write_name_row(text, number)
}

#[tactic(auto, unfolding(crate::specs::DrawingsWords::CardDrawing::Drawings::named_text))]
// A name.
fn write_name(text: &mut String, number: u16, first: u16, name: Name) -> Result<(), AllocError>
    ensures { OnOk result (string_bytes text.new ≡ string_bytes text.old ++ named_text number first name) }
{
    write_name_open(text, number, first)?;
    push_escaped(text, name.as_bytes())?;
    text.push_str("</text></g>\n")
}

#[tactic(auto, unfolding(crate::specs::DrawingsWords::CardDrawing::Drawings::field_text))]
// A field, by the number of its line.
fn write_field(text: &mut String, number: u16, field: &Field) -> Result<(), AllocError>
    ensures { OnOk result (string_bytes text.new ≡ string_bytes text.old ++ field_text number field.now) }
{
    write_open(text, number)?;
    write_frame(text, field.first, field.columns())?;
    write_sign(text, field.kind.sign_column())?;
    write_name(text, number, field.first, field.name)
}

// The field that a line of the chart names.
fn write_line_field(text: &mut String, line: &Line) -> Result<(), AllocError>
    ensures { OnOk result (string_bytes text.new ≡ string_bytes text.old ++ line_field line.now) }
{
    match &line.statement {
        Statement::Field(field) => write_field(text, line.number, field),
        _ => Ok(()),
    }
}

#[tactic(auto, using(crate::proofs::MarkupWords::Pieces::one_more))]
// The fields of some lines.
fn write_line_fields(text: &mut String, lines: &[Line]) -> Result<(), AllocError>
    ensures { OnOk result (string_bytes text.new ≡ string_bytes text.old ++ flat_map line_field lines.now) }
{
    for line in lines {
        write_line_field(text, line)?;
    }
    Ok(())
}

#[tactic(auto, unfolding(crate::specs::DrawingsWords::CardDrawing::Drawings::fields_open))]
// What stands before the fields.
fn write_fields_open(text: &mut String) -> Result<(), AllocError>
    ensures { OnOk result (string_bytes text.new ≡ string_bytes text.old ++ fields_open) }
{
    text.push_str("<marker id=\"fields\" markerUnits=\"userSpaceOnUse\">\n")
}

#[tactic(auto, unfolding(crate::specs::DrawingsWords::CardDrawing::Drawings::fields_text))]
// The fields of a chart.
pub(crate) fn write_fields(text: &mut String, lines: &[Line]) -> Result<(), AllocError>
    ensures { OnOk result (string_bytes text.new ≡ string_bytes text.old ++ fields_text lines.now) }
{
    write_fields_open(text)?;
    write_line_fields(text, lines)?;
    text.push_str("</marker>\n")
}
