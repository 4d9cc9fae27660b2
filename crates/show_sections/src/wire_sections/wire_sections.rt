//! The elements of wires.

ghost use Rattle.std.specs.Prelude.{◌≡◌, ◌++◌, OnOk};
ghost use Rattle.std.specs.String.{string_bytes};
ghost use Rattle.show_sections.specs.WireSections.Sections.{asking_text, line_link, line_open, line_words, path_text, wire_head, wire_open, wire_section, wire_sections_text};

use crate::wheel_sections::write_section_close;
use crate::wire_sections::passing::Part;
use crate::wire_sections::through::write_through;
use chart_numerals::push_between;
use explain_words::explanation_text::ToldWheel;
use show_drawings::drawings::panel_drawing::{
    PanelWire, write_picture_open, write_way, write_wire_name,
};
use show_links::sum_places::SumPlace;
use std::alloc::{AllocError, Global};

// The front of the link to a line of the chart.
fn write_line_open(text: &mut String, line: u16) -> Result<(), AllocError>
    ensures { OnOk result (string_bytes text.new ≡ string_bytes text.old ++ line_open line) }
{
    push_between(text, ", for which <a href=\"#line", line, "\">")
}

// The words of the link.
fn write_line_words(text: &mut String, line: u16) -> Result<(), AllocError>
    ensures { OnOk result (string_bytes text.new ≡ string_bytes text.old ++ line_words line) }
{
    push_between(text, "line ", line, " of the chart</a> asks")
}

// The line of the chart that asks for a wire.
fn write_line(text: &mut String, line: u16) -> Result<(), AllocError>
    ensures { OnOk result (string_bytes text.new ≡ string_bytes text.old ++ line_link line) }
{
    write_line_open(text, line)?;
    write_line_words(text, line)
}

// The line of the chart that asks for a wire, where one does.
pub(crate) fn write_asking(text: &mut String, line: u16) -> Result<(), AllocError>
    ensures { OnOk result (string_bytes text.new ≡ string_bytes text.old ++ asking_text line) }
{
    if line == 0 {
        return Ok(());
    }
    write_line(text, line)
}

// A wire over the panel.
pub(crate) fn write_path(text: &mut String, wire: PanelWire) -> Result<(), AllocError>
    ensures { OnOk result (string_bytes text.new ≡ string_bytes text.old ++ path_text wire) }
{
    text.push_str("<path d=\"")?;
    write_way(text, &[wire.exit, wire.entry])?;
    text.push_str("\"/>")
}

// The front of the element of a wire.
fn write_open(text: &mut String, number: usize) -> Result<(), AllocError>
    ensures { OnOk result (string_bytes text.new ≡ string_bytes text.old ++ wire_open number) }
{
    push_between(
        text,
        "<section id=\"wire",
        number,
        "\"><a href=\"#panel\">back</a>\n<p>The wire ",
    )
}

// The first sentence of the element of a wire.
fn write_head(text: &mut String, number: usize, wire: PanelWire) -> Result<(), AllocError>
    ensures { OnOk result (string_bytes text.new ≡ string_bytes text.old ++ wire_head number wire) }
{
    write_open(text, number)?;
    write_wire_name(text, wire)?;
    write_asking(text, wire.line)?;
    text.push_str(".</p>\n")
}

// The element of a wire.
fn write_section(
    alloc: Global,
    text: &mut String,
    told: &[ToldWheel],
    sums: &[SumPlace],
    number: usize,
    wire: PanelWire,
) -> Result<(), AllocError>
    ensures { OnOk result (string_bytes text.new ≡ string_bytes text.old ++ wire_section told.now sums.now number wire) }
{
    write_head(text, number, wire)?;
    write_through(alloc, text, told, sums, Part::Wire(wire), wire.entry)?;
    write_picture_open(text)?;
    write_path(text, wire)?;
    write_section_close(text)
}

#[tactic(auto, using(show_drawings::proofs::MarkupWords::Pieces::numbered_more))]
// The elements of all wires.
pub(crate) fn write_all(
    alloc: Global,
    text: &mut String,
    wires: &[PanelWire],
    told: &[ToldWheel],
    sums: &[SumPlace],
) -> Result<(), AllocError>
    ensures { OnOk result (string_bytes text.new ≡ string_bytes text.old ++ wire_sections_text wires.now told.now sums.now) }
{
    for place in 0..wires.len() {
        write_section(alloc, text, told, sums, place + 1, wires[place])?;
    }
    Ok(())
}
