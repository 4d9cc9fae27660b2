//! The elements of hubs, and all elements.

ghost use Rattle.std.specs.Prelude.{◌≡◌, ◌++◌, OnOk};
ghost use Rattle.std.specs.List.{flat_map};
ghost use Rattle.std.specs.String.{string_bytes};
ghost use Rattle.show_drawings.specs.MarkupWords.Pieces.{numbered_words};
ghost use Rattle.show_drawings.specs.DrawingsWords.PanelDrawing.Helper.{GainsHubs};
ghost use Rattle.show_sections.specs.WireSections.Helper.{GainsWireSections};
ghost use Rattle.show_sections.specs.WireSections.Sections.{block_part, hub_element, hub_head, hub_open, hub_section, link_at, path_at, wire_link, wire_link_open};

use crate::wheel_sections::write_section_close;
use crate::wire_sections::passing::Part;
use crate::wire_sections::through::write_through;
use crate::wire_sections::wire_sections::{write_all, write_asking, write_path};
use chart_numerals::push_between;
use explain_words::explanation_text::ToldWheel;
use hubs::{Hub, write_hub};
use show_drawings::drawings::panel_drawing::{
    PanelWire, ends_at, has_wire_at, write_block_name, write_picture_open, write_wire_name,
};
use show_links::sum_places::SumPlace;
use std::alloc::{AllocError, Global};

// The front of a link to a wire.
fn write_link_open(text: &mut String, number: usize) -> Result<(), AllocError>
    ensures { OnOk result (string_bytes text.new ≡ string_bytes text.old ++ wire_link_open number) }
{
    push_between(text, "<p><a href=\"#wire", number, "\">")
}

// A link to a wire, and the line that asks for it.
fn write_link(text: &mut String, number: usize, wire: PanelWire) -> Result<(), AllocError>
    ensures { OnOk result (string_bytes text.new ≡ string_bytes text.old ++ wire_link number wire) }
{
    write_link_open(text, number)?;
    write_wire_name(text, wire)?;
    text.push_str("</a>")?;
    write_asking(text, wire.line)?;
    text.push_str("</p>\n")
}

// A link to a wire, where it has an end at a hub.
fn write_link_at(
    text: &mut String,
    hub: u32,
    number: usize,
    wire: PanelWire,
) -> Result<(), AllocError>
    ensures { OnOk result (string_bytes text.new ≡ string_bytes text.old ++ link_at hub number wire) }
{
    if !ends_at(hub, wire) {
        return Ok(());
    }
    write_link(text, number, wire)
}

#[tactic(auto, using(show_drawings::proofs::MarkupWords::Pieces::numbered_more))]
// The links to the wires of a hub.
fn write_links(text: &mut String, hub: u32, wires: &[PanelWire]) -> Result<(), AllocError>
    ensures { OnOk result (string_bytes text.new ≡ string_bytes text.old ++ numbered_words (link_at hub) 1 wires.now) }
{
    for place in 0..wires.len() {
        write_link_at(text, hub, place + 1, wires[place])?;
    }
    Ok(())
}

// A wire over the panel, where it has an end at a hub.
fn write_path_at(text: &mut String, hub: u32, wire: PanelWire) -> Result<(), AllocError>
    ensures { OnOk result (string_bytes text.new ≡ string_bytes text.old ++ path_at hub wire) }
{
    if !ends_at(hub, wire) {
        return Ok(());
    }
    write_path(text, wire)
}

#[tactic(auto, using(show_drawings::proofs::MarkupWords::Pieces::one_more))]
// The wires of a hub over the panel.
fn write_paths(text: &mut String, hub: u32, wires: &[PanelWire]) -> Result<(), AllocError>
    ensures { OnOk result (string_bytes text.new ≡ string_bytes text.old ++ flat_map (path_at hub) wires.now) }
{
    for wire in wires {
        write_path_at(text, hub, *wire)?;
    }
    Ok(())
}

// The front of the element of a hub.
fn write_open(text: &mut String, number: u32) -> Result<(), AllocError>
    ensures { OnOk result (string_bytes text.new ≡ string_bytes text.old ++ hub_open number) }
{
    push_between(
        text,
        "<section id=\"hub",
        number,
        "\"><a href=\"#panel\">back</a>\n<p>The hub ",
    )
}

#[tactic(auto, unfolding(crate::specs::WireSections::Sections::block_part))]
// What the block of a hub is called, up to the wires of the hub.
fn write_block(text: &mut String, hub: Hub) -> Result<(), AllocError>
    ensures { OnOk result (string_bytes text.new ≡ string_bytes text.old ++ block_part hub) }
{
    text.push_str(" (")?;
    write_block_name(text, hub)?;
    text.push_str("). Its wires:</p>\n")
}

// What stands before the wires of a hub.
fn write_head(text: &mut String, number: u32, hub: Hub) -> Result<(), AllocError>
    ensures { OnOk result (string_bytes text.new ≡ string_bytes text.old ++ hub_head number hub) }
{
    write_open(text, number)?;
    write_hub(text, hub)?;
    write_block(text, hub)
}

// The element of a hub.
fn write_element(
    alloc: Global,
    text: &mut String,
    wires: &[PanelWire],
    told: &[ToldWheel],
    sums: &[SumPlace],
    number: u32,
    hub: Hub,
) -> Result<(), AllocError>
    ensures { OnOk result (string_bytes text.new ≡ string_bytes text.old ++ hub_element wires.now told.now sums.now number hub) }
{
    write_head(text, number, hub)?;
    write_links(text, number, wires)?;
    write_through(alloc, text, told, sums, Part::Hub(number), hub)?;
    write_picture_open(text)?;
    write_paths(text, number, wires)?;
    write_section_close(text)
}

// The element of a hub, where a wire has an end there.
fn write_hub_section(
    alloc: Global,
    text: &mut String,
    wires: &[PanelWire],
    told: &[ToldWheel],
    sums: &[SumPlace],
    number: u32,
    hub: Hub,
) -> Result<(), AllocError>
    ensures { OnOk result (string_bytes text.new ≡ string_bytes text.old ++ hub_section wires.now told.now sums.now number hub) }
{
    if !has_wire_at(number, wires) {
        return Ok(());
    }
    write_element(alloc, text, wires, told, sums, number, hub)
}

#[tactic(auto, using(show_drawings::proofs::DrawingsWords::PanelDrawing::Written::hubs_none, show_drawings::proofs::DrawingsWords::PanelDrawing::Written::some_hub))]
// The elements of all hubs at which a wire has an end.
fn write_hubs(
    alloc: Global,
    text: &mut String,
    wires: &[PanelWire],
    told: &[ToldWheel],
    sums: &[SumPlace],
) -> Result<(), AllocError>
    ensures { OnOk result (GainsHubs (hub_section wires.now told.now sums.now) 1936 (string_bytes text.old) (string_bytes text.new)) }
{
    for passed in 0..1936 {
        let Some(hub) = Hub::of_number(passed + 1) else {
            unreachable!();
        };
        write_hub_section(alloc, text, wires, told, sums, passed + 1, hub)?;
    }
    Ok(())
}

/// Writes the elements of drawn wires, in their order, and behind them those of the hubs at which they have their ends, in the order of the
/// numbers of the hubs. `told` has the printed characters to which an element links, where an impulse of theirs came through, and `sums` the
/// sums on the page, to which it links where a counter held them.
///
/// Fails only where no memory is left; a front of the elements may then have been written.
pub fn write_wire_sections(
    alloc: Global,
    text: &mut String,
    wires: &[PanelWire],
    told: &[ToldWheel],
    sums: &[SumPlace],
) -> Result<(), AllocError>
    ensures { OnOk result (GainsWireSections wires.now told.now sums.now (string_bytes text.old) (string_bytes text.new)) }
{
    write_all(alloc, text, wires, told, sums)?;
    write_hubs(alloc, text, wires, told, sums)
}
