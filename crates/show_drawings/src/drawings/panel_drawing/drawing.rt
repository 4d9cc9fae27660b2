//! The drawing as SVG.

ghost use Rattle.std.specs.Prelude.{◌≡◌, ◌++◌, ◌≤◌, OnOk};
ghost use Rattle.std.specs.List.{flat_map};
ghost use Rattle.std.specs.String.{string_bytes};
ghost use Rattle.show_drawings.specs.MarkupWords.Pieces.{numbered_words};
ghost use Rattle.show_drawings.specs.DrawingsWords.PanelDrawing.Drawing.{block_name, block_text, block_words, called_text, centre_text, colour_text, counters_front, counters_label, counters_place, counters_words, counts_wheels, curve_between, dot_text, dots_open, dots_text, drawing_behind, drawing_between, drawing_close, drawing_open, ends_at, has_number, has_wire_at, hub_dot, kind_words, label_left, label_open, label_place, label_text, label_top, label_words, line_to, link_text, linked_dot, next_row, next_rows, pen_at, picture_open, plate_open, side_words, step_text, steps_text, way_curve, width_text, wire_name, wire_path, wire_text};
ghost use Rattle.show_drawings.specs.DrawingsWords.PanelDrawing.Helper.{GainsDrawing, GainsHubs};

use crate::drawings::panel_drawing::blocks::{BLOCKS, Block, Coordinates, block_at, hub_place};
use chart_numerals::{push_between, push_number, push_numbered};
use hubs::hub_table::Letters;
use hubs::{Hub, write_hub};
use std::alloc::AllocError;

/// A wire that is drawn.
#[derive(Clone, Copy, Debug, PartialEq, Eq)]
pub struct PanelWire {
    /// The hub that it leaves.
    pub exit: Hub,
    /// The hub that it enters.
    pub entry: Hub,
    /// The line of the chart that asks for it, 0 where none does. It gives the wire its colour.
    pub line: u16,
}

// What a kind of hub is called.
fn kind_words(kind: Letters) -> &'static str
    ensures { result.now ≡ kind_words kind }
{
    match kind {
        Letters::FR => "FIRST READING: the card behind it, columns 1 to 80",
        Letters::SR => "SECOND READING: the card whose line is printed, columns 1 to 80",
        Letters::CX => "the cards differ",
        Letters::GX => "wheels",
        Letters::CO => "carry",
        Letters::BAN => "balance +",
        Letters::BAT => "balance -",
        Letters::PIN => "pilots, normal",
        Letters::PIT => "pilots, transferred",
        Letters::SX => "STORAGE out, 1 to 4",
        Letters::IX => "first card of a group, out",
        Letters::CSD => "splits, rows 9 to 0",
        Letters::CSZ => "splits, rows 11 and 12",
        Letters::EM => "EMITTERS 1 to 8",
        Letters::CC => "card",
        Letters::PX => "program",
        Letters::HX => "heading",
        Letters::CA => "comparing, one card",
        Letters::CB => "comparing, the other card",
        Letters::GE => "wheels",
        Letters::PL => "+",
        Letters::MI => "-",
        Letters::RO => "out",
        Letters::BT => "test",
        Letters::CI => "carry",
        Letters::BAC => "balance",
        Letters::PIC => "pilots, common",
        Letters::PIX => "pilots, pickup",
        Letters::SE => "STORAGE in, 1 to 4",
        Letters::SI => "in",
        Letters::SO => "out",
        Letters::IE => "first card of a group, in",
        Letters::CSE => "splits, in",
        Letters::W => "PRINT WHEELS 1 to 120",
        Letters::ST => "total due",
        Letters::SP => "space",
        Letters::SK => "skip to a channel",
        Letters::RS => "page",
    }
}

// Whether a kind is called by the wheels of its counter groups.
fn counts_wheels(kind: Letters) -> bool
    ensures { result ≡ counts_wheels kind }
{
    matches!(kind, Letters::GX | Letters::GE)
}

// How many wheels the groups of a block have, where its kind is called by its wheels.
fn write_width(text: &mut String, block: &Block) -> Result<(), AllocError>
    ensures { OnOk result (string_bytes text.new ≡ string_bytes text.old ++ width_text block.now) }
{
    if counts_wheels(block.kind) {
        push_number(text, block.width)?;
        text.push_str(" ")
    } else {
        Ok(())
    }
}

// The front of a label.
fn write_label_open(text: &mut String, width: u32) -> Result<(), AllocError>
    ensures { OnOk result (string_bytes text.new ≡ string_bytes text.old ++ label_open width) }
{
    if width == 0 {
        text.push_str("<text")
    } else {
        text.push_str("<text class=\"small\"")
    }
}

#[tactic(auto, unfolding(crate::specs::DrawingsWords::PanelDrawing::Drawing::label_left))]
// Where a label begins.
fn write_label_left(text: &mut String, left: u32) -> Result<(), AllocError>
    ensures { OnOk result (string_bytes text.new ≡ string_bytes text.old ++ label_left left) }
{
    push_numbered(text, " x=\"", left)
}

#[tactic(auto, unfolding(crate::specs::DrawingsWords::PanelDrawing::Drawing::label_top))]
// How far down the block of a label is.
fn write_label_top(text: &mut String, top: u32) -> Result<(), AllocError>
    ensures { OnOk result (string_bytes text.new ≡ string_bytes text.old ++ label_top top) }
{
    push_between(text, "\" y=\"", top, "\" dy=\"-11\">")
}

// The place of a label.
fn write_label_place(text: &mut String, block: &Block) -> Result<(), AllocError>
    ensures { OnOk result (string_bytes text.new ≡ string_bytes text.old ++ label_place block.now) }
{
    write_label_left(text, block.left)?;
    write_label_top(text, block.top)
}

#[tactic(auto, unfolding(crate::specs::DrawingsWords::PanelDrawing::Drawing::block_words))]
// What a block is called on its label.
fn write_block_words(text: &mut String, block: &Block) -> Result<(), AllocError>
    ensures { OnOk result (string_bytes text.new ≡ string_bytes text.old ++ block_words block.now) }
{
    write_width(text, block)?;
    text.push_str(kind_words(block.kind))
}

#[tactic(auto, unfolding(crate::specs::DrawingsWords::PanelDrawing::Drawing::label_words))]
// The words of a label.
fn write_label_words(text: &mut String, block: &Block) -> Result<(), AllocError>
    ensures { OnOk result (string_bytes text.new ≡ string_bytes text.old ++ label_words block.now) }
{
    write_block_words(text, block)?;
    text.push_str("</text>\n")
}

// What stands above the blocks of counters, on the side of the exits or on that of the entries.
fn counters_words(is_exit: bool) -> &'static str
    ensures { result.now ≡ counters_words is_exit }
{
    if is_exit {
        "COUNTERS, out, 1 to 8"
    } else {
        "COUNTERS, in, 1 to 8"
    }
}

#[tactic(auto, unfolding(crate::specs::DrawingsWords::PanelDrawing::Drawing::counters_front))]
// The same, before what a block of counters is called.
fn write_counters_front(text: &mut String, block: &Block) -> Result<(), AllocError>
    ensures { OnOk result (string_bytes text.new ≡ string_bytes text.old ++ counters_front block.now) }
{
    text.push_str(counters_words(block.kind.are_exits()))?;
    text.push_str(": ")
}

// The same, if a block is one of counters.
fn write_side(text: &mut String, block: &Block) -> Result<(), AllocError>
    ensures { OnOk result (string_bytes text.new ≡ string_bytes text.old ++ side_words block.now) }
{
    if block.width == 0 {
        Ok(())
    } else {
        write_counters_front(text, block)
    }
}

#[tactic(auto, unfolding(crate::specs::DrawingsWords::PanelDrawing::Drawing::called_text))]
// What a block is called where it stands alone.
fn write_called(text: &mut String, block: &Block) -> Result<(), AllocError>
    ensures { OnOk result (string_bytes text.new ≡ string_bytes text.old ++ called_text block.now) }
{
    write_side(text, block)?;
    write_block_words(text, block)
}

/// Writes what the block of a hub is called on the drawing: the words of its label, and before them, if it is one of counters, the words above
/// these blocks; nothing for a hub that the panel doesn't have. Fails only where no memory is left; a front of it may then
/// have been written.
pub fn write_block_name(text: &mut String, hub: Hub) -> Result<(), AllocError>
    ensures { OnOk result (string_bytes text.new ≡ string_bytes text.old ++ block_name hub) }
{
    match hub.number() {
        Some(number) => write_called(text, &block_at(number)),
        None => Ok(()),
    }
}

// The label of a block.
fn write_label(text: &mut String, block: &Block) -> Result<(), AllocError>
    ensures { OnOk result (string_bytes text.new ≡ string_bytes text.old ++ label_text block.now) }
{
    write_label_open(text, block.width)?;
    write_label_place(text, block)?;
    write_label_words(text, block)
}

// The front of the dots of a block, with the place of the first.
fn write_dots_open(text: &mut String, block: &Block) -> Result<(), AllocError>
    ensures { OnOk result (string_bytes text.new ≡ string_bytes text.old ++ dots_open block.now) }
{
    push_numbered(text, "<path class=\"dots", block.across)?;
    push_numbered(text, "\" d=\"M", block.left)?;
    push_numbered(text, " ", block.top)
}

// The next row of dots, behind one.
fn write_next_row(text: &mut String, block: &Block) -> Result<(), AllocError>
    ensures { OnOk result (string_bytes text.new ≡ string_bytes text.old ++ next_row block.now) }
{
    push_numbered(text, "m-", block.run)?;
    push_numbered(text, " 14h", block.run)
}

#[tactic(auto, using(crate::proofs::MarkupWords::Pieces::range_none, crate::proofs::MarkupWords::Pieces::range_more))]
// The rows of dots behind the first one.
fn write_next_rows(text: &mut String, block: &Block) -> Result<(), AllocError>
    ensures { OnOk result (string_bytes text.new ≡ string_bytes text.old ++ next_rows block.now) }
{
    for _row in 0..block.rows.saturating_sub(1) {
        write_next_row(text, block)?;
    }
    Ok(())
}

// The dots of a block.
fn write_dots(text: &mut String, block: &Block) -> Result<(), AllocError>
    ensures { OnOk result (string_bytes text.new ≡ string_bytes text.old ++ dots_text block.now) }
{
    write_dots_open(text, block)?;
    push_numbered(text, "h", block.run)?;
    write_next_rows(text, block)?;
    text.push_str("\"/>\n")
}

// A block.
fn write_block(text: &mut String, block: &Block) -> Result<(), AllocError>
    ensures { OnOk result (string_bytes text.new ≡ string_bytes text.old ++ block_text block.now) }
{
    write_label(text, block)?;
    write_dots(text, block)
}

#[tactic(auto, using(crate::proofs::MarkupWords::Pieces::one_more))]
// The blocks of a table.
fn write_blocks(text: &mut String, table: &[Block]) -> Result<(), AllocError>
    ensures { OnOk result (string_bytes text.new ≡ string_bytes text.old ++ flat_map block_text table.now) }
{
    for block in table {
        write_block(text, block)?;
    }
    Ok(())
}

// The centre and the size of a larger dot.
fn write_centre(text: &mut String, place: Coordinates) -> Result<(), AllocError>
    ensures { OnOk result (string_bytes text.new ≡ string_bytes text.old ++ centre_text place) }
{
    push_numbered(text, " cx=\"", place.x)?;
    push_between(text, "\" cy=\"", place.y, "\" r=\"5\">")
}

#[tactic(auto, unfolding(crate::specs::DrawingsWords::PanelDrawing::Drawing::dot_text))]
// A larger dot.
fn write_dot(text: &mut String, hub: Hub) -> Result<(), AllocError>
    ensures { OnOk result (string_bytes text.new ≡ string_bytes text.old ++ dot_text hub) }
{
    text.push_str("<circle")?;
    write_centre(text, hub_place(hub))?;
    text.push_str("<title>")?;
    write_hub(text, hub)?;
    text.push_str("</title></circle>")
}

/// Whether a hub has this number.
pub fn has_number(number: u32, hub: Hub) -> bool
    ensures { result ≡ has_number number hub }
{
    match hub.number() {
        Some(other) => number == other,
        None => false,
    }
}

/// Whether a wire has an end at the hub with this number.
pub fn ends_at(number: u32, wire: PanelWire) -> bool
    ensures { result ≡ ends_at number wire }
{
    has_number(number, wire.exit) || has_number(number, wire.entry)
}

/// Whether one of some wires has an end at the hub with this number.
pub fn has_wire_at(number: u32, wires: &[PanelWire]) -> bool
    ensures { result ≡ has_wire_at number wires.now }
{
    for wire in wires {
        if ends_at(number, *wire) {
            return true;
        }
    }
    false
}

// The dot of a hub, with a link.
fn write_linked_dot(text: &mut String, number: u32, hub: Hub) -> Result<(), AllocError>
    ensures { OnOk result (string_bytes text.new ≡ string_bytes text.old ++ linked_dot number hub) }
{
    push_between(text, "<a href=\"#hub", number, "\">")?;
    write_dot(text, hub)?;
    text.push_str("</a>\n")
}

// A hub, where a wire has an end there.
fn write_hub_dot(
    text: &mut String,
    wires: &[PanelWire],
    number: u32,
    hub: Hub,
) -> Result<(), AllocError>
    ensures { OnOk result (string_bytes text.new ≡ string_bytes text.old ++ hub_dot wires.now number hub) }
{
    if has_wire_at(number, wires) {
        write_linked_dot(text, number, hub)
    } else {
        Ok(())
    }
}

#[tactic(auto, using(crate::proofs::DrawingsWords::PanelDrawing::Written::hubs_none, crate::proofs::DrawingsWords::PanelDrawing::Written::hubs_more, crate::proofs::DrawingsWords::PanelDrawing::Written::some_hub))]
// All hubs at which a wire has an end.
fn write_hubs(text: &mut String, wires: &[PanelWire]) -> Result<(), AllocError>
    ensures { OnOk result (GainsHubs (hub_dot wires.now) 1936 (string_bytes text.old) (string_bytes text.new)) }
{
    for passed in 0..1936 {
        let Some(hub) = Hub::of_number(passed + 1) else {
            unreachable!();
        };
        write_hub_dot(text, wires, passed + 1, hub)?;
    }
    Ok(())
}

// The pen at a place.
fn write_pen(text: &mut String, place: Coordinates) -> Result<(), AllocError>
    ensures { OnOk result (string_bytes text.new ≡ string_bytes text.old ++ pen_at place) }
{
    push_numbered(text, "M", place.x)?;
    push_numbered(text, " ", place.y)
}

// A curve between two places.
fn write_curve(text: &mut String, from: Coordinates, to: Coordinates) -> Result<(), AllocError>
    ensures { OnOk result (string_bytes text.new ≡ string_bytes text.old ++ curve_between from to) }
{
    push_numbered(text, "C", from.x)?;
    push_numbered(text, " 470 ", to.x)?;
    push_numbered(text, " 470 ", to.x)?;
    push_numbered(text, " ", to.y)
}

// A line to a place.
fn write_line(text: &mut String, place: Coordinates) -> Result<(), AllocError>
    ensures { OnOk result (string_bytes text.new ≡ string_bytes text.old ++ line_to place) }
{
    push_numbered(text, "L", place.x)?;
    push_numbered(text, " ", place.y)
}

// The link of a wire.
fn write_link(text: &mut String, number: usize) -> Result<(), AllocError>
    ensures { OnOk result (string_bytes text.new ≡ string_bytes text.old ++ link_text number) }
{
    push_between(text, "<a href=\"#wire", number, "\">")
}

// The front of a wire's curve, with its colour.
fn write_colour(text: &mut String, line: u16) -> Result<(), AllocError>
    ensures { OnOk result (string_bytes text.new ≡ string_bytes text.old ++ colour_text line) }
{
    push_between(text, "<path class=\"c", line % 12, "\" d=\"")
}

/// Writes the name of a wire, as `FR.5 -&gt; W.3` of XHTML. Fails only where no memory is left.
pub fn write_wire_name(text: &mut String, wire: PanelWire) -> Result<(), AllocError>
    ensures { OnOk result (string_bytes text.new ≡ string_bytes text.old ++ wire_name wire) }
{
    write_hub(text, wire.exit)?;
    text.push_str(" -&gt; ")?;
    write_hub(text, wire.entry)
}

// The data of a wire's path.
fn write_path(text: &mut String, wire: PanelWire) -> Result<(), AllocError>
    ensures { OnOk result (string_bytes text.new ≡ string_bytes text.old ++ wire_path wire) }
{
    let from = hub_place(wire.exit);
    write_pen(text, from)?;
    write_curve(text, from, hub_place(wire.entry))
}

#[tactic(auto, unfolding(crate::specs::DrawingsWords::PanelDrawing::Drawing::wire_text))]
// A wire.
fn write_wire(text: &mut String, number: usize, wire: PanelWire) -> Result<(), AllocError>
    ensures { OnOk result (string_bytes text.new ≡ string_bytes text.old ++ wire_text number wire) }
{
    write_link(text, number)?;
    write_colour(text, wire.line)?;
    write_path(text, wire)?;
    text.push_str("\"><title>")?;
    write_wire_name(text, wire)?;
    text.push_str("</title></path></a>\n")
}

#[tactic(auto, using(crate::proofs::MarkupWords::Pieces::numbered_more))]
// All wires of a list.
fn write_wires(text: &mut String, wires: &[PanelWire]) -> Result<(), AllocError>
    ensures { OnOk result (string_bytes text.new ≡ string_bytes text.old ++ numbered_words wire_text 1 wires.now) }
{
    for place in 0..wires.len() {
        write_wire(text, place + 1, wires[place])?;
    }
    Ok(())
}

// The front of the drawing, up to its blocks.
fn write_plate(text: &mut String) -> Result<(), AllocError>
    ensures { OnOk result (string_bytes text.new ≡ string_bytes text.old ++ plate_open) }
{
    text.push_str(
        "<svg id=\"panel\" xmlns=\"http://www.w3.org/2000/svg\" viewBox=\"0 0 1250 890\"><g id=\"board\"><rect class=\"plate\" width=\"1250\" height=\"890\" rx=\"15\"/>\n<g class=\"blocks\">\n",
    )
}

#[tactic(auto, unfolding(crate::specs::DrawingsWords::PanelDrawing::Drawing::counters_place))]
// The place of the label above the blocks of counters, so far down.
fn write_counters_place(text: &mut String, top: u32) -> Result<(), AllocError>
    ensures { OnOk result (string_bytes text.new ≡ string_bytes text.old ++ counters_place top) }
{
    push_between(text, "<text x=\"30\" y=\"", top, "\">")
}

#[tactic(auto, unfolding(crate::specs::DrawingsWords::PanelDrawing::Drawing::counters_label))]
// The label above the blocks of counters on one side, so far down.
fn write_counters_label(text: &mut String, is_exit: bool, top: u32) -> Result<(), AllocError>
    ensures { OnOk result (string_bytes text.new ≡ string_bytes text.old ++ counters_label is_exit top) }
{
    write_counters_place(text, top)?;
    text.push_str(counters_words(is_exit))?;
    text.push_str("</text>\n")
}

#[tactic(auto, unfolding(crate::specs::DrawingsWords::PanelDrawing::Drawing::drawing_open))]
// The front of the drawing.
fn write_open(text: &mut String) -> Result<(), AllocError>
    ensures { OnOk result (string_bytes text.new ≡ string_bytes text.old ++ drawing_open) }
{
    write_plate(text)?;
    write_counters_label(text, true, 262)?;
    write_counters_label(text, false, 562)
}

// What stands between the blocks and the wires.
fn write_between(text: &mut String) -> Result<(), AllocError>
    ensures { OnOk result (string_bytes text.new ≡ string_bytes text.old ++ drawing_between) }
{
    text.push_str("</g>\n<g class=\"wires\">\n")
}

// What stands between the wires and the hubs.
fn write_behind(text: &mut String) -> Result<(), AllocError>
    ensures { OnOk result (string_bytes text.new ≡ string_bytes text.old ++ drawing_behind) }
{
    text.push_str("</g>\n<g class=\"hubs\">\n")
}

// The end of the drawing.
fn write_close(text: &mut String) -> Result<(), AllocError>
    ensures { OnOk result (string_bytes text.new ≡ string_bytes text.old ++ drawing_close) }
{
    text.push_str(
        "</g>\n</g>\n<marker id=\"background\" markerUnits=\"userSpaceOnUse\"><use href=\"#board\"/></marker></svg>\n",
    )
}

#[tactic(auto, using(crate::proofs::DrawingsWords::PanelDrawing::Written::drawing_whole))]
/// Writes the drawing of the panel as an SVG element: for each block of hubs its words and a small dot for each hub, for each wire of the
/// list, in its order, a curve with its name, and for each hub at which one of them has an end a larger dot with its name. What is drawn has
/// the id `board`, the element `panel`. A wire links to the element `wire` with its number in the list, from 1, and a larger dot to the
/// element `hub` with the number of the hub. A marker with the id `background` shows what is drawn in the pictures of the page: see
/// [`write_picture_open`].
///
/// Fails only where no memory is left; a front of the drawing may then have been written.
pub fn write_drawing(text: &mut String, wires: &[PanelWire]) -> Result<(), AllocError>
    ensures { OnOk result (GainsDrawing wires.now (string_bytes text.old) (string_bytes text.new)) }
{
    write_open(text)?;
    write_blocks(text, &BLOCKS)?;
    write_between(text)?;
    write_wires(text, wires)?;
    write_behind(text)?;
    write_hubs(text, wires)?;
    write_close(text)
}

/// Writes the front of a picture over the panel: an SVG element of the drawing's size, and in it an empty path with the class `background`.
/// A style sheet shows the marker of that name there, and so the drawing, without a copy of it for each picture. Fails only where no memory
/// is left.
pub fn write_picture_open(text: &mut String) -> Result<(), AllocError>
    ensures { OnOk result (string_bytes text.new ≡ string_bytes text.old ++ picture_open) }
{
    text.push_str(
        "<svg xmlns=\"http://www.w3.org/2000/svg\" viewBox=\"0 0 1250 890\"><path class=\"background\" d=\"M0 0h0\"/>",
    )
}

// A step of a way.
fn write_step(text: &mut String, from: Hub, to: Hub) -> Result<(), AllocError>
    ensures { OnOk result (string_bytes text.new ≡ string_bytes text.old ++ step_text from to) }
{
    let place = hub_place(to);
    if to.letters().are_exits() {
        write_line(text, place)
    } else {
        write_curve(text, hub_place(from), place)
    }
}

#[tactic(auto, using(crate::proofs::DrawingsWords::PanelDrawing::Written::steps_more))]
// The steps of a way behind its first hub.
fn write_steps(text: &mut String, exit: Hub, others: &[Hub]) -> Result<(), AllocError>
    ensures { OnOk result (string_bytes text.new ≡ string_bytes text.old ++ steps_text exit others.now) }
{
    let mut from = exit;
    for to in others {
        write_step(text, from, *to)?;
        from = *to;
    }
    Ok(())
}

/// Writes the way of an impulse, hub by hub, as the data of an SVG path over the drawing: along the curves of its wires, and straight
/// through contacts. Nothing for no hub. Fails only where no memory is left.
pub fn write_way(text: &mut String, way: &[Hub]) -> Result<(), AllocError>
    ensures { OnOk result (string_bytes text.new ≡ string_bytes text.old ++ way_curve way.now) }
{
    let Some((exit, others)) = way.split_first() else {
        return Ok(());
    };
    write_pen(text, hub_place(*exit))?;
    write_steps(text, *exit, others)
}
