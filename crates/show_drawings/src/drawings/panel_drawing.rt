//! The control panel as a drawing: our own schematic, not the machine's real layout.
//!
//! Each kind of hub is a labelled block, each hub a dot, and the exits stand above the entries. [`hub_place`] gives the place of a hub:
//! no two hubs share one ([`hubs_have_places_of_their_own`]). [`write_drawing`] writes the drawing as SVG, with a curve for each wire of a
//! list. [`write_picture_open`] begins a picture that shows the drawing once more, and [`write_way`] writes the way of an impulse over it.
//! `specs/PanelDrawing/Drawing.antt` says what is written.

mod blocks;
mod drawing;
mod laws;

pub use blocks::{Block, Coordinates, hub_place};
pub use drawing::{
    PanelWire, ends_at, has_number, has_wire_at, write_block_name, write_drawing,
    write_picture_open, write_way, write_wire_name,
};
pub use laws::{
    blocks_have_all_hubs, exits_stand_above_entries, hubs_have_places_of_their_own,
    places_are_on_the_drawing,
};
