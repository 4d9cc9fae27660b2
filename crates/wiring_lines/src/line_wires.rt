//! The wires of each line of a chart but those of total lines: a function for each thing that a line can say, which adds the wires that
//! the table has for it.
//!
//! What is added is told by relations between exits and entries, row by row of the table (`specs/HelperRows.antt`). `wiring_totals` builds
//! on this module's steps (a wire, a character, the wheel of a digit, the sides of a pilot), and `wire_gen` goes through the lines of the
//! chart.

mod adding;
mod character;
mod control;
mod detail;
mod figures;
mod items;
mod pilot;
mod spacing;

pub use adding::connect;
pub use character::{wire_character, wire_literal, wire_point};
pub use control::wire_control;
pub use figures::{digit_wheel, mark_wheel};
pub use items::wire_detail;
pub use pilot::{mark_characters, negative_side, positive_side, rule_of, wire_pickup};
pub use spacing::{wire_after, wire_space};
