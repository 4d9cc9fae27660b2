//! Why a wheel of a printed line printed its character, as a text.
//!
//! [`explain_wheel`] explains a wheel of a line that a setup prints of a deck, and [`explain_text`] answers its text alone; [`wheel_text`] writes what was told of a wheel, for those
//! who ask for more than one wheel of a line, and [`page_wheel_text`] explains the wheels of a page by one run of the deck. [`write_way`]
//! writes a way alone. The lines that tell the place, the cycle, the ways and who asks for their wires have one form, which a program can
//! read (`specs/Text.antt`, `specs/Asked.antt`); the others are words behind a front of their own, so that none of them reads as a way ([`only_rows_tell_ways`]), and no
//! note as a line that tells who asks for wires ([`no_note_asks_for_wires`]).

mod asked;
mod closing;
mod laws;
mod lines;
mod names;
mod notes;
mod page;
mod text;
mod zero_control;

pub use laws::{no_note_asks_for_wires, only_rows_tell_ways};
pub use names::write_way;
pub use notes::{WayCycle, write_way_lines};
pub use page::page_wheel_text;
pub use text::{ToldWheel, explain_text, explain_wheel, wheel_text};
