//! Punched cards as drawings.
//!
//! [`write_shapes`] writes what is drawn once: a blank card, the fields of a chart, and each card of a deck with its print and its holes.
//! [`write_shown_card`] shows a card in a picture. The holes drawn are exactly those of the card's columns ([`holes_are_punches`]).
//! `specs/CardDrawing/Drawings.antt` says what is written.

mod drawings;
mod fields;
mod holes;
mod laws;

pub use drawings::{characters, write_shapes, write_shown_card};
pub use laws::holes_are_punches;
