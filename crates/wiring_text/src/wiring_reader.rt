//! The reader of wiring charts.
//!
//! [`read_setup`] reads a text as its setup, or tells its one fault. What a text reads as, and what is wrong with it, is said in
//! `wiring_text`; `specs/WiringReader/` has the steps between the code and that grammar, as functions of tokens and lines.

mod line;
mod name;
mod panel;
mod read;

pub use read::read_setup;
