//! Wiring charts as text, both ways.
//!
//! [`write_setup`] writes a setup as its one text, [`write_setup_2`] in version 2 of the language, whatever the setup; and
//! [`read_setup`], of `wiring_text`, reads a text of either version as its setup, or tells its one fault as a
//! [`WiringFault`]. What a text reads as is said in `wiring_text`; `specs/` says how a setup is written.
//! [`write_parts`] writes the lines of a setup alone, without the frame. [`version_of`] is the version in which a setup is written, and
//! [`version_of_text`] that in which a wiring chart is read.
//! That what is written reads back is a law of both.
#![tactic(auto)]

mod form;
mod laws;
mod parts;
mod version;
mod words;
mod write;

pub use form::WireForm;
pub use laws::wiring_texts_and_setups_are_one_to_one;
pub use parts::write_parts;
pub use version::{version_of, version_of_text};
pub use wiring_text::wiring_reader::read_setup;
pub use wiring_text::{FormNumbers, HubName, Statement, Version, WiringFault};
pub use write::{write_form, write_setup, write_setup_2};
