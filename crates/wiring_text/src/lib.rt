//! Wiring charts as text, and their reader: what a visitor holds beside the panel, each wire from exit to entry.
//!
//! `specs/` has the grammar apart from any scanner: what a hub's name is, what a line says, which setup a text reads as, and what is
//! wrong with it. [`Statement`] is what a line says, and [`WiringFault`] tells the one fault of a text. `wiring_reader` and `wire_chart`
//! read and write such texts. The crate stands on `hubs`, for setups and the hub table, on `card_code`, for the lines of a text,
//! and on `chart_lines`, for the tokens of a line.
//!
//! - `wiring_reader`: the reader of wiring charts
#![tactic(auto)]

mod fault;
mod statement;
pub mod wiring_reader;

pub use fault::WiringFault;
pub use statement::{FormNumbers, HubName, Statement, Version};
