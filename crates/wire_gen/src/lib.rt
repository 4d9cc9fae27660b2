//! The setup of the panel that a chart asks for, with its plan.
//!
//! [`wire`] answers a setup with exactly the wires, the jacks and the tape that `wiring_table` defines. It goes through the lines of
//! the chart: what `wiring_lines` adds for each of them are the wires of the table. [`line_setup`] does so for one line alone.
#![tactic(auto)]

mod lines;
mod one_line;
mod wiring;

pub use one_line::line_setup;
pub use wiring::wire;
