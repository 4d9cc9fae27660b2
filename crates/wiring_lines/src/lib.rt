//! What the lines of a chart put on the panel, but for its totals.
//!
//! - `line_wires`: the wires of each kind of line
//! - `jacks_and_tape`: the jacks and the carriage tape
#![tactic(auto)]

pub mod jacks_and_tape;
pub mod line_wires;
