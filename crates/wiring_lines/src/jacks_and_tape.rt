//! The jacks and the carriage tape of a chart.
//!
//! [`plug_jacks`] plugs the jacks that say which cycles print, and zero control on the wheels of amounts; [`tape_of`] is the tape of a
//! chart's form and stops. [`plug_line_jacks`] and [`line_tape`] do so for one line of the chart alone.

mod chart_tape;
mod of_line;
mod panel_jacks;

pub use chart_tape::tape_of;
pub use of_line::{jacks_and_stops_are_of_lines, line_tape, plug_line_jacks};
pub use panel_jacks::plug_jacks;
