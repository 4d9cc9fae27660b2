//! A panel that is wired for a chart, line by line: its wires with the lines that ask for them, and its legend as markup.
//!
//! [`chart_wires`] lists the wires of a setup for a drawing, each with the first line of the chart that asks for it, and
//! [`write_legend`] writes the groups of the chart's legend, each as an element that is named for its line. `specs/` says what is told.

mod asking;
mod legends;

pub use asking::chart_wires;
pub use legends::{write_legend, write_legend_section};
