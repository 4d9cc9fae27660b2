//! The legend of a panel: what each line of its chart asks for.
//!
//! [`legend`] goes through the lines of a chart. Under each it puts a sentence, that of the line's [`LegendRow`] of the wiring table, and the
//! stops, the jacks and the wires that this line asks for, as a wiring chart spells them. What several lines ask for stands under each
//! of them. [`write_group`] writes what stands under one line, and [`line_setups`] has for each line words and what it asks for.
//! [`lines_make_the_setup`] tells that nothing of the chart's setup is left out, and that nothing else is named.
#![tactic(auto)]

mod laws;
mod row;
mod wording;
mod writing;

pub use laws::lines_make_the_setup;
pub use row::LegendRow;
pub use writing::{legend, line_setups, write_group};
