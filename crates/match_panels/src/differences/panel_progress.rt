//! How far a panel is beside a chart: which lines of the chart stand on it, and which lines of its wiring chart are extra.
//!
//! [`line_counts`] counts for each line of a chart how much it asks for, and how much of that a setup has not. [`write_standings`] tells
//! of these counts which lines are done, begun and not begun, and [`write_counts`] how much each line lacks. [`extra_lines`] goes through
//! a wiring chart, and tells each line of it that says something that is extra. `specs/PanelProgress/` says what each text is.

mod counting;
mod standings;
mod surplus;
mod tape_forms;

pub use counting::{LineCount, Standing, line_counts};
pub use standings::{write_counts, write_standings};
pub use surplus::extra_lines;
pub use tape_forms::{forms, is_same_form};
