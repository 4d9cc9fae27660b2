//! What is told beside a panel and its pages, as commands: the legend of a planning chart, why a wheel of a printed line printed its
//! character, the sum behind it, and the trace of the run.
//!
//! [`legend_of`] answers the legend of the bytes of a chart, and [`legend_to_end`] does the whole command: the legend is printed, or why
//! there is none is told on one line. [`explained`] answers the explanation of the wheel at a [`Place`] of the pages that a planning chart,
//! or a wiring chart, gives of a deck, and [`tell_unexplained`] tells on one line why there is none. [`planned_run`] and [`wired_run`] are
//! the panel and the cards of a text and a deck, for those who tell something else of them.
//!
//! - `trace_calls`: the trace of a deck, as a command
//! - `ledger_calls`: what is told of a wheel of a printed line, as commands

mod answers;
mod asking;
mod entries;
mod known_totals;
mod laws;
pub mod ledger_calls;
mod legends;
mod panels;
mod place;
mod text_runs;
pub mod trace_calls;
mod unexplained;

pub use answers::{explained, unexplained_at};
pub use entries::unexplained_wheels_have_entries;
pub use laws::explained_lines_are_on_pages;
pub use legends::{legend_of, legend_to_end, print_legend};
pub use panels::{PlannedRun, WiredRun, check_panel, is_wiring_text, planned_run, wired_run};
pub use place::Place;
pub use unexplained::{Unexplained, tell_unexplained, write_unexplained};
