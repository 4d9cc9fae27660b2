//! One page for a browser: the report, the panel, a way for each row that a wheel received and the cycles of the run.
//!
//! [`show_chart`] makes the page of a chart and a deck, [`show_panel`] that of a panel that is wired as a wiring chart says, and [`show_read`]
//! that of a panel by the chart that is read off it. It is one file of XHTML without scripts, and needs no network: the printed pages, the
//! cards, the drawing of the panel, the legend or the wiring chart,
//! for each printed character an element with its explanation, to which the character links, for each wire and each of their hubs an element
//! with what came through it, and an element for each cycle of the run; of a long deck for some pages and cycles.
//! `specs/Page.antt` says what is written.
//!
//! - `shown_lines`: the lines of a run that are shown, each with the cycle that placed it
//! - `cycle_steps`: the points of a cycle, step by step
#![tactic(auto)]

mod begin;
mod choice;
mod counts;
pub mod cycle_steps;
mod cycles;
mod frame;
mod head;
mod laws;
mod marks;
mod page;
mod read_panel;
mod show;
mod shown;
pub mod shown_lines;

pub use laws::quiet_cycles_did_nothing;
pub use read_panel::show_read;
pub use show::{show_chart, show_panel};
