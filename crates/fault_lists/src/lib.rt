//! The command that lists all faults of a chart, from the bytes of the chart.
//!
//! [`list_chart_to_end`] answers `ok` as `check` does, or lists the faults on `out` and tells on standard error the one that `check` tells.
//! Of a text in which no form derives some lines, each of these is shown with its slip, and behind them what the other lines break whatever
//! these say; of a chart that was read every rule that is broken, at every line that breaks it; of a lawful chart every capacity that it
//! exceeds, with the lines that ask for it.
//!
//! `specs/Endings.antt` says what is listed and told in each case, `Behind.antt` what is listed behind lines of no form, and `TextEntries.antt`
//! and `CapacityEntries.antt` the entries that `fault_chart_words` doesn't have.
//!
//! - `misread_lines`: all lines of a chart's text that no form derives
//! - `capacity_faults`: all capacities of a machine that a chart exceeds
//! - `text_lists`: the same of a wiring chart, or of whichever of the two a text is
#![tactic(auto)]

mod behind;
mod capacities;
pub mod capacity_faults;
mod entries;
mod laws;
mod listing;
pub mod misread_lines;
mod rules;
pub mod text_lists;

pub use laws::marked_words_stand_in_no_form;
pub use listing::{list_chart, list_chart_to_end};
