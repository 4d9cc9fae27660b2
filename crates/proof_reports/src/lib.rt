//! The proof that a machine wired for a chart prints the chart's report. Nothing here is run. The headline itself stands on the calls of
//! `compile407`.
//!
//! - `printed_lines`: what wheels print of the sets of rows that they receive
//! - `wired_panels`: what impulses reach which hubs of a panel that is wired for a chart
//! - `printed_reports`: the two joined, card by card
#![tactic(auto)]

pub mod printed_lines;
pub mod printed_reports;
pub mod wired_panels;
