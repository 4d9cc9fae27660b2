//! Whether a setup is wired for a chart, and what is missing and what is extra where it is not.
//!
//! [`match_setup`] reads a plan off the panel, wires the chart by it, and compares the two setups as sets of wires, jacks and stops.
//! `specs/` says what its answer tells.

mod answer;
mod comparing;

pub use answer::Matching;
pub use comparing::match_setup;
