//! A panel beside a chart: whether it is wired for it, and what is missing and what is extra.
//!
//! - `differences`: two setups side by side
//! - `matching`: a setup beside a chart
#![tactic(auto)]

pub mod differences;
pub mod matching;
