//! Which cycles of a run made the number that a counter group holds.
//!
//! - `ledgers`: the ledgers of counter groups, and their text
//! - `cycle_ways`: the ways by which impulses came in these cycles
#![tactic(auto)]

pub mod cycle_ways;
pub mod ledgers;
