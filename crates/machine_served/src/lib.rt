//! The machine whose units run ahead of one another: it prints the same lines in whatever order its units are served.
//!
//! - `served`: units of one cycle, in any order
//! - `waits`: which units wait for which
//! - `served_units`: the law for the 45 units of the machine
//! - `served_runs`: runs of a deck, round by round
#![tactic(auto)]

pub mod served;
pub mod served_runs;
pub mod served_units;
pub mod waits;
