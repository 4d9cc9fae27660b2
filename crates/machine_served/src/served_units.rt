//! The machine's 45 units keep to their own hubs, so they may run ahead of one another: the lines are the same.
//!
//! Nothing here is run: each function's contract is a law.

mod runs;

pub use runs::{served_cycles_are_cycles, served_runs_print_the_same, units_keep_to_their_own};
