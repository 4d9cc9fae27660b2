//! The program unit: it says which cycle follows, and tells of each cycle at its control point.
//!
//! [`Program`] keeps how far a card has come through its cycles, and the highest level whose program cycles were called
//! for. [`Program::next_cycle`] answers what follows from that.
//!
//! The crate stands on `net`. It promises the order of cycles for every setup: the run-in, then for each card its card
//! cycle and three program cycles for each level that ends with it, and three heading cycles before a printing cycle that
//! is due while the restore latch is set.
#![tactic(auto)]

mod laws;
mod program;
mod stage;

pub use laws::{headings_come_once, levels_run_in_order};
pub use program::Program;
pub use stage::Stage;
