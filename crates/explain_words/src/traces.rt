//! The trace of a run of the machine: a line for each cycle, which tells what the units did in it and which line it printed.
//!
//! [`write_trace`] runs a deck through a setup cycle by cycle, and writes the line of each cycle before the next one runs. It keeps the
//! machine and one line. [`trace_part`] keeps the lines of some cycles, too. What the lines say is told in `specs/`.

mod groups;
pub mod laws;
mod lines;
mod parts;
mod places;
mod storage;
mod tracing;

pub use parts::{CycleChoice, TracePart, trace_part};
pub use tracing::write_trace;
