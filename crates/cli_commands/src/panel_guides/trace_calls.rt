//! The trace of a deck, as a command: a line for each cycle of the run that a planning chart, or a wiring chart, gives of a deck.
//!
//! [`trace_to_end`] does the whole command: the trace is printed cycle by cycle, or why there is none is told on one line.

mod serving;

pub use serving::{print_trace, trace_to_end};
