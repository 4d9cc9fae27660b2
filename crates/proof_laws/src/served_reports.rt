//! The headline with units that run ahead of one another: a panel that is wired for a chart prints the chart's report, whatever the
//! schedules are, and whatever orders the units are served by.
//!
//! Nothing here is run: each function's contract is a law.

pub mod laws;
