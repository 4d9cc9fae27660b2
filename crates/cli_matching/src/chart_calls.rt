//! Which report a panel prints, as a command: from the bytes of a wiring chart to the planning chart that is printed, what is told and the
//! status.
//!
//! [`chart_to_end`] does the whole command, and [`print_chart`] prints the chart.

mod found;
mod serving;

pub use serving::{chart_to_end, print_chart};
