//! What can be wrong with a chart and with a deck, and the line that is told of each fault.
//!
//! [`ChartFault`] and [`RunFault`] say why a chart and why a deck for it is refused. A [`Fault`] is what the program says where a
//! command is not carried out: each fault of a chart, a deck or a wiring chart becomes one, with its number in the catalogue of faults
//! and every figure that stands beside it. [`tell`] writes its line and answers the program's [`Ending`]. This module stands on
//! those that find the faults, and on nothing of the machine and the report.

mod chart;
mod deck;
mod fault;
mod telling;

pub use chart::ChartFault;
pub use deck::RunFault;
pub use fault::{Fault, unprinted};
pub use telling::{Ending, tell, write_line, write_place};
