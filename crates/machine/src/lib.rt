//! The simulated machine: the 45 units on a panel, cycle by cycle.
//!
//! A cycle has fourteen points. At each point all units emit by their states, the panel's wires and closed contacts make
//! the picture of the impulsed hubs, and then all units sense it; after the last point each unit ends the cycle. What
//! that is, for every setup of the panel and every deck, is told in `specs/`.
#![tactic(auto)]

mod bits;
mod closed;
mod cycle;
mod fault;
mod feed;
mod group_rows;
mod groups;
mod kept;
pub mod laws;
mod lines;
mod machine;
mod marked;
mod rows;
mod run;
mod stepped;
mod storage_rows;
mod unit_set;
mod units;

pub use fault::FeedFault;
pub use kept::{KeptCycle, KeptPoint};
pub use machine::Machine;
pub use page_text::placed_lines::{LINE_WHEELS, PlacedLine};
pub use run::simulate;
pub use stepped::SteppedMachine;
pub use storage_rows::STORAGE_UNITS;
pub use unit_set::UnitSet;
