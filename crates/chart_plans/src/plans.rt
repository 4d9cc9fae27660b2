//! Plans: which part of the machine serves what of a chart.
//!
//! A [`Plan`] tells the counter, pilot, storage unit, column split or position of each line, name or column that has
//! one, and whether it is a plan of a chart. A [`TotalCounter`] is what serves a total, and [`PartNumbers`] tell which of the
//! other parts serve. How a plan is made is not known here, nor why a chart has none.
//!
//! `specs/` says when counters are an assignment to totals, and when a plan serves all that a chart wants.

mod assignment;
mod counter;
mod part_numbers;
mod places;
mod plan;

pub use counter::TotalCounter;
pub use part_numbers::{PartKind, PartNumbers};
pub use plan::Plan;
