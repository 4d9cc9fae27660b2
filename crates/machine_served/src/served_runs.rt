//! Runs of a deck in which the units of the machine run ahead of one another in each cycle, round by round, by the orders of a
//! service. They place the lines of the machine in which all units act at once.

mod contacts;
mod counts;
mod course;
mod feed;
mod rounds;
mod run;
mod sizes;
mod units;

pub use counts::Counts;
pub use run::{Served, simulate_served};
