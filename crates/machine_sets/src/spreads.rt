//! How sets of rows, one for each place, are spread along wires and passed on by closed contacts, all rows at once.
//!
//! The place k stands for the hub with the number k + 1, but nothing here knows of hubs: wires lead from places below 1040 to others, and
//! contacts back.

mod blocks;
mod contact_runs;
mod lanes;
mod links;
mod passing;
mod paths;
mod sets;

pub use links::Link;
pub use paths::Paths;
pub use sets::{PANEL_PLACES, PlaceSets};
