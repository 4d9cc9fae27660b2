//! Ways by which impulses came in the cycles of a run.
//!
//! By the points of a cycle [`way_to`] tells by which way an impulse reached a hub at one of them, through wires and closed contacts.

pub mod laws;
mod ways_to;

pub use ways_to::way_to;
