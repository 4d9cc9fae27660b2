//! How much of each thing a machine has for charts to take.
//!
//! A profile tells the counter groups, pilot selectors, comparing positions, storage units, column splits and
//! group-indicate positions of a machine. It stands on nothing, and takes no memory.
#![tactic(auto)]

mod group;
mod profile;

pub use group::CounterGroup;
pub use profile::Profile;
