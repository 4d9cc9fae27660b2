//! The selectors: pilots, group indication and column splits, and the closed contacts of the panel.
#![tactic(auto)]

mod balance;
mod closed;
mod indicate;
mod laws;
mod pilots;
mod splits;
mod spread;

pub use balance::{BalanceLatches, GROUPS};
pub use closed::{contacts, steady_contacts, with_carries, with_splits};
pub use indicate::Indicate;
pub use laws::{
    closed_contacts_are_contacts, pilots_follow_their_pickups, pilots_stand_through_a_cycle,
    selectors_lead_to_one_side,
};
pub use pilots::{PILOTS, Pilots};
pub use splits::Splits;
