//! The hubs and the jacks of the control panel, and what is wired and plugged on it.
//!
//! By the hub table of `hub_table` each hub has a number, 1 to 1936, and is an exit, which impulses leave, or an entry,
//! which they enter. A jack switches something on where it is plugged; each has a place, 0 to 367.
//!
//! - `hub_table`: the hub table
//! - `setups`: wires, jacks and the carriage tape
#![tactic(auto)]

mod carries;
mod hub;
pub mod hub_table;
mod jack;
mod laws;
pub mod setups;
mod text;

pub use carries::{carry_into, carry_out_of, is_one_group};
pub use hub::{Group, Hub};
pub use jack::{JACKS, Jack};
pub use laws::hubs_and_numbers_are_one_to_one;
pub use text::write_hub;
