//! Slips on a panel: what may be one too many on it, and what it may lack.
//!
//! A panel with a slip is often read wrong where the panel without it would be read right. So [`toggles_of`] lists what may be tried: each
//! wire out, each jack plugged or pulled, and each wire in that stands beside others in a run or would name a part in use. [`moves_near`] lists
//! wires that may have been put into the hub beside. [`toggled`] is the panel with one of these changes.

mod candidates;
mod moves;
mod toggles;

pub use moves::{is_moved, moves_near};
pub use toggles::{Toggle, Wire, toggled, toggles_of, wires_of};
