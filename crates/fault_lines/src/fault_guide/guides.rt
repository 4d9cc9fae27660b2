//! The guide to faults, as a command: the entry of a fault is printed.
//!
//! [`entry_text`] is the text of an entry, and [`fault_to_end`] does the whole command: it finds the entry of a number and prints it, or
//! tells on one line that no fault has the number.

mod entries;
mod serving;

pub use crate::fault_guide::{FaultEntry, fault_entry};
pub use entries::entry_text;
pub use serving::{fault_to_end, tell_unknown};
