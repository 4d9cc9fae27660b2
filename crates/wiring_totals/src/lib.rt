//! The wires of total lines: totals of amounts, and texts.
//!
//! [`wire_total`] adds what the table has for a total, whose counter has one group or two: its entry from cards or from the total
//! below it, its read-out, its sign conversion, its transfer to the next higher one and the carry between its groups;
//! [`wire_total_text`] adds the way of a text through its storage unit. [`panel_group`] names a counter group of a plan on the panel.
#![tactic(auto)]

mod amount;
mod counter;
mod entry;
mod total;
mod total_text;
mod transfer;

pub use amount::wire_total;
pub use counter::panel_group;
pub use total_text::wire_total_text;
