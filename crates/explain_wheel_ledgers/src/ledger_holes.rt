//! Ledgers down to the holes: below each entry stands by which ways the impulses came that made it, the control impulses and the digits.
//!
//! [`tell_ledger_down`] tells such a ledger. A number that came from another counter group leads to the ledger of that one: [`feeds`] tells
//! whether it came from there, by whether that group is read out in the cycle.

mod controls;
mod digits;
mod feeding;
mod positions;
mod telling;
mod way_lines;

pub use feeding::feeds;
pub use telling::tell_ledger_down;
