//! Printed lines with their places: what a machine prints, and what a report is made of.
//!
//! [`PlacedLine`] is a line of print with its page and its line on the page, and [`in_order`] tells whether the places of lines rise
//! and stand on the form. This module stands on no other: charts and their reports speak of its lines, and so do machines.

mod order;
mod placed_line;

pub use order::in_order;
pub use placed_line::{LINE_WHEELS, PlacedLine};
