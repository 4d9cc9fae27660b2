//! Sheets to look at beside a chart, and the commands that draw them.
//!
//! - `sheets`: the printed lines under a ruler of the wheels, and what the fields read on a card
//! - `bad_columns`: which column of a card is at fault, and why
#![tactic(auto)]

pub mod bad_columns;
pub mod sheets;
mod wording;
