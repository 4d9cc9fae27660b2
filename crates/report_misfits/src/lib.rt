//! The totals of a deck that have more digits than their total lines have room for.
//!
//! [`OpenSums`] takes the cards of a deck one by one and tries the totals of each group where it ends, with one look for a break a card.
//! [`first_misfit`] does so for a deck that is held whole. [`value_of`] is the value of one amount on one card.
#![tactic(auto)]

mod groups;
pub mod laws;
mod misfit;
mod open_sums;
mod open_total;
mod values;

pub use misfit::{Misfit, first_misfit};
pub use open_sums::OpenSums;
pub use values::value_of;
