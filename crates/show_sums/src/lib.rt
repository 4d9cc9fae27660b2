//! The cards of a deck and the sums behind printed figures, on the page for a browser.
//!
//! - `sum_sections`: the sums
//! - `card_sections`: the cards
#![tactic(auto)]

pub mod card_sections;
pub mod sum_sections;
