//! What a report is made from and goes to: readers and writers that may fail, and decks read card by card.
//!
//! - `devices`: where bytes come from and where they go to
//! - `card_lines`: a deck read card by card from any source of bytes
//! - `decks_in_row`: several decks read as one
#![tactic(auto)]

pub mod card_lines;
pub mod decks_in_row;
pub mod devices;
