//! The commands for decks: a deck is checked, and one is made of a text.
//!
//! - `check_calls`: a chart and then all cards of a deck are checked
//! - `deck_notes`: what is told of a deck beside its faults
//! - `folding`: texts folded into decks
#![tactic(auto)]

pub mod check_calls;
pub mod deck_notes;
pub mod folding;
