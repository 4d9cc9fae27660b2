//! What is told of a deck beside its faults: control keys that come back after another, and how large totals are that don't fit.
//!
//! - `key_returns`: the control keys of a deck that come back after another
//! - `misfit_totals`: how large the totals of a deck are that have more digits than their total lines have room for

pub mod key_returns;
pub mod misfit_totals;
