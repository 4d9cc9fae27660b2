//! What is told of a run, in words.
//!
//! - `explanation_text`: why a wheel printed its character
//! - `traces`: a line for each cycle
#![tactic(auto)]

pub mod explanation_text;
pub mod traces;
