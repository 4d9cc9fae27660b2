//! The lines of a planning chart: what they say, and the tokens that they are made of.
//!
//! - `tokens`: the tokens of a line, for all text formats
//! - `charts`: what a chart says, apart from how it is spelled
#![tactic(auto)]

pub mod charts;
pub mod tokens;
