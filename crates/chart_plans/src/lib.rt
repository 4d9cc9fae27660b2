//! Which part of the machine serves what of a chart.
//!
//! - `wanted`: what a chart wants of the machine
//! - `plans`: the part that each line, name and column has
#![tactic(auto)]

pub mod plans;
pub mod wanted;
