//! Why a wheel printed its character: the ways by which impulses came to it.
//!
//! - `ways`: ways from an exit to a hub, by wires and closed contacts
//! - `explanations`: what is told of a wheel of a printed line
//! - `runs`: a run that is followed from cycle to cycle
#![tactic(auto)]

pub mod explanations;
pub mod runs;
pub mod ways;
