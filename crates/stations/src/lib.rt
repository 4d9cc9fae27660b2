//! The reading stations and comparing: cards pass two stations, and two entries of a position are compared.
#![tactic(auto)]

mod comparing;
mod lanes;
pub mod laws;
mod punches;
mod stations;

pub use comparing::Comparing;
pub use stations::Stations;
