//! Laws of whole cycles. Nothing here is run.
//!
//! - `whole_cycles`: a cycle of the machine as a whole
//! - `totals`: the totals of an amount, on numbers alone
#![tactic(auto)]

pub mod totals;
pub mod whole_cycles;
