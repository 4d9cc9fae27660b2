//! The totals of an amount, on numbers alone: cards go into the lowest total, and at the end of a group its total shows and goes up.

pub mod counter_cycles;
pub mod laws;
