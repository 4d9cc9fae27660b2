//! All capacities of a machine that a chart exceeds.
//!
//! `allocate` tells the first of them. [`capacity_faults`] tells each, in the same order: 61 by width, 62 to 66, 67 by level.
//!
//! `specs/CapacityFaults/AllOver.antt` says which are told, and what is told of each.

mod exceeded;

pub use crate::capacity_faults::exceeded::capacity_faults;
