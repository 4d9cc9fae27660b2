//! All faults of a chart at once, every rule that is broken at every line that breaks it, and what is told of each.
//!
//! [`broken_rules`] lists them in the order of the lines, and those of one line in the order of the rules' numbers. `check` of
//! `chart_rules` tells of the same chart the lowest rule that is broken and the lowest line that breaks it; that this is an entry of the
//! list, and the first by the rules' numbers, is a clause here. A rule that a line breaks only since something else is wrong, as a name
//! without a FIELD, is left out.
//!
//! `specs/Listed.antt` says which pairs of rule and line are listed, and in which order.
//!
//! - `fault_words`: what is told of each fault of a chart
#![tactic(auto)]

pub mod fault_words;
mod listing;
mod tests;
mod wording;

pub use listing::{BrokenRule, broken_rules};
