//! The rules on the lines of a planning chart, each with its test: on fields, levels and totals, and on what is printed.
//!
//! - `field_rules`: the fields of a planning chart by their names, and the rules on what its lines say of fields, control levels and totals
//! - `print_rules`: what a planning chart prints, on which lines and print wheels, and the rules on that
#![tactic(auto)]

pub mod field_rules;
pub mod print_rules;
