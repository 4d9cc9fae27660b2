//! Whether a report fits the machine, and what of the machine serves what of the chart.
//!
//! [`allocate`] answers the [`Plan`] of a chart, or the first capacity of the machine that the chart exceeds, as a
//! [`CapacityFault`]. It stands on `chart_plans`, for what a chart asks for and for plans, and on `capacity`, for what a machine has.
//!
//! `specs/` has the capacities in the order in which they are asked, and the rule of allocation as a relation between
//! totals and counter groups.
#![tactic(auto)]

mod allocation;
mod exceeded;
mod fault;
mod groups;
mod laws;

pub use allocation::allocate;
pub use chart_plans::plans::Plan;
pub use fault::CapacityFault;
pub use laws::{
    charts_exceed_one_capacity, fitting_charts_have_no_fault, the_rule_gives_one_list,
    totals_fit_exactly_where_no_width_is_over,
};
