//! Units that run ahead of one another within a cycle: in whatever order they emit and sense, each ends the cycle as it does
//! where all units act at once.
//!
//! `specs/` has the laws that each unit keeps, who waits for whom, the steps of a cycle, and rounds by orders. The laws over
//! them hold of any units that keep to their own hubs. A [`Service`] is a list of orders of the machine's 45 units.

mod laws;
mod service;

pub use laws::{
    a_unit_keeps_to_its_own, cycles_have_their_steps, rounds_are_few, rounds_are_steps,
    schedules_end_as_at_once, some_unit_can_step, units_can_act_at_once, units_can_go_by_steps,
};
pub use service::{NotAnOrder, Service, UNITS, is_order};
