//! Which units of the machine wait for which, by the wires of a setup: a unit waits for another where an impulse from an exit of
//! the other may reach an entry that the unit senses, by wires and contacts, open ones too.

mod bits;
mod owners;
mod sets;
mod waiting;

pub use bits::{has_bit, with_bit};
pub use waiting::{UNITS, Waits, all_waits};
