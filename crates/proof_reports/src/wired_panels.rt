//! What impulses reach which hubs of a panel that is wired for a chart, and what its cycles ask by them of counter groups, print wheels and
//! carriage.
//!
//! No impulse passes two contacts in such a panel, so what comes to an entry comes straight from an emitting exit or through one closed
//! contact. `proofs/` inverts the wiring table entry by entry: comparing, the storage units, the pilots, the counter groups, and the contacts
//! before the print wheels. What numbers, characters and places these impulses make is told in `panel_cycles`.
//!
//! - `panel_cycles`: what the cycles of a panel that is wired for a chart ask of its counter groups, its print wheels and its carriage

pub mod laws;
pub mod panel_cycles;
