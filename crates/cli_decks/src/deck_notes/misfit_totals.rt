//! How large the totals of a deck are that have more digits than their total lines have room for.
//!
//! [`write_large_totals`] writes a line for each, beside what `report_misfits` tells of the first of them: its level, its name, the last card of its
//! group, the total, and for how much its line has room.
//!
//! `specs/MisfitTotals/Large.antt` says which totals are told and what is written of each, by the report's own groups and totals.

mod sums;
mod walk;
mod words;

pub use walk::write_large_totals;
