//! The guide to faults: for each number that a fault line can have the fault's name, its cause, its cure and an example.
//!
//! [`fault_entry`] finds the entry of a number. The words are a table in the code; `bench/faults-page` sees that docs/FAULTS.md has the same.

mod entry;
pub mod guides;
mod table;

pub use entry::{fault_entry, told_faults_have_entries};
pub use table::FaultEntry;
