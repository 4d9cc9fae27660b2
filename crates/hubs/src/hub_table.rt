//! The hub table of the control panel: a row for each kind of hub.
//!
//! A row has the letters of the kind, whether impulses leave or enter its hubs, how many hubs stand before them in the
//! table, and which numbers they have. Nothing stands below; `hubs` gives each hub of the panel its number by the table.

mod laws;
mod letters;
mod shape;

pub use laws::hub_table_is_unbroken;
pub use letters::{KINDS, Letters};
pub use shape::{Numbers, Shape};
