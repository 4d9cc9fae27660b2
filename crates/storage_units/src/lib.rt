//! The storage units: four units that hold 16 columns of a card from cycle to cycle.
#![tactic(auto)]

mod columns;
mod laws;
mod storage;

pub use laws::{
    read_in_is_held_whole, read_out_shows_the_start, storage_units_are_numbered,
    what_is_held_is_kept,
};
pub use storage::Storage;
