//! Sets of places as words of 64 bits, rows of places, and the search for what is reached from a set.
//!
//! Place k of a set is bit k % 64 of its word k / 64. It stands for the hub with the number k + 1, but nothing here knows of
//! hubs.

mod bits;
mod bundles;
mod contacts;
mod joins;
mod passing;
mod places;
mod rows;
mod search;
mod shorts;

pub use contacts::{Run, commons_of};
pub use places::{PLACES, WORDS, has, has_within, put_run, put_where, run};
pub use rows::{EXITS, Rows};
pub use search::{meet, reach, reach_by_rows};
