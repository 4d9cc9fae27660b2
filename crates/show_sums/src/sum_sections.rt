//! The sums behind the figures of a report on the page for a browser.
//!
//! [`page_sums`] finds the sum behind each printed figure that comes from a counter group: the cycles in which something was added or
//! subtracted. [`write_sum_sections`] writes the element of each: a row for each of these cycles, with the number that the counter held
//! after it, which links to the card or to the lower total that it comes from. [`write_card_sums`] says into which sums a card went.
//! `specs/` says what is written.

mod between;
mod into;
mod labels;
mod rows;
mod sections;
mod sums;
mod targets;

pub use into::write_card_sums;
pub use sections::{write_first_sum, write_sum_sections};
pub use sums::{PageSum, page_sums, sum_places};
