//! Runs whose pages are printed only once the whole deck has run: all of them, or some.
//!
//! [`run_whole_to_end`] does the whole command. The report is held until then, so a deck of which a card is refused leaves nothing printed, nor
//! does a report without the first of the pages. [`chosen_pages`] answers the pages of a text that a [`PageRange`] names, [`has_page`] whether a
//! text has a page, and [`no_page`] what is told of one that isn't there. [`pages_are_their_bytes`] is the law of pages.

mod laws;
mod pages;
mod serving;

pub use laws::pages_are_their_bytes;
pub use pages::{PageRange, chosen_pages, has_page};
pub use serving::{no_page, print_whole_run, run_whole_to_end};
