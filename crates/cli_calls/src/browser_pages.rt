//! The page for a browser, as a command: from the bytes of a planning chart or a wiring chart, and of a deck.
//!
//! [`page_of`] answers the page of a text and a deck, and [`show_to_end`] does the whole command: the page is written, or why there is none
//! is told on one line. What stands on the page is told in `show_page`.

mod asked;
mod pages;
mod serving;

pub use pages::page_of;
pub use serving::{print_page, show_to_end};
