//! The cards of a deck on the page for a browser.
//!
//! [`write_deck`] writes the cards one below another, each a link, and [`write_card_sections`] the element of each: its picture, in which
//! cycles it stood at the reading stations, and what the fields of the chart have on it. The element of the third card has the id `card3`.
//! `specs/` says what is written.

mod deck;
mod fields;
mod readings;
mod sections;

pub use deck::write_deck;
pub use sections::write_card_sections;
