//! Punched cards and the card code: which rows stand for which character, and decks as text.
//!
//! A [`Column`] is a set of punched rows, and a [`Card`] has 80 columns. [`read_deck`] reads a deck
//! text, one card a line; [`next_line`] cuts any text into lines by the same rule. [`check_deck`] and
//! [`next_card`] read a deck card by card and keep none.
//!
//! ```text
//! let cards = read_deck(alloc, b"BOLT   A01\nNUT    B22\n")?;
//! cards[1].column(8).to_char() // Some('B')
//! ```
//!
//! The crate stands on no other of this repository. It promises that characters and sets of rows
//! are the card code both ways, that lines are those of the text, and that a deck text is read as
//! its one deck or refused for its one fault.
#![tactic(auto)]

mod card;
mod card_by_card;
mod code;
mod column;
mod deck;
mod lines;
mod row;

pub use card::{CARD_COLUMNS, Card};
pub use card_by_card::{check_deck, next_card};
pub use code::code_is_one_to_one;
pub use column::Column;
pub use deck::{DeckFault, MOST_CARDS, deck_text_is_unambiguous, punch_line, read_card, read_deck};
pub use lines::{next_line, without_cr};
pub use row::{ROWS, Row};
