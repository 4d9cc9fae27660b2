//! Decks read card by card from any source of bytes.
//!
//! [`CardLines`] gives the cards of the deck that a source's bytes are, one by one, however the source cuts them. It holds a block of the
//! source, at most 65,536 bytes, and apart from it the line being read, at most 81 bytes: 80 characters and a CR, in an `ArrayVec`. A line
//! is cut from the block as soon as the one before it is given; if the block ends within it, it goes on with the next one. Nothing of this
//! takes memory.
//!
//! ```text
//! let mut lines = CardLines::new(FromRead::new(file));
//! while let Some(card) = lines.next_card()? { .. }
//! ```
//!
//! This module stands on `card_code`, which says what a line and a card are, and on `devices`, whose sources it offers too.

mod block;
mod fault;
mod front;
mod held;
mod reading;

pub use crate::devices::{DeviceFailed, FromRead, Source};
pub use fault::ReadFault;
pub use reading::CardLines;
