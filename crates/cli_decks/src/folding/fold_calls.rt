//! The command that folds a text into a deck.
//!
//! [`fold_to_end`] does the whole command: the deck is written, and what was changed is told. A text with a line that no card can hold is
//! refused, and each such line is named.

mod long_cards;
mod serving;

pub use long_cards::write_long_cards;
pub use serving::fold_to_end;
