//! Texts folded into decks that the machine can read, and the command for it.
//!
//! [`fold`] makes the deck of a text: small letters become capitals, tabs become blanks up to the next stop, and any other byte that no card
//! has becomes a character that the caller names. It tells how often each kind of change was made, and where first; [`write_changes`]
//! writes that. A line keeps its place, however long it is: the lines of the deck are the lines of the text.
//!
//! This module stands on `card_code`, which says what a card has and what a line is.
//!
//! - `fold_calls`: the command that folds a text into a deck

mod changes;
pub mod fold_calls;
mod folding;
mod laws;
mod telling;

pub use changes::{Change, Tally, TextPlace};
pub use folding::{Changes, Folded, fold};
pub use laws::{folded_lines_are_punchable, folded_texts_keep_lines};
pub use telling::write_changes;
