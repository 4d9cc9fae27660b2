//! The control keys of a deck that come back after another: where they do, the deck isn't sorted by its control fields.
//!
//! [`key_returns`] tells each group of a deck that begins with a key which stood before in the group of the level above, and [`write_returns`]
//! writes them, a line for each, with what the control fields read. [`highest_break`] is the level of the break between two cards.
//!
//! A group of a level ends at a break of this level or of a higher one, as the report has it; a break of a higher level begins all lower
//! levels anew. So a key of level 1 that stood before under another key of level 2 doesn't come back.
//!
//! `specs/KeyReturns/Returns.antt` says which keys come back, by the report's own breaks, and `Words.antt` what is written of them.

mod earlier;
mod keys;
mod returns;
mod words;

pub use keys::highest_break;
pub use returns::{Return, key_returns};
pub use words::write_returns;
