//! Several decks in a row, read as one.
//!
//! [`DecksInRow`] reads its readers one behind the other. Each begins on a line of its own: if the last line of a deck has no end, it gets
//! one. A CR that stands alone behind the last line end is no line, and is left out. So the cards of the decks follow one another, and none
//! comes between: [`decks_keep_their_lines`] is the law.

mod laws;
mod row;
mod stand;

pub use laws::decks_keep_their_lines;
pub use row::DecksInRow;
