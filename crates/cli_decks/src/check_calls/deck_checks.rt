//! All cards of a deck that a chart can't be run with, in one pass over the deck.
//!
//! [`check_cards`] reads a deck line by line from any reader and writes a line for each bad card, as a run would tell it were this card the
//! first bad one. It goes on behind a bad line, and holds one line, one card and the sums of the chart's totals, however long the deck is.
//!
//! ```text
//! check_cards(rt.alloc(), &chart, file, &mut rt.stdout())?;
//! ```
//!
//! [`show_cards`] does so of a deck that is held whole, and shows each bad card as it stands, with a mark under the column at fault.
//!
//! This module stands on `card_code`, which says what lines and cards are, on `chart_rules` for the cards that are valid, on `report_misfits` for
//! the totals, and on `fault_lines` for what is told.

mod card;
mod checking;
mod fine;
mod laws;
mod line;
mod listing;
mod shown;
mod standing;

pub use checking::check_cards;
pub use laws::decks_without_faults_fit;
pub(crate) use listing::put;
pub use shown::{Shown, show_cards};
