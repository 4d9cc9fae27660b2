//! The pages of a deck on a wired panel, written card by card to a sink that may fail.
//!
//! [`replay`] runs a deck through the machine of a setup, whatever is on its cards, and writes the lines of each card before it takes the
//! next from the deck's text. It holds one card and its lines, and no page. What was written is at every time the front of the pages,
//! and a fault tells how long it is. This module stands on the machine and on the writer of pages, and knows no chart.

mod fault;
mod feeding;
mod replaying;

pub use fault::{ReplayCause, ReplayFault};
pub use replaying::{Replayed, replay};
