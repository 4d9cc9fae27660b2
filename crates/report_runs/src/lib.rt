//! Streamed runs: the cards of a deck come one by one from a source, the lines of its report go to a sink, and neither is held whole.
//!
//! The order of a run is stated: for each card the next one, or the end of the deck, is read and checked; then the totals of the groups
//! that end with the card are tried; then the machine is fed the next card, or the end; then the lines that this gives are taken up, and
//! go to the sink once they are a block. Besides the machine a run holds two cards, the lines of one card, the sum of each total up to the
//! last card that ended a group, the sum of each amount over the cards since, the line of the deck that is being read, and two buffers of
//! 64 KB, one for the deck and one for the pages.
#![tactic(auto)]

mod fault;
pub mod laws;
pub mod promises;
mod run;
mod running;

pub use fault::{StreamCause, StreamFault};
pub use running::{Streamed, run_stream, stream_deck};
