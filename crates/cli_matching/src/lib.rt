//! Whether a panel is wired for a chart, and so prints its reports, or which report it prints, as commands: from the bytes of charts to
//! what is printed, what is told and the status.
//!
//! [`match_to_end`] does the whole command, and [`match_deck_to_end`] the command with a deck, of which the first line is told that the
//! panel prints otherwise than one that is wired for the chart. Why a panel doesn't match is an [`Unmatched`].
//!
//! - `chart_calls`: which report a panel prints, as a command
#![tactic(auto)]

mod apart;
pub mod chart_calls;
mod found;
mod laws;
pub mod match_decks;
pub mod match_reports;
pub mod match_texts;
mod outcome;
mod over_decks;
mod panels;
mod serving;
mod unmatched;

pub use laws::unmatched_panels_have_entries;
pub use over_decks::{match_deck_to_end, print_deck_match};
pub use serving::{match_to_end, print_match};
pub use unmatched::{Unmatched, tell_unmatched, write_unmatched};
