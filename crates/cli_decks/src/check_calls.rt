//! The command that checks a chart and then all cards of a deck, from the bytes of the chart and a reader of the deck.

pub mod deck_checks;
mod grouping;
mod large;
mod laws;
mod serving;
mod showing;
mod telling;

pub use grouping::print_grouped;
pub use laws::checks_tell_first_what_stops_runs;
pub use serving::print_check;
pub use showing::print_shown;
pub use telling::tell_checked;
