//! What is found over a deck.

use crate::match_decks::LinePlace;
use crate::match_texts::Counts;

/// What is found of a panel beside a chart, and of a deck on it and on the chart's own.
#[derive(Clone, Copy, Debug, PartialEq, Eq)]
pub(crate) enum Outcome {
    /// The panel is wired for the chart.
    Wired,
    /// It is not, so much is missing and extra, and it prints the same lines of the deck.
    Unwired { counts: Counts },
    /// It is not, and prints the deck otherwise, first at this place.
    PrintsOtherwise { place: LinePlace },
}
