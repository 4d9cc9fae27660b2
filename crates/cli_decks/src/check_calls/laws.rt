//! A law over definitions alone. The function does nothing: its contract is the law.

ghost use Rattle.cli_decks.specs.CheckCalls.Laws.{ChecksTellFirstWhatStopsRuns};

/// Where a run stops at a line that is no card, at a card that is not valid or at a total that does not fit, what is told of it is the first that
/// a check lists of the deck.
pub fn checks_tell_first_what_stops_runs()
    ensures { ChecksTellFirstWhatStopsRuns }
{}
