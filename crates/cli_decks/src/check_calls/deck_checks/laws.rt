//! A law of listings. The function does nothing: its contract is the law.

ghost use Rattle.cli_decks.specs.CheckCalls.DeckChecks.Laws.{DecksWithoutFaultsFit};

/// Where nothing is told of a deck, all its cards are valid for the chart, and all totals fit.
pub fn decks_without_faults_fit()
    ensures { DecksWithoutFaultsFit }
{}
