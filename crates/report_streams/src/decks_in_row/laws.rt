//! A law of decks in a row. The function does nothing: its contract is the law.

ghost use Rattle.report_streams.specs.DecksInRow.Laws.{DecksKeepTheirLines};

/// The lines of decks in a row are those of the first, then those of the second, and so on.
pub fn decks_keep_their_lines()
    ensures { DecksKeepTheirLines }
{}
