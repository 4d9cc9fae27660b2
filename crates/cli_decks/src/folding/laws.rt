//! Laws of folded texts. The functions do nothing: the contract of each is the law.

ghost use Rattle.cli_decks.specs.FoldingWords.Laws.{FoldedLinesArePunchable, FoldedTextsKeepLines};

/// All that stands in a folded line can be punched, so the line is a card if it has at most 80 columns.
pub fn folded_lines_are_punchable()
    ensures { FoldedLinesArePunchable }
{}

/// No line is lost: the lines of a folded text are the lines of the text, each folded, in their order.
pub fn folded_texts_keep_lines()
    ensures { FoldedTextsKeepLines }
{}
