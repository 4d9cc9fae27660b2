//! The laws of printed lines. The functions do nothing: the contract of each is the law.

ghost use Rattle.proof_reports.specs.PrintedLines.Laws.{CardLinesPrint, TotalLinesPrint, HeadingLinesPrint, LawfulItemsKeepApart, UnsignedTotalsHaveNoSign, TotalTextsAreTexts};

/// The line of a valid card prints as the report has it.
pub fn card_lines_print()
    ensures { CardLinesPrint }
{}

/// The total line of a group prints as the report has it, where the machine holds the group's totals and texts.
pub fn total_lines_print()
    ensures { TotalLinesPrint }
{}

/// A heading line prints as the report has it.
pub fn heading_lines_print()
    ensures { HeadingLinesPrint }
{}

/// On each printed line of a lawful chart a wheel gets what one item sends, or nothing.
pub fn items_keep_apart()
    ensures { LawfulItemsKeepApart }
{}

/// The total of an amount without a sign rule is never below 0.
pub fn unsigned_totals_have_no_sign()
    ensures { UnsignedTotalsHaveNoSign }
{}

/// A text on a total line is a text on every valid card.
pub fn total_texts_are_texts()
    ensures { TotalTextsAreTexts }
{}
