//! Laws by which a reader can check what a report is. The functions do nothing: the contract of each is the law.

ghost use Rattle.report_definition.specs.AmountLaws.{EditsReadBack, SignByPunch, SignByAbsence, SizesAreOfDigits};
ghost use Rattle.report_definition.specs.OutlineLaws.{GroupsAreLongestRuns, OutlineIsByCards, IndicatedOnFirstCards};
ghost use Rattle.report_definition.specs.PageLaws.{PagesHaveTheirLines, ReportLinesPrint, ReportLinesAreOneLine, ReportPagesHaveTheirLines};
ghost use Rattle.report_definition.specs.PlaceLaws.{LinesStandByTheLineBefore, PlacesRise};
ghost use Rattle.report_definition.specs.Laws.{GroupsMakeTheDeck, GroupsMakeTheWhole, TotalsAddUp, EditsFillTheirItems, FitWithoutMisfits, LinesHave120Characters, NoCardsNoBytes};

/// The groups of a level, put together, are the group above them, in order.
pub fn groups_make_the_whole()
    ensures { GroupsMakeTheWhole }
{}

/// The groups of a level of a deck, put together, are the deck.
pub fn groups_make_the_deck()
    ensures { GroupsMakeTheDeck }
{}

/// The total of a group is the sum of the totals of its parts.
pub fn totals_add_up()
    ensures { TotalsAddUp }
{}

/// An edited amount takes all wheels of its item.
pub fn edits_fill_their_items()
    ensures { EditsFillTheirItems }
{}

/// An edited amount with room for its digits and its sign reads back as the number.
pub fn edits_read_back()
    ensures { EditsReadBack }
{}

/// Values by the rule X are below 0 where the sign column has row 11 and the digits are not all zeros, values by the rule NX where it
/// has none and they are not, and the size of each is the number of its digits.
pub fn values_have_their_signs()
    ensures punch { SignByPunch }
    ensures absence { SignByAbsence }
    ensures size { SizesAreOfDigits }
{}

/// The totals of a deck fit exactly where it has no misfit.
pub fn decks_fit_without_misfits()
    ensures { FitWithoutMisfits }
{}

/// Every line has 120 characters.
pub fn lines_have_120_characters()
    ensures { LinesHave120Characters }
{}

/// A report of no card is empty.
pub fn no_cards_give_no_bytes()
    ensures { NoCardsNoBytes }
{}

/// A page has as many line feeds as lines, and one form feed, where no line has one of them in its text.
pub fn pages_have_their_lines()
    ensures { PagesHaveTheirLines }
{}

/// The lines of a report have print characters and blanks alone, where the literals of its chart have.
pub fn report_lines_print()
    ensures { ReportLinesPrint }
{}

/// No line of a report has a line feed or a form feed in its text.
pub fn report_lines_are_one_line()
    ensures { ReportLinesAreOneLine }
{}

/// A report has as many form feeds as pages, and for each page as many line feeds as the form has lines.
pub fn report_pages_have_their_lines()
    ensures { ReportPagesHaveTheirLines }
{}

/// The cards of a group are alike on its level's control fields, and neighbouring groups differ.
pub fn groups_are_longest_runs()
    ensures { GroupsAreLongestRuns }
{}

/// A change of a level ends the groups of the lower ones too, and their totals stand from the lowest level to the highest.
pub fn the_outline_is_by_cards()
    ensures { OutlineIsByCards }
{}

/// The detail lines of a deck show an indicated field on the first card of each group of its level, and on no other card.
pub fn indicated_fields_stand_on_first_cards()
    ensures { IndicatedOnFirstCards }
{}

/// Each line stands by the line before it: its spacing below where that one and its skip came to, or first on the next page exactly
/// where that one came to the overflow line or past it, asked for a page, or had no further stop.
pub fn lines_stand_by_the_line_before()
    ensures { LinesStandByTheLineBefore }
{}

/// In the report of a lawful chart, of at most 999,999 cards, places rise, and stand on the form.
pub fn places_rise()
    ensures { PlacesRise }
{}
