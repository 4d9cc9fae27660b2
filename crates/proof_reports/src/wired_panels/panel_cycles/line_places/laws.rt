//! Laws of places. The functions do nothing: the contract of each is the law.

ghost use Rattle.proof_reports.specs.WiredPanels.CycleAsks.LinePlaces.Laws.{
  LawfulChartsHaveGoodForms,
  UnprintedKindsAskForNothing,
  JacksPrintTheKinds,
  RunsStartBeforeAllLines,
  BodyLinesArePlaced,
  HeadingsArePlaced,
  NoHeadingsWithinAPage,
  LinesArePlaced,
  QuietCyclesStay,
  UnprintedKindsStay,
  HeadingsComeWithPages,
};

/// The form of a lawful chart has room for its heading lines and for any spacing, its stops rise on the form, and a skip goes to one of
/// the channels 2 to 11.
pub fn lawful_charts_have_good_forms()
    ensures { LawfulChartsHaveGoodForms }
{}

/// A lawful chart asks for nothing in the cycles of a kind of line that it doesn't print.
pub fn unprinted_kinds_ask_for_nothing()
    ensures { UnprintedKindsAskForNothing }
{}

/// By a chart's jacks a card cycle, and the third cycle of a level, print exactly where the chart prints their lines.
pub fn jacks_print_the_kinds()
    ensures { JacksPrintTheKinds }
{}

/// At the start of a run the carriage stands where no line has left a form.
pub fn runs_start_before_all_lines()
    ensures { RunsStartBeforeAllLines }
{}

/// A body line is placed where the report places it, and leaves the carriage where it leaves the form.
pub fn body_lines_are_placed()
    ensures { BodyLinesArePlaced }
{}

/// Heading lines are placed where a line starts a page, as the report places them, and nowhere else.
pub fn headings_are_placed()
    ensures on_a_new_page { HeadingsArePlaced }
    ensures within_a_page { NoHeadingsWithinAPage }
{}

/// A body line, with the heading lines before it, is placed as in the report.
pub fn lines_are_placed()
    ensures { LinesArePlaced }
{}

/// A cycle that neither prints nor is the first heading cycle, and in which nothing is asked for, leaves the carriage where it stands; so
/// does the cycle of a line that a lawful chart doesn't print.
pub fn quiet_cycles_stay()
    ensures quiet { QuietCyclesStay }
    ensures unprinted { UnprintedKindsStay }
{}

/// Heading cycles come before a printing cycle exactly where its line starts a page.
pub fn headings_come_with_pages()
    ensures { HeadingsComeWithPages }
{}
