//! Laws over definitions alone.

ghost use Rattle.compile407.specs.Headline.{ReadSetupsPrintAlike};
ghost use Rattle.compile407.specs.Headline.{WiredSetupsBeginReports, WiredSetupsPrintReports};
ghost use Rattle.compile407.specs.Headline.{WrittenSetupsBeginReports, WrittenSetupsPrintReports};
ghost use Rattle.compile407.specs.Runnable.{BlankDecksAreRunnable};
ghost use Rattle.compile407.specs.Outcomes.{ChartsHaveOneFault, CompiledTextsHaveNoFault, DecksHaveOneFault, RunnableDecksHaveNoFault};
ghost use Rattle.compile407.specs.Versions.{VersionsCompileAlike, VersionsReportAlike, VersionsRunAlike};

/// The headline: for every chart that breaks no rule, whose line numbers rise and whose literals can be printed, as in every chart that
/// is read, every setup that is wired for it by a plan of it, and every deck of at most 999,999 valid cards whose totals fit, the pages
/// that the machine prints are byte by byte the chart's report of that deck.
pub fn wired_setups_print_reports()
    ensures { WiredSetupsPrintReports }
{}

/// Where not all totals of a deck fit, the machine can still be fed its cards up to the first at which one doesn't, and the lines that it
/// places before those of that card are the lines of the report before that card's.
pub fn wired_setups_begin_reports()
    ensures { WiredSetupsBeginReports }
{}

/// The headline of the machine wired as a wiring chart says: every setup that the text of a wired setup reads as prints the chart's reports.
/// `write_setup` of the crate `wire_chart` writes such a text.
pub fn written_setups_print_reports()
    ensures { WrittenSetupsPrintReports }
{}

/// Where not all totals of a deck fit, the machine wired as the text of a wired setup says begins the report too: the lines that it places
/// before those of the first card at which one doesn't fit are the lines of the report before that card's.
pub fn written_setups_begin_reports()
    ensures { WrittenSetupsBeginReports }
{}

/// Any two setups that one wiring chart reads as print the same lines for every deck, wired by hand or for a chart. So a setup that is
/// written by `write_setup` and read by `read_setup` prints what it printed before.
pub fn read_setups_print_alike()
    ensures { ReadSetupsPrintAlike }
{}

/// A deck of at most 999,999 blank cards can be run for every chart that breaks no rule. So each such chart has decks that the headline
/// speaks of.
pub fn blank_decks_are_runnable()
    ensures { BlankDecksAreRunnable }
{}

/// A text that compiles has none of the faults of a chart.
pub fn compiled_texts_have_no_fault()
    ensures { CompiledTextsHaveNoFault }
{}

/// A deck that can be run has none of the faults of a deck.
pub fn runnable_decks_have_no_fault()
    ensures { RunnableDecksHaveNoFault }
{}

/// A text has at most one of the faults of a chart: what `compile` tells is one, but for want of memory.
pub fn charts_have_one_fault()
    ensures { ChartsHaveOneFault }
{}

/// A deck has at most one of the faults of a deck for any chart: what `run` tells is one, but for want of memory.
pub fn decks_have_one_fault()
    ensures { DecksHaveOneFault }
{}

/// A chart of version 1, and the chart of version 2 of the same lines that bears the word COUPLED exactly where a total needs more
/// than 8 positions, say the same: they have the same plans and setups, the same decks can be run, and the reports are the same.
pub fn versions_say_the_same()
    ensures compiled { VersionsCompileAlike }
    ensures decks { VersionsRunAlike }
    ensures reports { VersionsReportAlike }
{}
