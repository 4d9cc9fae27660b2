//! The laws of machines that are wired for charts. Each function does nothing: its contract is the law.

ghost use Rattle.proof_reports.specs.PrintedReports.Begun.{MachinesBeginReports};
ghost use Rattle.proof_reports.specs.PrintedReports.Going.{MachinesGoAsChartsWant};
ghost use Rattle.proof_reports.specs.PrintedReports.Laws.{MachinesPrintReports};

/// For every chart that breaks no rule, whose line numbers rise and whose literals can be printed, as in every chart that is read, every
/// setup that is wired for it by a plan of it, and every deck of at most 999,999 valid cards whose totals fit, the lines that the
/// machine places are those of the chart's report of the deck.
pub fn machines_print_reports()
    ensures { MachinesPrintReports }
{}

/// Where the totals of a deck don't all fit, the lines that the machine places before those of the card of the first misfit are the
/// lines of the report before that card's.
pub fn machines_begin_reports()
    ensures { MachinesBeginReports }
{}

/// Every machine that is wired for a chart does with each card, cycle by cycle, what the chart wants.
pub fn machines_go_as_charts_want()
    ensures { MachinesGoAsChartsWant }
{}
