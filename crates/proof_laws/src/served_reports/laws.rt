//! Served runs of setups that are wired for charts. Each function does nothing: its contract is the law.

ghost use Rattle.proof_laws.specs.ServedReports.ServedReports.{ServedSetupsPrintTheirReports, WiredSetupsPrintReportsServed};

/// A setup that prints a chart's reports where all units act at once, as each that `compile` answers does, prints them too where the
/// units run ahead of one another, by any schedules, and by the orders of any service.
pub fn served_setups_print_their_reports()
    ensures { ServedSetupsPrintTheirReports }
{}

/// The headline with served runs: for every chart that breaks no rule, whose line numbers rise and whose literals can be printed, as in
/// every chart that is read, every setup that is wired for it by a plan of it, and every deck of at most 999,999 valid cards whose totals
/// fit, there is a run by schedules; and the pages of the lines of any such run, and of any run by the orders of a service, are byte by
/// byte the chart's report of that deck.
pub fn wired_setups_print_reports_served()
    ensures { WiredSetupsPrintReportsServed }
{}
