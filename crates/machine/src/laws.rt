//! Laws of whole runs, for every setup of the panel and every deck. Each is a function that does nothing: its contract
//! is the law.

ghost use Rattle.machine.specs.Laws.{FeedsCutRuns, FeedsHaveAnOutcome, LinesComeInOrder, OneCycleFollows, RunsGoInParts, RunsHaveAnOutcome, RunsHaveFewCycles};
ghost use Rattle.machine.specs.Laws.{RunsHaveOneOutcome, SameSetupsPrintAlike, UnitsCloseThePanelsContacts};

/// A run places the lines that the feeds of its cards, and one for the end, place one after another.
pub fn feeds_cut_runs()
    ensures { FeedsCutRuns }
{}

/// The lines of a run come in the order of their places.
pub fn lines_come_in_order()
    ensures { LinesComeInOrder }
{}

/// A run over n cards has at most 28 n + 1 cycles.
pub fn runs_have_few_cycles()
    ensures { RunsHaveFewCycles }
{}

/// At most one cycle follows in a feed, and it leaves one machine.
pub fn one_cycle_follows()
    ensures { OneCycleFollows }
{}

/// Every setup and every deck have a list of lines.
pub fn runs_have_an_outcome()
    ensures { RunsHaveAnOutcome }
{}

/// Every setup can be fed any cards, from every state of the machine.
pub fn feeds_have_an_outcome()
    ensures { FeedsHaveAnOutcome }
{}

/// A setup and a deck have at most one list of lines.
pub fn runs_have_one_outcome()
    ensures { RunsHaveOneOutcome }
{}

/// The lines of a run are those of the feeds of its first cards, and then those of a run over the others.
pub fn runs_go_in_parts()
    ensures { RunsGoInParts }
{}

/// Setups with the same wires, jacks and tape have the same lines.
pub fn same_setups_print_alike()
    ensures { SameSetupsPrintAlike }
{}

/// The contacts that the units of a machine close are the closed contacts of the panel, at every point of every cycle.
pub fn units_close_the_panels_contacts()
    ensures { UnitsCloseThePanelsContacts }
{}
