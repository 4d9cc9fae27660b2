//! From planning charts to panel wiring, and from decks to pages.
//!
//! `compile` reads a chart, checks it and wires a setup of the panel for it; `run` runs a deck of cards through the
//! machine, wired so, and answers the bytes of its pages. These are byte by byte the chart's report of the deck, which
//! knows fields, lines and pages, and nothing of the machine. Every chart that breaks no rule and exceeds no capacity is served, and
//! every deck of at most 999,999 valid cards whose totals fit. `run_stream` does the same over a reader and a writer, card by card, and
//! tells what stands written where it stops.
#![tactic(auto)]

mod compiled;
mod compiling;
mod laws;
mod running;
mod streaming;

pub use compiled::Compiled;
pub use compiling::compile;
pub use fault_lines::faults::{ChartFault, RunFault};
pub use laws::{
    blank_decks_are_runnable, charts_have_one_fault, compiled_texts_have_no_fault,
    decks_have_one_fault, read_setups_print_alike, runnable_decks_have_no_fault,
    versions_say_the_same, wired_setups_begin_reports, wired_setups_print_reports,
    written_setups_begin_reports, written_setups_print_reports,
};
pub use report_misfits::Misfit;
pub use report_runs::{StreamCause, StreamFault};
pub use running::{check_run, first_misfit, run};
pub use streaming::run_stream;
