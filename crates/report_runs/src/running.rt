//! A run over a deck that comes card by card.

ghost use Rattle.std.specs.Prelude.{◌≡◌, ℕ, true, IfErr, MatchResult, OnOk};
ghost use Rattle.report_streams.specs.declared.card_lines.fault.ReadFault.TheVariants as read;
ghost use Rattle.report_runs.specs.PrintPromises.Promises.{BeginsReport, PrintsReport};
ghost use Rattle.report_definition.specs.ChartForm.{form_of};
ghost use Rattle.report_runs.specs.HelperStanding.{IsUnbegun, PutsOut, Serves};
ghost use Rattle.report_runs.specs.Runs.{RunsToEnd, StopsShort};
ghost use Rattle.report_runs.specs.declared.fault.StreamCause.TheVariants as cause;

use crate::fault::{StreamCause, StreamFault};
use crate::run::{begin, step};
use chart_rules::Chart;
use hubs::setups::Setup;
use report_streams::card_lines::CardLines;
use report_streams::devices::{Sink, Source};
use report_writer::PageWriter;
use std::alloc::Global;

// Stops a run for a cause. What waits is written first; where the sink fails at that, or has failed before, it is told in place of the cause.
fn stop<W: Sink + Drop>(pages: &mut PageWriter<W>, stopped: StreamCause) -> StreamFault
    ensures bytes { PutsOut W.held W.has_failed stopped result pages.old.out pages.new.out }
    ensures counted { result.written ≡ pages.new.out.written }
    ensures again { pages.old.out.has_failed ≡ true → (result.cause ≡ cause.Write) × (pages.new ≡ pages.old) }
    ensures sink { W.borrow pages.new.out.sink ≡ W.borrow pages.old.out.sink }
{
    match pages.put_out() {
        Ok(()) => StreamFault {
            cause: stopped,
            written: pages.written(),
        },
        Err(fault) => fault.into(),
    }
}

// Runs the deck to its end, and ends the pages of its report.
fn run_pages<S: Source + Drop, W: Sink + Drop>(
    alloc: Global,
    chart: &Chart,
    setup: &Setup,
    cards: &mut CardLines<S>,
    pages: &mut PageWriter<W>,
) -> Result<u64, StreamFault>
    requires serves { Serves chart.now setup.now }
    requires unbegun { IsUnbegun setup.now cards.old pages.old }
    ensures run { MatchResult result
        (RunsToEnd chart.now (S.left cards.old.source) (S.left cards.new.source) (W.held pages.old.out.sink) (W.held pages.new.out.sink))
        (StopsShort chart.now (S.left cards.old.source) (S.left cards.new.source) (W.held pages.old.out.sink) (W.held pages.new.out.sink)) }
    ensures flushed { OnOk result (W.is_flushed pages.new.out.sink ≡ true) }
    ensures read { IfErr result (λ fault. (line : ℕ) → fault.cause ≡ cause.Card (read.Read line) → S.has_failed cards.new.source ≡ true) }
    ensures write { IfErr result (λ fault. fault.cause ≡ cause.Write → W.has_failed pages.new.out.sink ≡ true) }
    ensures source { S.borrow cards.new.source ≡ S.borrow cards.old.source }
    ensures sink { W.borrow pages.new.out.sink ≡ W.borrow pages.old.out.sink }
{
    let mut run = match begin(alloc, chart, setup) {
        Ok(run) => run,
        Err(stopped) => return Err(stop(pages, stopped)),
    };
    loop {
        match step(chart, cards, &mut run, pages) {
            Ok(true) => {}
            Ok(false) => break,
            Err(stopped) => return Err(stop(pages, stopped)),
        }
    }
    pages.end()?;
    Ok(u64::from(run.count))
}

/// What is left of a streamed run.
#[derive(Drop)]
pub struct Streamed<S: Source + Drop, W: Sink + Drop> {
    /// The source.
    pub source: S,
    /// The sink.
    pub sink: W,
    /// How many cards there were, if the deck was run to its end.
    pub run: Result<u64, StreamFault>,
}

/// Runs a deck as [`run_stream`] does, over a source and a sink of its own, and hands both back, also if one has failed.
///
/// The fault is the one that `run_stream` tells.
pub fn stream_deck<S: Source + Drop, W: Sink + Drop>(
    alloc: Global,
    chart: &Chart,
    setup: &Setup,
    source: S,
    sink: W,
) -> Streamed<S, W>
    requires prints { PrintsReport chart.now setup.now }
    requires begins { BeginsReport chart.now setup.now }
    requires form { setup.now.tape.lines ≡ (form_of chart.now.lines).lines }
    ensures run { MatchResult result.run
        (RunsToEnd chart.now (S.left source) (S.left result.source) (W.held sink) (W.held result.sink))
        (StopsShort chart.now (S.left source) (S.left result.source) (W.held sink) (W.held result.sink)) }
    ensures flushed { OnOk result.run (W.is_flushed result.sink ≡ true) }
    ensures read { IfErr result.run (λ fault. (line : ℕ) → fault.cause ≡ cause.Card (read.Read line) → S.has_failed result.source ≡ true) }
    ensures write { IfErr result.run (λ fault. fault.cause ≡ cause.Write → W.has_failed result.sink ≡ true) }
    ensures same_source { S.borrow result.source ≡ S.borrow source }
    ensures same_sink { W.borrow result.sink ≡ W.borrow sink }
{
    // What is known of the lines of every chart is told with them: that saves another check of the chart.
    let _lines = chart.lines();
    let mut cards = CardLines::new(source);
    let mut pages = PageWriter::new(sink, u32::from(setup.tape().lines()));
    let run = run_pages(alloc, chart, setup, &mut cards, &mut pages);
    Streamed {
        source: cards.into_source(),
        sink: pages.into_sink(),
        run,
    }
}

/// Runs a deck through the machine of a setup that prints the reports of a chart: cards come one by one from the source, and the pages of
/// their report go to the sink, which is flushed at the end. Answers how many cards there were. Memory is taken for the machine and for the
/// lines of one card alone.
///
/// The pages are written in blocks of 64 KB; what waits for its block is written before a fault of a card or of a total is told.
///
/// # Errors
///
/// The first cause that is met, with the number of bytes written until then. For each card in turn: `Card` if the next one can't be
/// read, `Invalid` if it is not valid; `Misfit` if a total of a group that ends with the card doesn't fit; `Memory` if a growth
/// is refused; `Write` if the sink fails, also if it fails to take what waits before another fault is told. At `Memory` and `Write` a front
/// of the lines before those of the last card read is written; if the sink fails at the end of the deck, a front of the report.
pub fn run_stream<S: Source, W: Sink>(
    alloc: Global,
    chart: &Chart,
    setup: &Setup,
    source: &mut S,
    sink: &mut W,
) -> Result<u64, StreamFault>
    requires prints { PrintsReport chart.now setup.now }
    requires begins { BeginsReport chart.now setup.now }
    requires form { setup.now.tape.lines ≡ (form_of chart.now.lines).lines }
    ensures run { MatchResult result
        (RunsToEnd chart.now (S.left source.old) (S.left source.new) (W.held sink.old) (W.held sink.new))
        (StopsShort chart.now (S.left source.old) (S.left source.new) (W.held sink.old) (W.held sink.new)) }
    ensures flushed { OnOk result (W.is_flushed sink.new ≡ true) }
    ensures read { IfErr result (λ fault. (line : ℕ) → fault.cause ≡ cause.Card (read.Read line) → S.has_failed source.new ≡ true) }
    ensures write { IfErr result (λ fault. fault.cause ≡ cause.Write → W.has_failed sink.new ≡ true) }
{
    // What is known of the lines of every chart is told with them: that saves another check of the chart.
    let _lines = chart.lines();
    let mut cards = CardLines::new(source);
    let mut pages = PageWriter::new(sink, u32::from(setup.tape().lines()));
    let count = run_pages(alloc, chart, setup, &mut cards, &mut pages);
    // What was lent is handed back, so that it is known what was read and written: that saves a caller to give both away.
    let _source = cards.into_source();
    let _sink = pages.into_sink();
    count
}
