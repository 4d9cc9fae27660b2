//! Running a deck that comes card by card, from a source of bytes to a sink.

ghost use Rattle.std.specs.Prelude.{◌≡◌, ℕ, true, IfErr, MatchResult, OnOk};
ghost use Rattle.report_streams.specs.declared.card_lines.fault.ReadFault.TheVariants as read;
ghost use Rattle.report_runs.specs.Runs.{RunsToEnd, StopsShort};
ghost use Rattle.report_runs.specs.declared.fault.StreamCause.TheVariants as cause;

use crate::compiled::Compiled;
use report_runs::StreamFault;
use report_streams::devices::{Sink, Source};
use std::alloc::Global;

/// Runs a deck through the machine, wired as compiled: its cards come one by one from the source, and the pages of its report go to the
/// sink. Answers how many cards there were; then no byte of the source is left, exactly the report was written, and the sink was flushed.
///
/// For each card in turn the next one, or the end, is read and checked; then the totals of the groups that end with the card are tried;
/// then the machine is fed, and the lines that this gives are taken up. They are written in blocks of 64 KB, so a sink that fails is met
/// only once a block is full, perhaps many cards after the card whose lines it doesn't take.
///
/// Besides the machine a run holds two cards, the lines of one card, the sum of each total up to the last card that ended a group, the sum
/// of each amount over the cards since, the line of the deck that is being read, 64 KB of the deck and 64 KB of pages that wait to be
/// written. A long deck takes no more memory than a short one.
///
/// # Errors
///
/// The first cause that is met, with the number of bytes that were written, which are the front of the report of the cards read so far.
/// `Card` if the next card can't be read, or its line is none, and `Invalid` if it is not valid for the chart: then exactly the lines
/// before those of the last valid card are written. `Misfit` if a total doesn't fit: then exactly the lines before those of its card.
/// `Memory` if a growth is refused. `Write` if the sink fails, also as it takes what waits before another cause is told. At `Memory` and
/// `Write` a front of the lines before those of the last card read is written; if the sink fails at the end of the deck, a front of the
/// report.
pub fn run_stream<S: Source, W: Sink>(
    alloc: Global,
    compiled: &Compiled,
    source: &mut S,
    sink: &mut W,
) -> Result<u64, StreamFault>
    ensures run { MatchResult result
        (RunsToEnd compiled.now.chart (S.left source.old) (S.left source.new) (W.held sink.old) (W.held sink.new))
        (StopsShort compiled.now.chart (S.left source.old) (S.left source.new) (W.held sink.old) (W.held sink.new)) }
    ensures flushed { OnOk result (W.is_flushed sink.new ≡ true) }
    ensures read { IfErr result (λ fault. (line : ℕ) → fault.cause ≡ cause.Card (read.Read line) → S.has_failed source.new ≡ true) }
    ensures write { IfErr result (λ fault. fault.cause ≡ cause.Write → W.has_failed sink.new ≡ true) }
{
    let chart = compiled.chart();
    let setup = compiled.setup();
    report_runs::run_stream(alloc, chart, setup, source, sink)
}
