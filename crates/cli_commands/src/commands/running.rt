//! Runs, printed card by card.

ghost use Rattle.std.specs.Prelude.{◌≡◌, ◌≤◌, ◌⊎◌, ℕ, IfErr, OnOk};
ghost use Rattle.cli_commands.specs.CommandsWords.Refusals.{RefusesChart};
ghost use Rattle.cli_commands.specs.CommandsWords.Streamed.{EndsRun, HasRunWhole, IsToldOf, StopsInRun, read_told};
ghost use Rattle.fault_lines.specs.FaultsWords.Lines.{IsTold};
ghost use Rattle.fault_lines.specs.FaultsWords.Status.{status_of};

use crate::commands::answers::compilation;
use compile407::RunFault;
use fault_lines::faults::{Ending, Fault, tell};
use fault_lines::program_io::{LentReader, LentWriter};
use report_runs::{StreamCause, Streamed, stream_deck};
use report_streams::card_lines::ReadFault;
use report_streams::devices::Sink;
use std::alloc::Global;
use std::io::{Read, Write};

// What is told of a card that was not read.
fn told_of_reading<'a>(fault: ReadFault) -> Fault<'a>
    ensures { result ≡ read_told fault }
{
    match fault {
        ReadFault::Deck { fault } => fault.into(),
        ReadFault::Read { line } => Fault::Unread { card: line },
        ReadFault::Failed => Fault::Whole { number: 5 },
    }
}

// What is told of the cause of a run that stops.
fn told_of<'a>(cause: StreamCause, unwritten: Fault<'a>) -> Fault<'a>
    requires { (unwritten ≡ Fault.Memory) ⊎ (unwritten ≡ Fault.Write) }
    ensures { IsToldOf cause result }
{
    match cause {
        StreamCause::Card { fault } => told_of_reading(fault),
        StreamCause::Invalid { fault, card } => RunFault::of_card(fault, card).into(),
        StreamCause::Misfit { misfit } => RunFault::DoesNotFit {
            level: misfit.level,
            name: misfit.name,
            card: misfit.card,
        }
        .into(),
        StreamCause::Write => unwritten,
        StreamCause::Memory => Fault::Memory,
    }
}

/// Prints the pages of a planning chart and of the deck that a reader has left, card by card. The chart is compiled before any byte of the
/// deck is read.
///
/// # Errors
///
/// The fault of the chart, or `Memory` where a growth was refused for it, and nothing is printed. Else the first fault that the run
/// meets: of a card that can't be read, is none or isn't valid, or of a total that doesn't fit, and then the lines before those of a card
/// are printed; `Memory` where a growth was refused and `Write` where the output can't be written, and then the front of the pages may
/// have been printed.
pub fn print_run<'a, R: Read, W: Write>(
    alloc: Global,
    chart: &[u8],
    deck: &mut R,
    out: &mut W,
) -> Result<(), Fault<'a>>
    ensures whole { OnOk result (HasRunWhole chart.now (R.remaining deck.old) (W.contents out.old) (W.contents out.new)) }
    ensures ends { IfErr result (λ told.
        EndsRun chart.now (R.remaining deck.old) (R.remaining deck.new) (W.contents out.old) (W.contents out.new) told (out.new ≡ out.old)) }
{
    let compiled = compilation(alloc, chart)?;
    let Streamed {
        source,
        mut sink,
        run,
    } = stream_deck(
        alloc,
        compiled.chart(),
        compiled.setup(),
        LentReader::new(deck),
        LentWriter::new(out),
    );
    let unwritten = sink.told();
    match run {
        Ok(_) => {
            // The lent output is handed back, so that it is known what was written: that saves a caller to give it away.
            let _out = sink.into_writer();
            Ok(())
        }
        Err(fault) => {
            // What was written is handed on; where that fails too, the first fault is told.
            let _ = sink.flush();
            // Both are handed back, as above.
            let _deck = source.into_reader();
            let _out = sink.into_writer();
            Err(told_of(fault.cause, unwritten))
        }
    }
}

/// Runs the deck that a reader has left through a planning chart, and tells on one line of `faults` why the run stopped.
///
/// The chart compiles before any byte of the deck is read, and the pages are printed card by card. The statuses are 0 done, and then nothing
/// is told, 3 refused input, 4 file fault, 5 memory. If the chart is refused, nothing is printed. A fault of a card, of a total or of the
/// reader leaves the lines before those of a card printed, and no byte more. If the output can't be written or memory runs out, the front of
/// the pages may have been.
pub fn run_to_end<R: Read, W: Write, V: Write>(
    alloc: Global,
    chart: &[u8],
    deck: &mut R,
    out: &mut W,
    faults: &mut V,
) -> Ending
    ensures done { result.status ≡ 0 → HasRunWhole chart.now (R.remaining deck.old) (W.contents out.old) (W.contents out.new)
        × (faults.new ≡ faults.old) }
    ensures refused { result.status ≡ 3 → (told : Fault)
        × ((RefusesChart chart.now told × (out.new ≡ out.old))
        ⊎ StopsInRun chart.now (R.remaining deck.old) (R.remaining deck.new) (W.contents out.old) (W.contents out.new) told)
        × IsTold told result.is_told (V.contents faults.old) (V.contents faults.new) }
    ensures device { result.status ≡ 4 → IsTold Fault.Write result.is_told (V.contents faults.old) (V.contents faults.new)
        ⊎ ((card : ℕ) × IsTold (Fault.Unread card) result.is_told (V.contents faults.old) (V.contents faults.new)) }
    ensures memory { result.status ≡ 5 → IsTold Fault.Memory result.is_told (V.contents faults.old) (V.contents faults.new) }
    ensures stopped { 3 ≤ result.status → (told : Fault) × (result.status ≡ status_of told)
        × EndsRun chart.now (R.remaining deck.old) (R.remaining deck.new) (W.contents out.old) (W.contents out.new) told (out.new ≡ out.old)
        × IsTold told result.is_told (V.contents faults.old) (V.contents faults.new) }
    ensures statuses { (result.status ≡ 0) ⊎ (3 ≤ result.status × result.status ≤ 5) }
{
    match print_run(alloc, chart, deck, out) {
        Ok(()) => Ending {
            status: 0,
            is_told: true,
        },
        Err(fault) => tell(&fault, faults),
    }
}
