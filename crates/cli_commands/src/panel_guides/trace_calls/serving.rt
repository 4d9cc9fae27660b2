//! The command that traces a deck, over any reader and writers.

ghost use Rattle.std.specs.Prelude.{◌≡◌, ◌≢◌, ◌≤◌, ◌⊎◌, IfErr, OnOk};
ghost use Rattle.card_code.specs.MostCards.{most_cards};
ghost use Rattle.fault_lines.specs.FaultsWords.Lines.{IsTold};
ghost use Rattle.cli_commands.specs.PanelGuides.Panels.{HasPanel, is_wiring_text};
ghost use Rattle.std.specs.Prelude.{Some, false, length, true};
ghost use Rattle.cli_commands.specs.PanelGuides.TraceCalls.TraceEnds.{LeavesUntraced, PrintsTrace, StopsTrace};
ghost use Rattle.explain_words.specs.TracesWords.Tracing.{WritesTrace};

use crate::panel_guides::{check_panel, is_wiring_text, planned_run, wired_run};
use card_code::Card;
use explain_words::traces::write_trace;
use fault_lines::faults::{Ending, Fault, tell, unprinted};
use fault_lines::program_io::read_whole;
use hubs::setups::Setup;
use std::alloc::Global;
use std::io::{Read, Write};

// Prints the trace of cards on a panel.
fn print_run<'a, W: Write>(
    alloc: Global,
    setup: &Setup,
    cards: &[Card],
    out: &mut W,
) -> Result<(), Fault<'a>>
    requires { length cards.now ≤ most_cards }
    ensures printed { OnOk result (WritesTrace setup.now cards.now (W.contents out.old) (W.contents out.new)) }
    ensures told { IfErr result (λ told. (told ≡ Fault.Memory) ⊎ (told ≡ Fault.Write)) }
{
    match write_trace(alloc, setup, cards, out) {
        Ok(()) => Ok(()),
        Err(error) => Err(unprinted(&error)),
    }
}

// Prints the trace of a deck in memory on the panel of a wiring chart.
fn print_wired<'a, W: Write>(
    alloc: Global,
    wiring: &[u8],
    deck: &[u8],
    out: &mut W,
) -> Result<(), Fault<'a>>
    requires { is_wiring_text wiring.now ≡ true }
    ensures printed { OnOk result (PrintsTrace wiring.now (Some deck.now) (W.contents out.old) (W.contents out.new)) }
    ensures stopped { IfErr result (λ told. (unreadable : Fault)
        → StopsTrace wiring.now (Some deck.now) told unreadable (out.new ≡ out.old)) }
{
    let wired = wired_run(alloc, wiring, deck)?;
    print_run(alloc, &wired.setup, wired.cards.as_slice(), out)
}

// Prints the trace of a deck in memory on the panel that is wired for a planning chart.
fn print_planned<'a, W: Write>(
    alloc: Global,
    chart: &[u8],
    deck: &[u8],
    out: &mut W,
) -> Result<(), Fault<'a>>
    requires { is_wiring_text chart.now ≡ false }
    ensures printed { OnOk result (PrintsTrace chart.now (Some deck.now) (W.contents out.old) (W.contents out.new)) }
    ensures stopped { IfErr result (λ told. (unreadable : Fault)
        → StopsTrace chart.now (Some deck.now) told unreadable (out.new ≡ out.old)) }
{
    let planned = planned_run(alloc, chart, deck)?;
    print_run(
        alloc,
        planned.compiled.setup(),
        planned.cards.as_slice(),
        out,
    )
}

// Prints the trace of a deck in memory.
fn print_traced<'a, W: Write>(
    alloc: Global,
    text: &[u8],
    deck: &[u8],
    out: &mut W,
) -> Result<(), Fault<'a>>
    ensures printed { OnOk result (PrintsTrace text.now (Some deck.now) (W.contents out.old) (W.contents out.new)) }
    ensures stopped { IfErr result (λ told. (unreadable : Fault)
        → StopsTrace text.now (Some deck.now) told unreadable (out.new ≡ out.old)) }
{
    if is_wiring_text(text) {
        print_wired(alloc, text, deck, out)
    } else {
        print_planned(alloc, text, deck, out)
    }
}

/// Prints the trace of the run of a text and a deck: a line for each cycle, before the next one runs. `path` names the deck in what is told
/// of one that can't be read.
///
/// # Errors
///
/// The fault of the text, else of the deck, as a run of a planning chart or a replay of a wiring chart tells it, and nothing is printed;
/// of a deck that can't be read a fault of the text comes before. `Memory` where a growth was refused and `Write` where the output can't
/// be written, and then a part of the trace may have been printed.
pub fn print_trace<'a, R: Read + Drop, W: Write>(
    alloc: Global,
    text: &[u8],
    path: &'a str,
    deck: R,
    out: &mut W,
) -> Result<(), Fault<'a>>
    ensures printed { OnOk result (PrintsTrace text.now (R.remaining deck) (W.contents out.old) (W.contents out.new)) }
    ensures stopped { IfErr result (λ told.
        StopsTrace text.now (R.remaining deck) told (Fault.File path.entry) (out.new ≡ out.old)) }
{
    match read_whole(alloc, deck, path) {
        Ok(bytes) => print_traced(alloc, text, bytes.as_slice(), out),
        Err(unread) => {
            check_panel(alloc, text)?;
            Err(unread)
        }
    }
}

/// Prints the trace of the run of a text and a deck, and tells on one line of `faults` why there is none.
///
/// The text is a planning chart, or a wiring chart. `path` names the deck in what is told of one that can't be read, after a fault of the
/// text. The statuses are 0 done, and then nothing is told, 3 refused input, 4 file fault, 5 memory. Nothing is printed by status 3, nor
/// where the deck can't be read. Where the output can't be written or memory runs out, a part of the trace may have been.
pub fn trace_to_end<R: Read + Drop, W: Write, V: Write>(
    alloc: Global,
    text: &[u8],
    path: &str,
    deck: R,
    out: &mut W,
    faults: &mut V,
) -> Ending
    ensures done { result.status ≡ 0
        → PrintsTrace text.now (R.remaining deck) (W.contents out.old) (W.contents out.new) × (faults.new ≡ faults.old) }
    ensures refused { result.status ≡ 3 → (told : Fault) × LeavesUntraced text.now (R.remaining deck) told
        × (out.new ≡ out.old) × IsTold told result.is_told (V.contents faults.old) (V.contents faults.new) }
    ensures device { result.status ≡ 4 → ((out.new ≡ out.old) × HasPanel text.now
        × IsTold (Fault.File path.entry) result.is_told (V.contents faults.old) (V.contents faults.new))
        ⊎ IsTold Fault.Write result.is_told (V.contents faults.old) (V.contents faults.new) }
    ensures memory { result.status ≡ 5 → IsTold Fault.Memory result.is_told (V.contents faults.old) (V.contents faults.new) }
    ensures statuses { (result.status ≡ 0) ⊎ (3 ≤ result.status × result.status ≤ 5) }
{
    match print_trace(alloc, text, path, deck, out) {
        Ok(()) => Ending {
            status: 0,
            is_told: true,
        },
        Err(fault) => tell(&fault, faults),
    }
}
