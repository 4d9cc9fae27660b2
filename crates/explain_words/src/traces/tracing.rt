//! The trace of a whole run.

ghost use Rattle.std.specs.Prelude.{◌≡◌, ◌≤◌, ℕ, List, OnOk, length, take};
ghost use Rattle.std.specs.Io.KnownBytes.{Appends};
ghost use Rattle.card_code.specs.MostCards.{most_cards};
ghost use Rattle.explain_wheels.specs.RunsWords.{Along, IsIn};
ghost use Rattle.hubs.specs.SetupsWords.Wiring.{Wiring};
ghost use Rattle.explain_words.specs.TracesWords.Tracing.{TracesCycle, WritesTrace, WritesTraceFront};

use crate::traces::lines::{make_line, write_units};
use crate::traces::places::write_placed;
use card_code::Card;
use explain_wheels::runs::DeckRun;
use hubs::setups::Setup;
use net::Cycle;
use std::alloc::Global;
use std::io;
use std::io::{ErrorKind, Write};

// Writes a line, from where a short write stopped. Nothing is tried again: an interrupted write has failed, and so has one that takes none of
// some bytes. The writer has then taken the front of the line.
fn put_line<W: Write>(out: &mut W, line: &[u8]) -> io::Result<()>
    ensures written { OnOk result (Appends (W.contents out.old) (W.contents out.new) line.now) }
    ensures front { (count : ℕ) × (count ≤ length line.now) × Appends (W.contents out.old) (W.contents out.new) (take count line.now) }
{
    let mut done = 0;
    while done < line.len() {
        match out.write(&line[done..]) {
            Ok(0) => return Err(io::Error::from(ErrorKind::WriteZero)),
            Ok(count) => done += count,
            Err(error) => return Err(error),
        }
    }
    Ok(())
}

// Leaves a cycle, and makes its line in the place of another. What is told of the cycle is made in the place of something else.
pub(crate) fn tell_cycle(
    run: &mut DeckRun,
    cycle: Cycle,
    told: &mut Vec<u8>,
    line: &mut Vec<u8>,
) -> io::Result<()>
    ensures { (wiring : Wiring) (deck : List (List ℕ)) (from : Along) → IsIn wiring deck cycle from run.old
        → OnOk result (TracesCycle wiring deck cycle from run.old.machine.machine run.new line.new.items) }
{
    told.clear();
    write_units(told, cycle, &run.machine)?;
    run.leave(cycle);
    write_placed(told, &run.machine.line())?;
    make_line(line, cycle, run.card, told.as_slice())
}

/// Runs a deck of at most 999,999 cards through a setup of the panel, and writes the trace of the run: the line of each cycle before the
/// next one runs. Any setup will do.
///
/// # Errors
///
/// `OutOfMemory` if a growth was refused, and the writer's error if it fails; an interrupted write has failed. The writer has then taken the
/// front of the trace, which may be none or all of it.
pub fn write_trace<W: Write>(
    alloc: Global,
    setup: &Setup,
    cards: &[Card],
    out: &mut W,
) -> io::Result<()>
    requires { length cards.now ≤ most_cards }
    ensures written { OnOk result (WritesTrace setup.now cards.now (W.contents out.old) (W.contents out.new)) }
    ensures front { WritesTraceFront setup.now cards.now (W.contents out.old) (W.contents out.new) }
{
    let mut run = DeckRun::begin(alloc, setup, cards)?;
    let mut told = Vec::new(alloc);
    let mut line = Vec::new(alloc);
    while let Some(cycle) = run.enter(setup, cards) {
        tell_cycle(&mut run, cycle, &mut told, &mut line)?;
        put_line(out, line.as_slice())?;
    }
    out.flush()
}
