//! What the carriage is asked for by wires straight from the exit that emits at the control point of a cycle.

ghost use Rattle.std.specs.Prelude.{◌≡◌, ◌<◌, ◌+◌, ◌++◌, OnOk};
ghost use Rattle.machine.specs.Below.carriage.Moves.{is_stop_of, next_stop, stop_from};
ghost use Rattle.explain_origins.specs.Asks.{asks, channel_from, channel_of, has_overflowed, is_of_cycles, overflow_by, overflow_words, overflows_to, page_words, skip_end, skip_to, skip_words, source_text, spacing_name, spacing_of, spacing_words, stop_words, wide_words, wire_words};

use crate::holes::is_wired;
use crate::levels::others_lead;
use hubs::Hub;
use hubs::setups::{Setup, Tape};
use net::{Cycle, Ordinal};
use std::io;
use std::io::Write;

/// How many exits are neither brushes nor those of cycles.
const BETWEEN: u32 = 864;

// Whether a wire leads to an entry from the exit of a cycle.
fn asks(setup: &Setup, cycle: Cycle, entry: Hub) -> bool
    ensures { result ≡ asks setup.now cycle entry }
{
    match cycle {
        Cycle::RunIn => false,
        Cycle::Card => is_wired(setup, Hub::CC, entry),
        Cycle::Prog(level, ordinal) => {
            is_wired(setup, Hub::PX(level.number(), ordinal.number()), entry)
        }
        Cycle::Head(heading) => is_wired(setup, Hub::HX(heading.number()), entry),
    }
}

// Whether wires lead to an entry from no contact.
#[tactic(auto, unfolding(crate::specs::Asks::is_of_cycles))]
fn is_of_cycles(setup: &Setup, entry: Hub) -> bool
    ensures { result ≡ is_of_cycles setup.now entry }
{
    !others_lead(setup, entry, BETWEEN)
}

// That exit.
fn write_source(text: &mut Vec<u8>, cycle: Cycle) -> io::Result<()>
    ensures { OnOk result (text.new.items ≡ text.old.items ++ source_text cycle) }
{
    match cycle {
        Cycle::RunIn => Ok(()),
        Cycle::Card => text.write_all(b"CC"),
        Cycle::Prog(level, ordinal) => {
            let level = level.number();
            let ordinal = ordinal.number();
            write!(text, "PX.{level}.{ordinal}")
        }
        Cycle::Head(heading) => {
            let heading = heading.number();
            write!(text, "HX.{heading}")
        }
    }
}

// The wire from it to an entry.
fn write_wire(text: &mut Vec<u8>, cycle: Cycle, name: &[u8]) -> io::Result<()>
    ensures { OnOk result (text.new.items ≡ text.old.items ++ wire_words cycle name.now) }
{
    text.write_all(b" by ")?;
    write_source(text, cycle)?;
    text.write_all(b" -> ")?;
    text.write_all(name)
}

// The lines of the spacing that a cycle asks for, if it isn't single.
fn spacing_of(setup: &Setup, cycle: Cycle) -> Option<u8>
    ensures { result ≡ spacing_of setup.now cycle }
{
    if asks(setup, cycle, Hub::SP(3)) {
        return Some(3);
    }
    if asks(setup, cycle, Hub::SP(2)) && is_of_cycles(setup, Hub::SP(3)) {
        return Some(2);
    }
    None
}

// Its name.
fn spacing_name(lines: u8) -> &'static [u8]
    ensures { result.now ≡ spacing_name lines }
{
    if lines == 3 { b"triple" } else { b"double" }
}

fn write_wide(text: &mut Vec<u8>, setup: &Setup, cycle: Cycle) -> io::Result<()>
    ensures { OnOk result (text.new.items ≡ text.old.items ++ wide_words setup.now cycle) }
{
    let Some(lines) = spacing_of(setup, cycle) else {
        return Ok(());
    };
    text.write_all(b", ")?;
    text.write_all(spacing_name(lines))?;
    text.write_all(b" spacing")?;
    write_wire(text, cycle, b"SP.")?;
    write!(text, "{lines}")
}

// The spacing of a cycle: the first heading cycle begins a page and doesn't space.
pub(crate) fn write_spacing(text: &mut Vec<u8>, setup: &Setup, cycle: Cycle) -> io::Result<()>
    ensures { OnOk result (text.new.items ≡ text.old.items ++ spacing_words setup.now cycle) }
{
    match cycle {
        Cycle::Head(Ordinal::First) => Ok(()),
        Cycle::RunIn
        | Cycle::Card
        | Cycle::Prog(_, _)
        | Cycle::Head(Ordinal::Second)
        | Cycle::Head(Ordinal::Third) => write_wide(text, setup, cycle),
    }
}

// The lowest of so many channels, from one on, to which a cycle asks to skip: none if a contact can ask for a lower one.
fn channel_from(setup: &Setup, cycle: Cycle, channel: u8, others: u8) -> Option<u8>
    requires { channel + others < 256 }
    ensures { result ≡ channel_from setup.now cycle channel others }
{
    if others == 0 {
        return None;
    }
    if asks(setup, cycle, Hub::SK(channel)) {
        return Some(channel);
    }
    if !is_of_cycles(setup, Hub::SK(channel)) {
        return None;
    }
    channel_from(setup, cycle, channel + 1, others - 1)
}

// The channel of the skip that a cycle asks for behind its line.
fn channel_of(setup: &Setup, cycle: Cycle) -> Option<u8>
    ensures { result ≡ channel_of setup.now cycle }
{
    channel_from(setup, cycle, 1, 12)
}

// Whether a channel has a stop at a line: channel 1 at the first line, channel 12 at the overflow line.
fn is_stop_of(tape: &Tape, channel: u8, line: u8) -> bool
    ensures { result ≡ is_stop_of tape.now channel line }
{
    match channel {
        1 => line == tape.first(),
        12 => line == tape.overflow(),
        _ => tape.has_stop(channel, line),
    }
}

// The first stop of a channel among so many lines, from one on.
fn stop_from(tape: &Tape, channel: u8, line: u8, others: u8) -> Option<u8>
    requires { line + others < 256 }
    ensures { result ≡ stop_from tape.now channel line others }
{
    if others == 0 {
        return None;
    }
    if is_stop_of(tape, channel, line) {
        return Some(line);
    }
    stop_from(tape, channel, line + 1, others - 1)
}

// The next stop of a channel on the form, below a line.
fn next_stop(tape: &Tape, channel: u8, line: u32) -> Option<u8>
    ensures { result ≡ next_stop tape.now channel line }
{
    let lines = tape.lines();
    if u32::from(lines) <= line {
        return None;
    }
    let line = line as u8;
    stop_from(tape, channel, line + 1, lines - line)
}

// The stop to which a skip from a line goes, if the form has one below the line.
fn write_stop(text: &mut Vec<u8>, stop: Option<u8>) -> io::Result<()>
    ensures { OnOk result (text.new.items ≡ text.old.items ++ stop_words stop) }
{
    match stop {
        Some(stop) => write!(text, ", a skip to line {stop}"),
        None => text.write_all(b", a skip that finds no stop"),
    }
}

// A skip from the line of a cycle, if it asks for one.
fn write_skip_to(
    text: &mut Vec<u8>,
    tape: &Tape,
    cycle: Cycle,
    line: u32,
    channel: Option<u8>,
) -> io::Result<()>
    ensures { OnOk result (text.new.items ≡ text.old.items ++ skip_to tape.now cycle line channel) }
{
    let Some(channel) = channel else {
        return Ok(());
    };
    write_stop(text, next_stop(tape, channel, line))?;
    write_wire(text, cycle, b"SK.")?;
    write!(text, "{channel}")
}

// The skip that a cycle asks for behind its line, if it does.
pub(crate) fn write_skip(
    text: &mut Vec<u8>,
    setup: &Setup,
    cycle: Cycle,
    line: u32,
) -> io::Result<()>
    ensures { OnOk result (text.new.items ≡ text.old.items ++ skip_words setup.now cycle line) }
{
    let channel = channel_of(setup, cycle);
    write_skip_to(text, setup.tape(), cycle, line, channel)
}

// Where the form comes by such a skip.
fn skip_end(tape: &Tape, line: u32, channel: Option<u8>) -> u32
    ensures { result ≡ skip_end tape.now line channel }
{
    let Some(channel) = channel else {
        return line;
    };
    match next_stop(tape, channel, line) {
        Some(stop) => u32::from(stop),
        None => line,
    }
}

// Whether the form came to the overflow line on the way to a line of a page.
fn has_overflowed(tape: &Tape, line: u32) -> bool
    ensures { result ≡ has_overflowed tape.now line }
{
    let first = u32::from(tape.first());
    let overflow = u32::from(tape.overflow());
    overflow <= line && (first < overflow || line < first)
}

// Whether it comes there from that line on.
fn overflows_to(tape: &Tape, line: u32, end: u32) -> bool
    ensures { result ≡ overflows_to tape.now line end }
{
    let overflow = u32::from(tape.overflow());
    line < overflow && overflow <= end
}

// That it came or comes there, if it does.
fn write_overflow_by(text: &mut Vec<u8>, tape: &Tape, line: u32, end: u32) -> io::Result<()>
    ensures { OnOk result (text.new.items ≡ text.old.items ++ overflow_by tape.now line end) }
{
    if has_overflowed(tape, line) || overflows_to(tape, line, end) {
        let overflow = tape.overflow();
        return write!(text, ", overflow at line {overflow}");
    }
    Ok(())
}

// The overflow at the line of a cycle or in the skip behind it, if there is one.
pub(crate) fn write_overflow(
    text: &mut Vec<u8>,
    setup: &Setup,
    cycle: Cycle,
    line: u32,
) -> io::Result<()>
    ensures { OnOk result (text.new.items ≡ text.old.items ++ overflow_words setup.now cycle line) }
{
    let end = skip_end(setup.tape(), line, channel_of(setup, cycle));
    write_overflow_by(text, setup.tape(), line, end)
}

// The new page that a cycle asks for, if it does.
pub(crate) fn write_page(text: &mut Vec<u8>, setup: &Setup, cycle: Cycle) -> io::Result<()>
    ensures { OnOk result (text.new.items ≡ text.old.items ++ page_words setup.now cycle) }
{
    if asks(setup, cycle, Hub::RS) {
        text.write_all(b", a new page")?;
        return write_wire(text, cycle, b"RS");
    }
    Ok(())
}
