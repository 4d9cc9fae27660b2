//! The carriage tape.

ghost use Rattle.std.specs.Prelude.{◌≡◌, ℕ, ◌<◌, ◌↔◌, ◌||◌, [], All, false, IsTrue, length, nat_eq, slice_index_or};
ghost use Rattle.hubs.specs.SetupsWords.Tapes.{IsFormed, IsStop};

use crate::setups::fault::SetupFault;
use std::marker::Model;

// Places for the channels 2 to 11, and for the lines 1 to 144, each by its number.
const CHANNELS: usize = 12;

const LINES: usize = 145;

/// A carriage tape: the lines of a form, its first line, its overflow line, and the stops of channels 2 to 11.
///
/// A form has 3 to 144 lines. The first line, where channel 1 has its hole, the overflow line, that of channel 12,
/// and each stop are lines of the form.
#[derive(Clone, Copy, Debug, PartialEq, Eq)]
pub struct Tape {
    lines: u8,
    first: u8,
    overflow: u8,
    stops: [[bool; LINES]; CHANNELS],
}

impl Model for Tape {
    ghost use Rattle.hubs.specs.SetupsWords.Tapes.{CarriageTape, IsCarriageTape};

    ghost Value = { CarriageTape };

    ghost use Rattle.hubs.specs.SetupsWords.Fields.{carriage_tape};

    ghost view = { carriage_tape };

    ghost invariant = { λ tape. IsCarriageTape (carriage_tape tape) };

    ghost inverse = { λ f. record { lines = f.lines; first = f.first; overflow = f.overflow; stops = f.stops } };
}

impl Tape {
    ghost use Rattle.std.specs.Prelude.{◌≡◌, ◌↔◌, true, false, IsTrue, Ok, IsOk, IfOk, IfErr, OnOk, OnErr};
    ghost use Rattle.hubs.specs.SetupsWords.Tapes.{has_stop, IsCarriageTape, IsStop, IsTape, AddsStop, HasStops};
    ghost use Rattle.hubs.specs.declared.setups.fault.SetupFault.{SetupFault};
    ghost use Rattle.std.specs.Bool.{OnTrue, OnFalse};

    /// A tape for forms of `lines` lines, with its first line, its overflow line and its stops, each a channel and a
    /// line.
    ///
    /// It is refused, with `TapeFault`, unless a form has 3 to 144 lines, the first line, the overflow line and the
    /// stops are lines of the form, the stops' channels are 2 to 11, and no stop stands twice.
    pub fn new(lines: u8, first: u8, overflow: u8, stops: &[(u8, u8)]) -> Result<Tape, SetupFault>
        ensures made { IsOk result ↔ IsTape lines first overflow stops.now }
        ensures refused { IfErr result (λ fault. fault ≡ SetupFault.TapeFault) }
        ensures lines { IfOk result (λ tape. tape.lines ≡ lines) }
        ensures first { IfOk result (λ tape. tape.first ≡ first) }
        ensures overflow { IfOk result (λ tape. tape.overflow ≡ overflow) }
        ensures stops { IfOk result (λ tape. HasStops tape stops.now) }
        ensures form { IfOk result IsCarriageTape }
    {
        if !is_formed(lines, first, overflow) {
            return Err(SetupFault::TapeFault);
        }
        let mut tape = Tape {
            lines,
            first,
            overflow,
            stops: no_stops(),
        };
        for &(channel, line) in stops {
            if !tape.add_stop(channel, line) {
                return Err(SetupFault::TapeFault);
            }
        }
        Ok(tape)
    }

    /// Punches a stop of a channel, and answers false where it was there.
    ///
    /// Refused with `TapeFault` unless the channel is 2 to 11 and the line one of the form. A refusal leaves the tape as it was.
    pub fn punch(&mut self, channel: u8, line: u8) -> Result<bool, SetupFault>
        ensures stops { OnOk result (AddsStop self.old self.new channel line) }
        ensures was_there { (result ≡ Ok false) ↔ (has_stop self.old channel line ≡ true) }
        ensures refused { IfErr result (λ fault. fault ≡ SetupFault.TapeFault) }
        ensures good { IsOk result ↔ IsStop self.old.lines channel line }
        ensures unchanged { OnErr result (self.new ≡ self.old) }
    {
        if !is_stop(self.lines, channel, line) {
            return Err(SetupFault::TapeFault);
        }
        Ok(self.add_stop(channel, line))
    }

    // The tape, and what is known of every tape.
    pub(crate) fn known(&self) -> &Tape
        ensures value { result.now ≡ self.now }
        ensures form { IsCarriageTape self.now }
    {
        // Read for the proof alone: it saves each reader of a tape a test of its form.
        let _lines = self.lines;
        self
    }

    // Adds a stop of the form, and tells whether it could: a stop that is there already, or that is no stop of the
    // form, changes nothing.
    fn add_stop(&mut self, channel: u8, line: u8) -> bool
        ensures could { IsTrue result
            ↔ (IsStop self.old.lines channel line × (has_stop self.old channel line ≡ false)) }
        ensures added { OnTrue result (AddsStop self.old self.new channel line) }
        ensures refused { OnFalse result (self.new ≡ self.old) }
        ensures form { IsCarriageTape self.new }
    {
        if !is_stop(self.lines, channel, line) || self.has_stop(channel, line) {
            return false;
        }
        punch_row(&mut self.stops[channel as usize], line);
        true
    }

    /// The lines of a form, 3 to 144.
    pub fn lines(&self) -> u8
        ensures value { result ≡ self.now.lines }
        ensures form { IsCarriageTape self.now }
    {
        self.lines
    }

    /// The first line of the form, where channel 1 has its hole, 1 to `lines`: the first heading cycle goes there.
    pub fn first(&self) -> u8
        ensures value { result ≡ self.now.first }
        ensures form { IsCarriageTape self.now }
    {
        self.first
    }

    /// The overflow line, where channel 12 has its hole, 1 to `lines`.
    pub fn overflow(&self) -> u8
        ensures value { result ≡ self.now.overflow }
        ensures form { IsCarriageTape self.now }
    {
        self.overflow
    }

    /// Whether a channel 2 to 11 has a stop at a line of the form; false for any other channel or line.
    pub fn has_stop(&self, channel: u8, line: u8) -> bool
        ensures value { result ≡ has_stop self.now channel line }
        ensures form { IsCarriageTape self.now }
    {
        (channel as usize) < CHANNELS
            && (line as usize) < LINES
            && self.stops[channel as usize][line as usize]
    }
}

fn is_formed(lines: u8, first: u8, overflow: u8) -> bool
    ensures { IsTrue result ↔ IsFormed lines first overflow }
{
    3 <= lines && lines <= 144 && 1 <= first && first <= lines && 1 <= overflow && overflow <= lines
}

fn is_stop(lines: u8, channel: u8, line: u8) -> bool
    ensures { IsTrue result ↔ IsStop lines channel line }
{
    2 <= channel && channel <= 11 && 1 <= line && line <= lines
}

// Punches a channel at a line.
fn punch_row(row: &mut [bool; LINES], line: u8)
    requires { line < LINES }
    ensures punched { (l : ℕ) → slice_index_or row.new l false ≡ (slice_index_or row.old l false || nat_eq l line) }
    ensures long { length row.new ≡ 145 }
{
    row[line as usize] = true;
}

// A tape with no stop.
fn no_stops() -> [[bool; LINES]; CHANNELS]
    ensures blank { (c l : ℕ) → slice_index_or (slice_index_or result c []) l false ≡ false }
    ensures long { All (λ row. length row ≡ 145) result }
{
    let row = [false; LINES];
    [row; CHANNELS]
}
