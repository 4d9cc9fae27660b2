//! How much a setup has.

ghost use Rattle.std.specs.Prelude.{◌≡◌, ◌↔◌, ◌<◌, ◌≤◌, ◌*◌, All, Contains, IsTrue, length};
ghost use Rattle.match_panels.specs.DifferencesWords.Differences.{AreMany, HasSize};
ghost use Rattle.match_panels.specs.DifferencesWords.HelperSizes.{HasBefore, IsNewAt, JackAt, StopAt, StopIn, WireFrom};
ghost use Rattle.hubs.specs.SetupsWords.Tapes.{IsCarriageTape, IsStopOf};
ghost use Rattle.hubs.specs.SetupsWords.Wiring.{HasJack, IsEntryNumber, IsWireOf};

use hubs::setups::{Setup, Tape};
use hubs::{Hub, JACKS, Jack};

// Whether the number at a place of a list stands before it too.
fn is_repeated(numbers: &[u16], place: usize) -> bool
    requires { place < length numbers.now }
    ensures { IsTrue result ↔ HasBefore numbers.now place }
{
    numbers[..place].contains(&numbers[place])
}

// Whether a number stands at a place of a list and nowhere before it: 1 for so, 0 for not.
fn new_at(numbers: &[u16], place: usize) -> u32
    requires { place < length numbers.now }
    ensures many { AreMany (IsNewAt numbers.now place) result }
    ensures few { result ≤ 1 }
{
    if is_repeated(numbers, place) { 0 } else { 1 }
}

// How many numbers of entries stand in a list, each counted once.
fn different(numbers: &[u16]) -> u32
    requires { All IsEntryNumber numbers.now }
    ensures many { AreMany (Contains numbers.now) result }
    ensures few { result ≤ 1937 }
{
    let mut many = 0;
    for place in 0..numbers.len() {
        many += new_at(numbers, place);
    }
    many
}

// How many wires lead from the exit of a number.
fn wires_from(setup: &Setup, number: u32) -> u32
    ensures many { AreMany (WireFrom setup.now number) result }
    ensures few { result ≤ 1937 }
{
    match Hub::of_number(number) {
        Some(exit) => different(setup.entries_of(exit)),
        None => 0,
    }
}

// How many wires a setup has.
fn wires(setup: &Setup) -> u32
    ensures many { AreMany (IsWireOf setup.now) result }
    ensures few { result ≤ 1937 * 1937 }
{
    // Called for its promise alone, that wires lead from exits: it saves the numbers of the entries.
    let _its = setup.known();
    let mut many = 0;
    for number in 0..1041 {
        many += wires_from(setup, number);
    }
    many
}

// Whether the jack at a place of the panel is plugged: 1 for one, 0 for none.
fn jacks_at(setup: &Setup, place: usize) -> u32
    ensures many { AreMany (JackAt setup.now place) result }
    ensures few { result ≤ 1 }
{
    match Jack::at(place) {
        Some(jack) if setup.has_jack(jack) => 1,
        _ => 0,
    }
}

// How many jacks are plugged.
fn jacks(setup: &Setup) -> u32
    ensures many { AreMany (HasJack setup.now) result }
    ensures few { result ≤ 368 }
{
    let mut many = 0;
    for place in 0..JACKS {
        many += jacks_at(setup, place);
    }
    many
}

// Whether a channel has a stop at a line: 1 for one, 0 for none.
fn stops_at(tape: &Tape, channel: u8, line: u8) -> u32
    ensures many { AreMany (StopAt tape.now channel line) result }
    ensures few { result ≤ 1 }
{
    if tape.has_stop(channel, line) { 1 } else { 0 }
}

// How many stops a channel has.
fn stops_in(tape: &Tape, channel: u8) -> u32
    requires { IsCarriageTape tape.now }
    ensures many { AreMany (StopIn tape.now channel) result }
    ensures few { result ≤ 145 }
{
    let mut many = 0;
    for line in 0..145 {
        many += stops_at(tape, channel, line);
    }
    many
}

// How many stops a tape has.
fn stops(tape: &Tape) -> u32
    requires { IsCarriageTape tape.now }
    ensures many { AreMany (IsStopOf tape.now) result }
    ensures few { result ≤ 12 * 145 }
{
    let mut many = 0;
    for channel in 0..12 {
        many += stops_in(tape, channel);
    }
    many
}

/// How many wires, jacks and stops a setup has together.
pub fn size(setup: &Setup) -> u32
    ensures size { HasSize setup.now result }
    ensures few { result ≤ 4000000 }
{
    let wires = wires(setup);
    let jacks = jacks(setup);
    let stops = stops(setup.tape());
    wires + jacks + stops
}
