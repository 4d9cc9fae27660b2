//! Lines that are none of a wiring chart.

ghost use Rattle.std.specs.Prelude.{◌≡◌, ◌≤◌, length};
ghost use Rattle.chart_lines.specs.TokensWords.NumberReading.{number_to};
ghost use Rattle.fault_wiring_slips.specs.LineSlips as law;

use crate::hub::{HubWord, from_one, hub_word, is_two};
use chart_lines::tokens::{is, read_number, read_number_to};
use fault_slips::line_marks::{Span, token_span, word};
use fault_slips::line_slips::{Slip, slip_of, slip_span};
use hubs::hub_table::Numbers;

/// What is wrong with a line that is none of a wiring chart, as far as the line tells it.
#[derive(Clone, Copy, Debug, PartialEq, Eq)]
pub enum LineSlip {
    /// It has a byte that no line of a wiring chart has. The slip is never `Other`.
    Bytes(Slip),
    /// `WIRE` with one word behind it, or none.
    TooFew,
    /// `WIRE` with one word, in which two hubs stand.
    TwoInOne,
    /// A word stands behind the last one of the form: at this place among the words.
    TooMany(usize),
    /// The first word behind `WIRE` is no hub as it is written.
    NoExit(HubWord),
    /// The second word behind `WIRE` is no hub as it is written.
    NoEntry(HubWord),
    /// `WIRE` between two hubs as they are written: in version 2, those of a carry.
    WiredCarry,
    /// The channel of `STOP` is not 2 to 11.
    Channel,
    /// The line of `STOP` is no number.
    StopLine,
    /// The word behind `JACK` is the name of no jack.
    NoJack,
    /// The number of `JACK` is wanting or out of range.
    JackNumber,
    /// Nothing stands behind `JACK`, `RING` or `COUPLE`.
    Alone,
    /// `RING` or `COUPLE` in version 1.
    NewWord,
    /// `RING` or `COUPLE` without the numbers that it takes.
    Carry,
    /// A second `FORM`.
    SecondForm,
    /// Something stands behind `END`.
    EndMore,
    /// No line begins with the first word.
    NoWord,
}

/// Whether a line has no word that has `index` others before it.
pub(crate) fn lacks(line: &[u8], index: usize) -> bool
    ensures { result ≡ law.lacks index line.now }
{
    is(word(line, index), b"")
}

/// Whether the first word of a line is this one.
pub fn begins_with(line: &[u8], first: &[u8]) -> bool
    ensures { result ≡ law.begins_with line.now first.now }
{
    is(word(line, 0), first)
}

/// `WIRE` with one word behind it, or none.
#[tactic(auto, unfolding(crate::specs::LineSlips::few_slip))]
fn few_slip(line: &[u8]) -> LineSlip
    ensures { result ≡ law.few_slip line.now }
{
    if is_two(word(line, 1)) {
        LineSlip::TwoInOne
    } else {
        LineSlip::TooFew
    }
}

/// `WIRE` with two words, or with more if the form is not whole with them.
fn hubs_slip(exit: HubWord, entry: HubWord, is_whole: bool) -> LineSlip
    ensures { result ≡ law.hubs_slip exit entry is_whole }
{
    if !exit.is_name() {
        LineSlip::NoExit(exit)
    } else if !entry.is_name() {
        LineSlip::NoEntry(entry)
    } else if is_whole {
        LineSlip::WiredCarry
    } else {
        LineSlip::TooMany(3)
    }
}

/// What is wrong with a line that begins with `WIRE`.
#[tactic(auto, unfolding(crate::specs::LineSlips::wire_slip))]
fn wire_slip(line: &[u8]) -> LineSlip
    ensures { result ≡ law.wire_slip line.now }
{
    if lacks(line, 2) {
        few_slip(line)
    } else {
        hubs_slip(
            hub_word(word(line, 1)),
            hub_word(word(line, 2)),
            lacks(line, 3),
        )
    }
}

/// Whether a word is a channel that has stops, 2 to 11.
fn is_stop_channel(token: &[u8]) -> bool
    ensures { result ≡ law.is_stop_channel (number_to 11 token.now) }
{
    match read_number_to(11, token) {
        Some(channel) => channel >= 2,
        None => false,
    }
}

/// What is wrong with a line that begins with `STOP`.
#[tactic(auto, unfolding(crate::specs::LineSlips::stop_slip))]
fn stop_slip(line: &[u8]) -> LineSlip
    ensures { result ≡ law.stop_slip line.now }
{
    if !is_stop_channel(word(line, 1)) {
        LineSlip::Channel
    } else if read_number(word(line, 2)).is_none() {
        LineSlip::StopLine
    } else {
        LineSlip::TooMany(3)
    }
}

/// Whether a word is the name of jacks.
#[tactic(auto, unfolding(crate::specs::LineSlips::is_jack))]
fn is_jack(name: &[u8]) -> bool
    ensures { result ≡ law.is_jack name.now }
{
    is(name, b"LIST")
        || is(name, b"TOTAL")
        || is(name, b"HEAD")
        || is(name, b"LINK")
        || is(name, b"SUPPRESS")
        || is(name, b"SYMBOL")
}

/// The greatest number of the jacks of a name.
#[tactic(auto, unfolding(crate::specs::LineSlips::last_jack))]
fn last_jack(name: &[u8]) -> u8
    ensures { result ≡ law.last_jack name.now }
{
    if is(name, b"TOTAL") {
        4
    } else if is(name, b"HEAD") {
        3
    } else {
        120
    }
}

/// What is wrong with a line that names jacks: a word behind the jack, or its number.
#[tactic(auto, unfolding(crate::specs::LineSlips::numbered_slip))]
fn numbered_slip(name: &[u8], number: &[u8]) -> LineSlip
    ensures { result ≡ law.numbered_slip name.now number.now }
{
    if is(name, b"LIST") {
        LineSlip::TooMany(2)
    } else if read_number_to(last_jack(name), number).is_some() {
        LineSlip::TooMany(3)
    } else {
        LineSlip::JackNumber
    }
}

/// What is wrong with a line that begins with `JACK`.
#[tactic(auto, unfolding(crate::specs::LineSlips::jack_slip))]
fn jack_slip(line: &[u8]) -> LineSlip
    ensures { result ≡ law.jack_slip line.now }
{
    let name = word(line, 1);
    if lacks(line, 1) {
        LineSlip::Alone
    } else if is_jack(name) {
        numbered_slip(name, word(line, 2))
    } else {
        LineSlip::NoJack
    }
}

/// Whether numbers are two, as those of a counter group.
fn are_two(numbers: Option<Numbers>) -> bool
    ensures { result ≡ law.are_two numbers }
{
    match numbers {
        Some(Numbers::Two(..)) => true,
        _ => false,
    }
}

/// Whether two numbers are there and different.
fn are_different(one: Option<u16>, other: Option<u16>) -> bool
    ensures { result ≡ law.are_different one other }
{
    match (one, other) {
        (Some(one), Some(other)) => one != other,
        _ => false,
    }
}

/// Whether the words behind `RING` begin as those of a carry.
fn is_ring(line: &[u8]) -> bool
    ensures { result ≡ law.is_ring line.now }
{
    are_two(from_one(word(line, 1)))
}

/// Whether the words behind `COUPLE` do.
fn is_couple(line: &[u8]) -> bool
    ensures { result ≡ law.is_couple line.now }
{
    are_different(read_number(word(line, 1)), read_number(word(line, 2)))
}

/// A word behind a carry, or the numbers of one.
fn behind_slip(is_carry: bool, place: usize) -> LineSlip
    ensures { result ≡ law.behind_slip is_carry place }
{
    if is_carry {
        LineSlip::TooMany(place)
    } else {
        LineSlip::Carry
    }
}

/// What is wrong with a line that begins with `RING` or `COUPLE`, in version 2.
#[tactic(auto, unfolding(crate::specs::LineSlips::carry_words_slip))]
fn carry_words_slip(line: &[u8]) -> LineSlip
    ensures { result ≡ law.carry_words_slip line.now }
{
    if lacks(line, 1) {
        LineSlip::Alone
    } else if begins_with(line, b"RING") {
        behind_slip(is_ring(line), 2)
    } else {
        behind_slip(is_couple(line), 3)
    }
}

/// What is wrong with the words of a line.
#[tactic(auto, unfolding(crate::specs::LineSlips::word_slip))]
fn word_slip(is_second: bool, line: &[u8]) -> LineSlip
    ensures { result ≡ law.word_slip is_second line.now }
{
    if begins_with(line, b"WIRE") {
        wire_slip(line)
    } else if begins_with(line, b"STOP") {
        stop_slip(line)
    } else if begins_with(line, b"JACK") {
        jack_slip(line)
    } else if begins_with(line, b"RING") || begins_with(line, b"COUPLE") {
        if is_second {
            carry_words_slip(line)
        } else {
            LineSlip::NewWord
        }
    } else if begins_with(line, b"FORM") {
        LineSlip::SecondForm
    } else if begins_with(line, b"END") {
        LineSlip::EndMore
    } else {
        LineSlip::NoWord
    }
}

/// What is wrong with a line that is none of a wiring chart, in version 2 of the language or not. Bytes that no line has are told first.
#[tactic(auto, unfolding(crate::specs::LineSlips::line_slip))]
pub fn line_slip(is_second: bool, line: &[u8]) -> LineSlip
    ensures { result ≡ law.line_slip is_second line.now }
{
    match slip_of(line) {
        Slip::Other => word_slip(is_second, line),
        slip => LineSlip::Bytes(slip),
    }
}

/// The place of the word that is marked.
fn slip_place(slip: LineSlip) -> usize
    ensures { result ≡ law.slip_place slip }
{
    match slip {
        LineSlip::Bytes(_)
        | LineSlip::TooFew
        | LineSlip::Alone
        | LineSlip::NewWord
        | LineSlip::SecondForm
        | LineSlip::NoWord => 0,
        LineSlip::TwoInOne
        | LineSlip::NoExit(_)
        | LineSlip::WiredCarry
        | LineSlip::Channel
        | LineSlip::NoJack
        | LineSlip::Carry
        | LineSlip::EndMore => 1,
        LineSlip::NoEntry(_) | LineSlip::StopLine | LineSlip::JackNumber => 2,
        LineSlip::TooMany(place) => place,
    }
}

/// What is marked of a line: the byte by which the slip is known, or else the word.
pub fn line_span(slip: LineSlip, line: &[u8]) -> Span
    ensures value { result ≡ law.line_span slip line.now }
    ensures ordered { result.start ≤ result.end }
    ensures within { result.end ≤ length line.now }
{
    match slip {
        LineSlip::Bytes(_) => slip_span(line),
        other => token_span(line, slip_place(other)),
    }
}
