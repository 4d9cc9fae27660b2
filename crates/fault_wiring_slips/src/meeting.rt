//! Lines that another line meets.

ghost use Rattle.std.specs.Prelude.{◌≡◌};
ghost use Rattle.hubs.specs.Carries.{do_carries_agree};
ghost use Rattle.fault_slips.specs.LineMarks.FirstLines.{first_line};
ghost use Rattle.fault_wiring_slips.specs.Meetings as law;

use crate::hub::{letters_in, tail_of};
use crate::line::begins_with;
use card_code::next_line;
use chart_lines::tokens::is;
use fault_slips::line_marks::word;
use hubs::{Group, is_one_group};

/// How a line meets another one.
#[derive(Clone, Copy, Debug, PartialEq, Eq)]
pub enum Meeting {
    /// It says the same.
    Same,
    /// It wires a carry that can't be there together with that of the line.
    Carry,
}

/// A carry wire: the group that the carry leaves, and the group that it enters.
#[derive(Clone, Copy, Debug, PartialEq, Eq)]
pub struct CarryWire {
    /// The group that it leaves.
    pub from: Group,
    /// The group that it enters.
    pub to: Group,
}

/// The counter group of two digits.
fn group_of_digits(width: u8, number: u8) -> Group
    ensures { result ≡ law.group_of_digits width number }
{
    Group {
        width: width.saturating_sub(b'0'),
        number: number.saturating_sub(b'0'),
    }
}

/// The group behind the letters of a hub.
fn hub_group(tail: &[u8]) -> Option<Group>
    ensures { result ≡ law.hub_group tail.now }
{
    match tail {
        [_, width, _, number] => Some(group_of_digits(*width, *number)),
        _ => None,
    }
}

/// The group of a ring.
fn ring_group(group: &[u8]) -> Option<Group>
    ensures { result ≡ law.ring_group group.now }
{
    match group {
        [width, _, number] => Some(group_of_digits(*width, *number)),
        _ => None,
    }
}

/// A group of a couple, which has 8 positions.
fn couple_group(group: &[u8]) -> Option<Group>
    ensures { result ≡ law.couple_group group.now }
{
    match group {
        [number] => Some(group_of_digits(b'8', *number)),
        _ => None,
    }
}

/// The group of a carry exit or entry.
fn carry_group(letters: &[u8], hub: &[u8]) -> Option<Group>
    ensures { result ≡ law.carry_group letters.now hub.now }
{
    if is(letters_in(hub), letters) {
        hub_group(tail_of(hub))
    } else {
        None
    }
}

/// The carry wire between two groups.
fn carry_between(from: Option<Group>, to: Option<Group>) -> Option<CarryWire>
    ensures { result ≡ law.carry_between from to }
{
    match (from, to) {
        (Some(from), Some(to)) => Some(CarryWire { from, to }),
        _ => None,
    }
}

/// The carry that a line wires, if it wires one.
#[tactic(auto, unfolding(crate::specs::Meetings::carry_of))]
pub(crate) fn carry_of(line: &[u8]) -> Option<CarryWire>
    ensures { result ≡ law.carry_of line.now }
{
    let (first, second) = (word(line, 1), word(line, 2));
    if begins_with(line, b"WIRE") {
        carry_between(carry_group(b"CO", first), carry_group(b"CI", second))
    } else if begins_with(line, b"RING") {
        carry_between(ring_group(first), ring_group(first))
    } else if begins_with(line, b"COUPLE") {
        carry_between(couple_group(first), couple_group(second))
    } else {
        None
    }
}

/// Whether two carries agree: they leave one group exactly if they enter one, and the second leaves the group that the first enters exactly
/// if it enters the one that the first leaves.
fn do_carries_agree(one: CarryWire, other: CarryWire) -> bool
    ensures { result ≡ do_carries_agree one.from one.to other.from other.to }
{
    (is_one_group(one.from, other.from) == is_one_group(one.to, other.to))
        && (is_one_group(one.to, other.from) == is_one_group(one.from, other.to))
}

/// Whether two carries can't be there together.
fn are_apart(one: Option<CarryWire>, other: Option<CarryWire>) -> bool
    ensures { result ≡ law.are_apart one other }
{
    match (one, other) {
        (Some(one), Some(other)) => !do_carries_agree(one, other),
        _ => false,
    }
}

/// Whether two lines have the same words.
#[tactic(auto, unfolding(crate::specs::Meetings::says_same))]
fn says_same(one: &[u8], other: &[u8]) -> bool
    ensures { result ≡ law.says_same one.now other.now }
{
    is(word(one, 0), word(other, 0))
        && is(word(one, 1), word(other, 1))
        && is(word(one, 2), word(other, 2))
}

/// Whether a line meets another one.
fn meets(meeting: Meeting, line: &[u8], other: &[u8]) -> bool
    ensures { result ≡ law.meets meeting line.now other.now }
{
    match meeting {
        Meeting::Same => says_same(line, other),
        Meeting::Carry => are_apart(carry_of(line), carry_of(other)),
    }
}

/// The number of the first line of a text that a line meets, from 1.
pub fn first_met(meeting: Meeting, line: &[u8], text: &[u8]) -> Option<u64>
    ensures { result ≡ first_line (law.meets meeting line.now) text.now }
{
    let mut passed = 0_usize;
    let mut rest = text;
    while let Some((other, after)) = next_line(rest) {
        passed += 1;
        if meets(meeting, line, other) {
            return Some(passed as u64);
        }
        rest = after;
    }
    None
}
