//! The line: the characters of the wheels, by the sets of the rows that they received.

ghost use Rattle.std.specs.Prelude.{◌≡◌, ℕ, All, ◌+◌, ◌-◌, ◌<◌, ◌≤◌, ◌&&◌, nat_le, true, length, slice_index_or, if◌then◌else◌};
ghost use Rattle.net.specs.HubSets.{is_bit};
ghost use Rattle.net.specs.Straight.{IsInside};
ghost use Rattle.print_unit.specs.RowSets.{Receives, ReceivesRuns, TakesRow};
ghost use Rattle.print_unit.specs.WheelWords.{HasPrinted};

use crate::characters::Characters;
use crate::wheel_words::WHEELS;
use card_code::CARD_COLUMNS;
use net::Straight;
use std::simd::prelude::*;

/// A place for each bit of a word of wheels.
pub const BITS: usize = 128;

// The bits of the first sixty-four wheels.
const LOW_HALF: u128 = (1 << 64) - 1;

/// Prints each wheel's character on the line, as if no wheel were hidden.
pub fn print(characters: &Characters, sets: &[u16; BITS], line: &mut [u8; WHEELS])
    ensures { HasPrinted sets.now 120 line.new }
{
    for eight in 0..15 {
        if is_empty(sets, 8 * eight) {
            put_blanks(sets, 8 * eight, line);
        } else {
            print_wheels(characters, sets, 8 * eight, line);
        }
    }
}

// Whether none of eight wheels received anything. Mostly none did, since few wheels are wired.
fn is_empty(sets: &[u16], from: usize) -> bool
    requires { from + 8 ≤ length sets.now }
    ensures { result ≡ true → (k : ℕ) → from ≤ k → k < from + 8 → slice_index_or sets.now k 0 ≡ 0 }
{
    u16x8::from_slice(&sets[from..])
        .simd_ne(u16x8::splat(0))
        .to_bitmask()
        == 0
}

// Prints eight wheels after those on the line, none of which received anything.
fn put_blanks(sets: &[u16; BITS], from: usize, line: &mut [u8; WHEELS])
    requires within { from + 8 ≤ 120 }
    requires empty { (k : ℕ) → from ≤ k → k < from + 8 → slice_index_or sets.now k 0 ≡ 0 }
    requires before { HasPrinted sets.now from line.old }
    ensures { HasPrinted sets.now (from + 8) line.new }
{
    for k in from..from + 8 {
        line[k] = b' ';
    }
}

// Prints eight wheels after those on the line.
fn print_wheels(characters: &Characters, sets: &[u16; BITS], from: usize, line: &mut [u8; WHEELS])
    requires within { from + 8 ≤ 120 }
    requires before { HasPrinted sets.now from line.old }
    ensures { HasPrinted sets.now (from + 8) line.new }
{
    for k in from..from + 8 {
        line[k] = characters.of(sets[k]);
    }
}

/// Makes the wheels of a word blank. Those that are not hidden are not looked at.
pub fn hide(hidden: u128, line: &mut [u8; WHEELS])
    ensures hidden { (k : ℕ)
        → k < 120
        → slice_index_or line.new k 0 ≡ (if is_bit hidden k then 32 else slice_index_or line.old k 0) }
    ensures wheels { length line.new ≡ 120 }
{
    hide_half((hidden & LOW_HALF) as u64, 0, line);
    hide_half((hidden >> 64) as u64, 64, line);
}

// Makes the wheels of half a word blank: its bits stand for the wheels from one on.
fn hide_half(hidden: u64, from: usize, line: &mut [u8; WHEELS])
    requires { from ≤ 64 }
    ensures hidden { (k : ℕ)
        → k < 120
        → slice_index_or line.new k 0 ≡ (if nat_le from k && is_bit hidden (k - from) then 32 else slice_index_or line.old k 0) }
    ensures wheels { length line.new ≡ 120 }
{
    let mut left = hidden;
    while left != 0 {
        let bit = left.trailing_zeros() as usize;
        if from + bit < WHEELS {
            line[from + bit] = b' ';
        }
        left &= !(1 << bit);
    }
}

/// The wheels of each run take the rows of its columns.
pub fn receive_runs(sets: &mut [u16; BITS], runs: &[Straight], columns: &[u16; CARD_COLUMNS])
    requires { All IsInside runs.now }
    ensures { ReceivesRuns columns.now runs.now sets.old sets.new }
{
    for run in runs {
        receive(sets, run.wheel, run.count, &columns[run.column..]);
    }
}

/// So many wheels from one on take the rows that they receive.
pub fn receive(sets: &mut [u16; BITS], first: usize, count: usize, received: &[u16])
    requires wheels { first + count ≤ 120 }
    requires received { count ≤ length received.now }
    ensures received { Receives first count received.now sets.old sets.new }
    ensures bits { length sets.new ≡ 128 }
{
    for k in 0..count {
        sets[first + k] |= received[k];
    }
}

/// Each wheel of a word takes the row of a place. Wheels that received nothing are not looked at.
pub fn take_row(sets: &mut [u16; BITS], word: u128, place: usize)
    requires { place < 12 }
    ensures row { TakesRow word place sets.old sets.new }
    ensures bits { length sets.new ≡ 128 }
{
    let mut left = word;
    while left != 0 {
        let k = left.trailing_zeros() as usize;
        sets[k] |= 1 << place;
        left &= !(1 << k);
    }
}
