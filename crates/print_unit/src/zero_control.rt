//! Zero control, for all wheels at once: bit k of a word stands for wheel k + 1. It is worked by the characters that the wheels would print
//! without it: a figure, one of the rows 9 to 1 alone, is printed as 9 to 1, a zero as 0, and nothing else is printed so.

ghost use Rattle.std.specs.Prelude.{◌≡◌, ℕ, ◌+◌, ◌<◌, ◌≤◌, ◌&&◌, nat_lt, length, List, slice_index_or};
ghost use Rattle.net.specs.HubSets.{is_bit};
ghost use Rattle.print_unit.specs.WheelWords.{hides, is_between, received_at, HasPrinted, IsGiven};
ghost use Rattle.print_unit.specs.ZeroControl.{is_figure, is_zero};

use crate::wheel_words::WHEELS;
use std::simd::prelude::*;

// The bits of the wheels.
const ALL_WHEELS: u128 = (1 << 120) - 1;

/// The wheels that are blank by zero control, if it works in the cycle, by the characters of what they received and their jacks.
pub fn hidden(control: bool, line: &[u8; WHEELS], link: u128, suppress: u128, symbol: u128) -> u128
    ensures { (sets : List ℕ) → HasPrinted sets 120 line.now → (k : ℕ) → k < 120
        → is_bit result k ≡ (control && hides (received_at sets) link suppress symbol k) }
{
    if !control {
        return 0;
    }
    let given = given(link, figures(line));
    !(link & given) & (symbol | suppress & zeros(line))
}

// The wheels that received a figure: exactly one of the rows 9 to 1, and no other row.
fn figures(line: &[u8; WHEELS]) -> u128
    ensures { (sets : List ℕ) → HasPrinted sets 120 line.now → (k : ℕ) → k < 120
        → is_bit result k ≡ is_figure (received_at sets k) }
{
    between(line, b'1', b':')
}

// The wheels that received a zero: row 0 alone.
fn zeros(line: &[u8; WHEELS]) -> u128
    ensures { (sets : List ℕ) → HasPrinted sets 120 line.now → (k : ℕ) → k < 120
        → is_bit result k ≡ is_zero (received_at sets k) }
{
    between(line, b'0', b'1')
}

// The wheels with one of the characters from one on that come before another.
fn between(line: &[u8; WHEELS], first: u8, last: u8) -> u128
    ensures { (k : ℕ) → k < 120 → is_bit result k ≡ is_between first last (slice_index_or line.now k 0) }
{
    let left = u128::from(of_sixty_four(line, 0, first, last));
    let right = u128::from(of_sixty_four(line, 56, first, last));
    left | right << 56
}

// The same of sixty-four wheels from one on: bit k stands for the wheel k places on.
fn of_sixty_four(line: &[u8], from: usize, first: u8, last: u8) -> u64
    requires { from + 64 ≤ length line.now }
    ensures { (k : ℕ) → is_bit result k ≡ (nat_lt k 64 && is_between first last (slice_index_or line.now (from + k) 0)) }
{
    let characters = u8x64::from_slice(&line[from..]);
    let from_first = characters.simd_ge(u8x64::splat(first));
    let before_last = characters.simd_lt(u8x64::splat(last));
    (from_first & before_last).to_bitmask()
}

// The wheels that are given significance by their left neighbours, by the wheels with LINK and those that received a
// figure. Significance runs to the right as a carry runs through a sum: a figure starts it, and a linked wheel passes it on.
fn given(link: u128, figures: u128) -> u128
    ensures { IsGiven link figures result }
{
    let starts = figures & ALL_WHEELS;
    let passes = (figures | link) & ALL_WHEELS;
    passes + starts ^ passes ^ starts
}
