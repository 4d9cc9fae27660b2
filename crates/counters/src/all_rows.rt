//! What a counter group emits and senses at the points of all rows at once. Sets of rows are numbers: the bit of a row is its place among
//! the points, from row 9 at bit 0 to row 0 at bit 9.

ghost use Rattle.std.specs.Prelude.{◌≡◌, ℕ, ◌<◌, ◌≤◌, ◌==◌, All, length, map, slice_index_or, take};
ghost use Rattle.card_code.specs.Rows.{passing_place, row_number};
ghost use Rattle.card_code.specs.declared.row.Row.{Row as CardRow};
ghost use Rattle.net.specs.HubSets.{is_bit};
ghost use Rattle.net.specs.HubRows.{has_at};
ghost use Rattle.counters.specs.AllRows.{digit_entered, earliest_digit, positions_before_group};
ghost use Rattle.counters.specs.Counters.{group_of_unit};
ghost use Rattle.counters.specs.Laws.{IsDigit};
ghost use Rattle.counters.specs.Shown.{shows_at};

use crate::group::PLACES;
use std::simd::prelude::*;

// By unit, from 3 to 34.
#[rattlefmt::skip]
const BEFORE: [u8; 32] = [
    0, 3, 6, 9, 12, 15, 18, 21,
    24, 28, 32, 36, 40, 44, 48, 52,
    56, 62, 68, 74, 80, 86, 92, 98,
    104, 112, 120, 128, 136, 144, 152, 160,
];

// How many positions the groups before a unit have. Their exits follow one another in the order of the units, and so do their entries.
#[inline(always)]
pub(crate) fn positions_before(unit: u8) -> u8
    requires from { 3 ≤ unit }
    requires to { unit ≤ 34 }
    ensures { result ≡ positions_before_group (group_of_unit unit) }
{
    BEFORE[unit as usize - 3]
}

// The sets of the rows at which positions emit, both from the units on: each emits at the row of its digit.
pub(crate) fn rows_shown(digits: &[u8]) -> [u16; PLACES]
    requires positions { length digits.now ≤ 8 }
    requires digits { All IsDigit digits.now }
    ensures { (row : CardRow) (k : ℕ) → has_at result k (passing_place row) ≡ shows_at (row_number row) digits.now k }
{
    let mut sets = [0; PLACES];
    for k in 0..digits.len() {
        sets[k] = row_of(digits[k]);
    }
    sets
}

// The set of the row of a digit alone.
fn row_of(digit: u8) -> u16
    requires { digit ≤ 9 }
    ensures { (row : CardRow) → is_bit result (passing_place row) ≡ (digit == row_number row) }
{
    1 << (9 - digit)
}

// What is entered at all places after all rows: the digit of the earliest of the rows 9 to 1 in the place's set, where none was entered
// before.
pub(crate) fn entered_after(entered: [u8; PLACES], sets: &[u16]) -> [u8; PLACES]
    requires sets { 8 ≤ length sets.now }
    requires digits { All IsDigit entered }
    ensures entered { (k : ℕ)
        → k < 8
        → slice_index_or result k 0 ≡ digit_entered (slice_index_or sets.now k 0) (slice_index_or entered k 0) }
    ensures digits { All IsDigit result }
{
    let before = u8x8::from_array(entered);
    before
        .simd_eq(u8x8::splat(0))
        .select(earliest_digits(sets), before)
        .to_array()
}

// The digits of the earliest of the rows 9 to 1 in the first eight sets, and 0 where a set has none of them: then row 0, which counts as 0,
// is the first.
fn earliest_digits(sets: &[u16]) -> u8x8
    requires { 8 ≤ length sets.now }
    ensures { result ≡ map earliest_digit (take 8 sets.now) }
{
    let places = (u16x8::from_slice(sets) | u16x8::splat(0x200)).trailing_zeros();
    u8x8::splat(9) - places.cast::<u8>()
}
