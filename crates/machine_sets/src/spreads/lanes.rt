//! Sets of rows of places that follow one another, eight at a time.

ghost use Rattle.std.specs.Prelude.{◌≡◌, ℕ, ◌+◌, ◌-◌, ◌<◌, ◌≤◌, ◌&&◌, ◌||◌, false, true, drop, length, nat_le, nat_lt, slice_index_or, take};
ghost use Rattle.machine_sets.specs.BitSets.Bits.{is_bit};
ghost use Rattle.machine_sets.specs.SpreadsWords.Links.{has_at};

use crate::spreads::sets::PANEL_PLACES;
use std::simd::prelude::*;

// How many sets are taken at once.
pub(crate) const LANES: usize = 8;

// The bit of each of them.
const BITS: [u16; LANES] = [1, 2, 4, 8, 16, 32, 64, 128];

// Eight sets from a place on, all taken at once.
#[inline(always)]
pub(crate) fn eight_from(sets: &[u16; PANEL_PLACES], first: usize) -> u16x8
    requires { first + 8 ≤ PANEL_PLACES }
    ensures { result ≡ take 8 (drop first sets.now) }
{
    u16x8::from_slice(&sets[first..])
}

// The rows in each of the eight lanes whose bit is set, and none in the others.
#[inline(always)]
pub(crate) fn rows_in_lanes(bits: u16, rows: u16) -> u16x8
    ensures eight { length result ≡ 8 }
    ensures rows { (k row : ℕ) → k < 8 → is_bit (slice_index_or result k 0) row ≡ (is_bit bits k && is_bit rows row) }
{
    let chosen = (u16x8::splat(bits) & u16x8::from_array(BITS)).simd_ne(u16x8::splat(0));
    chosen.select(u16x8::splat(rows), u16x8::splat(0))
}

// Whether no lane has a row.
#[inline(always)]
pub(crate) fn are_empty(rows: u16x8) -> bool
    requires { length rows ≡ 8 }
    ensures { result ≡ true → (k row : ℕ) → k < 8 → is_bit (slice_index_or rows k 0) row ≡ false }
{
    rows.simd_ne(u16x8::splat(0)).to_bitmask() == 0
}

// Eight sets from a place on gain the rows of the lanes.
#[inline(always)]
pub(crate) fn join_eight(sets: &mut [u16; PANEL_PLACES], first: usize, rows: u16x8)
    requires within { first + 8 ≤ PANEL_PLACES }
    requires eight { length rows ≡ 8 }
    ensures joined { (place row : ℕ) → has_at sets.new place row
        ≡ (has_at sets.old place row
        || (nat_le first place && (nat_lt (place - first) 8 && is_bit (slice_index_or rows (place - first) 0) row))) }
    ensures long { length sets.new ≡ PANEL_PLACES }
{
    let joined = eight_from(sets, first) | rows;
    joined.copy_to_slice(&mut sets[first..]);
}
