//! Sets of rows, one for each of sixteen columns: bit r of a set tells of the row at place r among the points.

ghost use Rattle.std.specs.Prelude.{◌≡◌, ℕ, ◌<◌, ◌==◌, if◌then◌else◌};
ghost use Rattle.net.specs.HubSets.{is_bit};
ghost use Rattle.net.specs.HubRows.{has_at};

use std::simd::prelude::*;

/// How many columns a storage unit has.
pub(crate) const COLUMNS: usize = 16;

// Which columns have the row at a place: bit k stands for the column at place k.
pub(crate) fn having_row(sets: &[u16; COLUMNS], place: usize) -> u64
    requires { place < 12 }
    ensures { (k : ℕ) → is_bit result k ≡ has_at sets.now k place }
{
    let rows = u16x16::from_slice(sets) & u16x16::splat(1 << place);
    rows.simd_ne(u16x16::splat(0)).to_bitmask()
}

// Gives the row at a place to the columns of a word, and takes it from the others.
pub(crate) fn put_row(sets: &mut [u16; COLUMNS], place: usize, columns: u16)
    requires { place < 12 }
    ensures { (k other : ℕ) → k < 16 → other < 12
        → has_at sets.new k other ≡ (if other == place then is_bit columns k else has_at sets.old k other) }
{
    for k in 0..COLUMNS {
        sets[k] = put_in_set(sets[k], place, has_bit(columns, k));
    }
}

// A set with a row, or without it.
fn put_in_set(set: u16, place: usize, has: bool) -> u16
    requires { place < 12 }
    ensures { (other : ℕ) → other < 12 → is_bit result other ≡ (if other == place then has else is_bit set other) }
{
    if has {
        set | 1 << place
    } else {
        set & !(1 << place)
    }
}

// The first sixteen bits of a row of hubs.
pub(crate) fn low_word(row: u128) -> u16
    ensures { (k : ℕ) → k < 16 → is_bit result k ≡ is_bit row k }
{
    (row & 0xffff) as u16
}

// Whether a bit of a word is set.
pub(crate) fn has_bit(word: u16, bit: usize) -> bool
    requires { bit < 16 }
    ensures { result ≡ is_bit word bit }
{
    word >> bit & 1 == 1
}
