//! Words joined with the words of a row, several at a time.

ghost use Rattle.std.specs.Prelude.{◌≡◌, ℕ, ◌+◌, ◌≤◌, ◌||◌};
ghost use Rattle.machine_sets.specs.BitSets.Bits.{has_place};
ghost use Rattle.machine_sets.specs.BitSets.Joins.{IsJoined};
ghost use Rattle.machine_sets.specs.BitSets.Rows.{is_in_entries};

use crate::bit_sets::places::WORDS;
use std::simd::prelude::*;

// How many words a row has. They stand for the last words of a set, from the word 16 on.
pub(crate) const ROW_WORDS: usize = 15;

// Joins a set with a row: it gains the row's places.
pub(crate) fn join(words: &mut [u64; WORDS], row: &[u64; ROW_WORDS])
    ensures { (place : ℕ) → has_place words.new place ≡ (has_place words.old place || is_in_entries row.now place) }
{
    for block in 0..3 {
        join_four(words, row, 4 * block);
    }
    for number in 12..ROW_WORDS {
        words[16 + number] |= row[number];
    }
}

// Joins four words of a row at once.
fn join_four(words: &mut [u64; WORDS], row: &[u64; ROW_WORDS], at: usize)
    requires { at + 4 ≤ ROW_WORDS }
    ensures { IsJoined at (at + 4) words.old row.now words.new }
{
    let old = u64x4::from_array([
        words[16 + at],
        words[17 + at],
        words[18 + at],
        words[19 + at],
    ]);
    let joined = old | u64x4::from_array([row[at], row[at + 1], row[at + 2], row[at + 3]]);
    let [first, second, third, fourth] = joined.to_array();
    words[16 + at] = first;
    words[17 + at] = second;
    words[18 + at] = third;
    words[19 + at] = fourth;
}
