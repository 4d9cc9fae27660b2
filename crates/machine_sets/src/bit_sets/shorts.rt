//! Rows of few words, kept as these words beside the rows.

ghost use Rattle.std.specs.Prelude.{◌≡◌, ℕ, ◌<◌, ◌≢◌, true, slice_index_or};
ghost use Rattle.machine_sets.specs.BitSets.Shorts.{IsShort};

use crate::bit_sets::joins::ROW_WORDS;

// The words of a row that has two at most with any place: most rows have. A set is joined with these two, instead of with all of the row.
#[derive(Clone, Copy)]
pub(crate) struct Short {
    // Which word of a set the first one is joined with, from 16 to 30.
    pub(crate) first: usize,
    pub(crate) first_bits: u64,
    // The same of the last one. It may be the first one again.
    pub(crate) last: usize,
    pub(crate) last_bits: u64,
    // Whether no other word of the row has a place.
    pub(crate) is_whole: bool,
}

// The first and the last word of a row that have a place.
pub(crate) fn short_of(row: &[u64; ROW_WORDS]) -> Short
    ensures { IsShort row.now result }
{
    let first = first_word(row);
    let last = last_word(row);
    Short {
        first: 16 + first,
        first_bits: row[first],
        last: 16 + last,
        last_bits: row[last],
        is_whole: has_no_other(row, first, last),
    }
}

// The first word of a row that has a place; the first of all where none has.
fn first_word(row: &[u64; ROW_WORDS]) -> usize
    ensures { result < 15 }
{
    for number in 0..ROW_WORDS {
        if row[number] != 0 {
            return number;
        }
    }
    0
}

// The last word of a row that has a place; the first of all where none has.
fn last_word(row: &[u64; ROW_WORDS]) -> usize
    ensures { result < 15 }
{
    let mut last = 0;
    for number in 0..ROW_WORDS {
        if row[number] != 0 {
            last = number;
        }
    }
    last
}

// Whether no word of a row has a place but for these two.
fn has_no_other(row: &[u64; ROW_WORDS], first: usize, last: usize) -> bool
    ensures { result ≡ true → (number : ℕ) → number < 15 → number ≢ first → number ≢ last → slice_index_or row.now number 0 ≡ 0 }
{
    for number in 0..ROW_WORDS {
        if number != first && number != last && row[number] != 0 {
            return false;
        }
    }
    true
}
