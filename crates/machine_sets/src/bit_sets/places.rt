//! Sets of places.

ghost use Rattle.std.specs.Prelude.{◌≡◌, ℕ, ◌+◌, ◌*◌, ◌<◌, ◌&&◌, ◌==◌, nat_lt, length, slice_index_or};
ghost use Rattle.machine_sets.specs.BitSets.Bits.{is_bit, is_in_run, has_place, GainsPlaces};

use crate::bit_sets::bits::{bit_where, has_bit, run_of_word, word_of_run};

/// How many words a set has.
pub const WORDS: usize = 31;

/// How many places a set has.
pub const PLACES: usize = 1984;

/// Whether the set has a place; none from 1984 on.
pub fn has(words: &[u64; WORDS], place: usize) -> bool
    ensures { result ≡ has_place words.now place }
{
    has_in(words, place)
}

/// The same of a place that the set has room for.
#[inline(always)]
pub fn has_within(words: &[u64; WORDS], place: usize) -> bool
    requires { place < PLACES }
    ensures { result ≡ has_place words.now place }
{
    let word = words[place / 64];
    has_bit(word, place % 64)
}

// Whether these words have a place; none after their last.
pub(crate) fn has_in(words: &[u64], place: usize) -> bool
    ensures { result ≡ has_place words.now place }
{
    place / 64 < words.len() && has_bit(words[place / 64], place % 64)
}

/// Adds a place where the test is true.
pub fn put_where(words: &mut [u64; WORDS], place: usize, test: bool)
    requires { place < PLACES }
    ensures { GainsPlaces (λ other. test && (other == place)) words.old words.new }
{
    words[place / 64] |= bit_where(place % 64, test);
}

// Adds a place.
pub(crate) fn put(words: &mut [u64], place: usize)
    requires { place < 64 * length words.old }
    ensures { GainsPlaces (λ other. other == place) words.old words.new }
{
    words[place / 64] |= bit_where(place % 64, true);
}

/// Adds a row of up to 128 places that follow one another: bit k stands for the place that is k after the first one. Bits
/// after the last place change nothing.
#[inline(always)]
pub fn put_run(words: &mut [u64; WORDS], first: usize, bits: u128)
    requires { first < PLACES }
    ensures { GainsPlaces (λ place. nat_lt place PLACES && is_in_run first bits place) words.old words.new }
{
    let from = first / 64;
    for number in from..WORDS.min(from + 3) {
        words[number] |= word_of_run(bits, first, 64 * number);
    }
}

/// Which of the 128 places that follow one another from the first one are in the set: bit k stands for the place that is k
/// after the first one.
#[inline(always)]
pub fn run(words: &[u64; WORDS], first: usize) -> u128
    requires { first < PLACES }
    ensures { (k : ℕ) → is_bit result k ≡ (nat_lt k 128 && has_place words.now (first + k)) }
{
    let from = first / 64;
    part_of_run(words, from, first)
        | part_of_run(words, from + 1, first)
        | part_of_run(words, from + 2, first)
}

// The same of one word alone; none where the set has no such word.
#[inline(always)]
fn part_of_run(words: &[u64; WORDS], number: usize, first: usize) -> u128
    ensures { (k : ℕ) → k < 128 → is_bit result k ≡ is_in_run (64 * number) (slice_index_or words.now number 0) (first + k) }
{
    if number < WORDS {
        run_of_word(words[number], 64 * number, first)
    } else {
        0
    }
}
