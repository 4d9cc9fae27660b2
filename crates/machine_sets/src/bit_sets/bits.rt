//! Bits of words, and rows of 128 bits against words of 64.

ghost use Rattle.std.specs.Prelude.{◌≡◌, ℕ, ◌+◌, ◌<◌, ◌&&◌, ◌==◌};
ghost use Rattle.machine_sets.specs.BitSets.Bits.{is_bit, is_in_run};

// Whether a bit of a word is set.
#[tactic(auto, using(crate::proofs::BitSets::BitLemmas::test_bit))]
pub(crate) fn has_bit(word: u64, bit: usize) -> bool
    requires { bit < 64 }
    ensures { result ≡ is_bit word bit }
{
    word >> bit & 1 == 1
}

// The word with one bit, where the test is true, or none.
pub(crate) fn bit_where(bit: usize, test: bool) -> u64
    requires { bit < 64 }
    ensures { (other : ℕ) → is_bit result other ≡ (test && (other == bit)) }
{
    u64::from(test) << bit
}

// The low word of a row.
#[inline(always)]
pub(crate) fn low_word(bits: u128) -> u64
    ensures { (j : ℕ) → j < 64 → is_bit result j ≡ is_bit bits j }
{
    (bits & 0xffff_ffff_ffff_ffff) as u64
}

// The part of a row of places that stands in a word: the row begins at the place `from`, the word at the place `to`.
#[inline(always)]
pub(crate) fn word_of_run(bits: u128, from: usize, to: usize) -> u64
    ensures { (j : ℕ) → j < 64 → is_bit result j ≡ is_in_run from bits (to + j) }
{
    if from <= to {
        let down = to - from;
        if down < 128 {
            low_word(bits >> down)
        } else {
            0
        }
    } else {
        let up = from - to;
        if up < 64 { low_word(bits << up) } else { 0 }
    }
}

// The part of a word that stands in a row of 128 places: the word begins at the place `from`, the row at the place `to`.
#[inline(always)]
pub(crate) fn run_of_word(word: u64, from: usize, to: usize) -> u128
    ensures { (j : ℕ) → j < 128 → is_bit result j ≡ is_in_run from word (to + j) }
{
    let bits = u128::from(word);
    if from <= to {
        let down = to - from;
        if down < 64 { bits >> down } else { 0 }
    } else {
        let up = from - to;
        if up < 128 { bits << up } else { 0 }
    }
}
