//! The search for what is reached.

ghost use Rattle.std.specs.Prelude.{◌≡◌, ◌≤◌, ℕ, ◌↔◌, ◌||◌, true, false, length, All, List, []};
ghost use Rattle.machine_sets.specs.BitSets.Bits.{has_place};
ghost use Rattle.machine_sets.specs.BitSets.Contacts.{AreCommons, ArePlacesApart, IsRunInRange, ShareAPlace};
ghost use Rattle.machine_sets.specs.BitSets.Reached.{IsReached};
ghost use Rattle.machine_sets.specs.declared.bit_sets.contacts.Run.{Run};

use crate::bit_sets::contacts::Run;
use crate::bit_sets::passing::pass_on;
use crate::bit_sets::places::WORDS;
use crate::bit_sets::rows::{EXITS, Rows};

/// Adds to a set all places that rows and closed contacts lead to from its places, and from those, as long as there are new
/// ones. Among `commons` are all places that a contact leads from: where neither the set nor a row of it has any, no contact is looked at.
#[inline(always)]
pub fn reach(
    rows: &Rows,
    runs: &[Run],
    commons: &[u64; WORDS],
    closed: &[u64; WORDS],
    words: &mut [u64; WORDS],
)
    requires runs { All IsRunInRange runs.now }
    requires commons { AreCommons runs.now commons.now }
    ensures reached { (place : ℕ)
        → (has_place words.new place ≡ true) ↔ IsReached rows.now runs.now words.old closed.now place }
    ensures short { length rows.now ≤ EXITS }
{
    rows.join_own(words);
    let mut has_new = meet(commons, words);
    while has_new {
        has_new = pass_on(rows, runs, closed, words);
    }
}

/// Makes `out` a set and all places that rows lead to from its places, whatever it had before. That is all that is reached where no
/// contact is closed.
#[inline(always)]
pub fn reach_by_rows(rows: &Rows, emits: &[u64; WORDS], out: &mut [u64; WORDS])
    ensures reached { (runs : List Run) (place : ℕ)
        → (has_place out.new place ≡ true) ↔ IsReached rows.now runs emits.now [] place }
    ensures short { length rows.now ≤ EXITS }
{
    *out = *emits;
    rows.join_own(out);
}

/// Whether two sets have a place in common.
#[inline(always)]
pub fn meet(one: &[u64; WORDS], other: &[u64; WORDS]) -> bool
    ensures apart { result ≡ false → ArePlacesApart one.now other.now }
    ensures common { result ≡ true → ShareAPlace one.now other.now }
{
    let mut both = 0;
    for number in 0..WORDS {
        both |= one[number] & other[number];
    }
    both != 0
}
