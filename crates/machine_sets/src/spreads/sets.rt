//! Sets of rows, one for each place.

ghost use Rattle.std.specs.Prelude.{◌≡◌, ℕ, ◌-◌, ◌/◌, ◌<◌, ◌==◌, ◌&&◌, ◌||◌, nat_le, not, length};
ghost use Rattle.machine_sets.specs.SpreadsWords.Blocks.{AreTouched};
ghost use Rattle.machine_sets.specs.SpreadsWords.Links.{has_at};

use crate::spreads::blocks::{LAST_BLOCK, blocks_from};
use std::marker::Model;

/// How many places the panel has, and so how many sets there are. A set of bits has room for some more places.
pub const PANEL_PLACES: usize = 1936;

/// For each place the set of the rows that it has: bit r of a set tells of the row at place r among the points. Contracts see the list of
/// the sets.
#[derive(Debug, Drop)]
pub struct PlaceSets {
    pub(crate) sets: [u16; PANEL_PLACES],
    // The blocks of places that may have rows. In all others no place has any, so that these needn't be looked at.
    pub(crate) touched: u64,
}

impl Model for PlaceSets {
    ghost use Rattle.std.specs.Prelude.{ℕ, List};
    ghost use Rattle.machine_sets.specs.SpreadsWords.Blocks.{AreTouched};

    ghost Value = { List ℕ };

    ghost view = { λ sets. sets.sets };

    ghost invariant = { λ sets. AreTouched sets.touched sets.sets };
}

impl PlaceSets {
    ghost use Rattle.std.specs.Prelude.{◌≡◌, ℕ, ◌-◌, ◌+◌, ◌<◌, ◌==◌, ◌&&◌, ◌||◌, false, true, drop, length, nat_le};
    ghost use Rattle.machine_sets.specs.SpreadsWords.Links.{has_at};

    /// Empty sets.
    #[inline(always)]
    pub fn new() -> Self
        ensures { (place row : ℕ) → has_at result place row ≡ false }
    {
        PlaceSets {
            sets: [0; PANEL_PLACES],
            touched: 0,
        }
    }

    /// Adds sets to those of places that follow one another from the first one on. Sets after the last place change nothing.
    #[inline(always)]
    pub fn insert_sets(&mut self, first: usize, sets: &[u16])
        requires { first < PANEL_PLACES }
        ensures { (place row : ℕ) → place < PANEL_PLACES → has_at self.new place row
            ≡ (has_at self.old place row || (nat_le first place && has_at sets.now (place - first) row)) }
    {
        join(&mut self.sets, first, sets);
        self.touched |= blocks_from(first, sets.len());
    }

    /// The sets of the places from the first one on.
    #[inline(always)]
    pub fn from(&self, first: usize) -> &[u16]
        requires { first < PANEL_PLACES }
        ensures sets { result.now ≡ drop first self.now }
        ensures long { length result.now + first ≡ PANEL_PLACES }
    {
        &self.sets[first..]
    }

    /// Takes all rows away. Only the blocks that may have rows are cleared.
    pub fn clear(&mut self)
        ensures { (place row : ℕ) → has_at self.new place row ≡ false }
    {
        clear_blocks(&mut self.sets, self.touched);
        self.touched = 0;
    }

    /// Whether it is told that no place has a row.
    pub fn are_empty(&self) -> bool
        ensures { result ≡ true → (place row : ℕ) → has_at self.now place row ≡ false }
    {
        self.touched == 0
    }
}

// Joins sets to those from a place on.
fn join(all: &mut [u16; PANEL_PLACES], first: usize, sets: &[u16])
    requires { first < PANEL_PLACES }
    ensures joined { (place row : ℕ) → place < PANEL_PLACES → has_at all.new place row
        ≡ (has_at all.old place row || (nat_le first place && has_at sets.now (place - first) row)) }
    ensures long { length all.new ≡ PANEL_PLACES }
{
    let count = sets.len().min(PANEL_PLACES - first);
    for k in 0..count {
        all[first + k] |= sets[k];
    }
}

// Clears these blocks, where no place of the others has a row.
fn clear_blocks(sets: &mut [u16; PANEL_PLACES], blocks: u64)
    requires { AreTouched blocks sets.old }
    ensures { AreTouched 0 sets.new }
{
    let mut left = blocks;
    while left != 0 {
        let block = left.trailing_zeros() as usize;
        left &= !(1 << block);
        clear_block(sets, block);
    }
}

// Clears the sets of a block. The last block has sixteen places alone.
fn clear_block(sets: &mut [u16; PANEL_PLACES], block: usize)
    ensures rows { (place row : ℕ) → has_at sets.new place row ≡ (has_at sets.old place row && not (place / 32 == block)) }
    ensures long { length sets.new ≡ PANEL_PLACES }
{
    if block <= LAST_BLOCK {
        clear_sixteen(sets, 2 * block);
    }
    if block < LAST_BLOCK {
        clear_sixteen(sets, 2 * block + 1);
    }
}

// Clears sixteen sets that follow one another.
fn clear_sixteen(sets: &mut [u16; PANEL_PLACES], sixteen: usize)
    requires { sixteen < 121 }
    ensures rows { (place row : ℕ) → has_at sets.new place row ≡ (has_at sets.old place row && not (place / 16 == sixteen)) }
    ensures long { length sets.new ≡ PANEL_PLACES }
{
    for k in 0..16 {
        sets[16 * sixteen + k] = 0;
    }
}
