//! Blocks of 32 places that follow one another, as the bits of a word: bit b stands for the places from 32 b on.

ghost use Rattle.std.specs.Prelude.{◌≡◌, ℕ, ◌+◌, ◌/◌, ◌<◌, ◌≤◌, ◌==◌, true};
ghost use Rattle.machine_sets.specs.BitSets.Bits.{is_bit};

use crate::spreads::sets::PANEL_PLACES;

// How many places a block has.
const PLACES_IN_BLOCK: usize = 32;

// The number of the last block.
pub(crate) const LAST_BLOCK: usize = 60;

// All blocks.
pub(crate) const ALL_BLOCKS: u64 = u64::MAX;

// The block of a place.
#[inline(always)]
pub(crate) fn block_of(place: usize) -> u64
    requires { place < PANEL_PLACES }
    ensures { (block : ℕ) → is_bit result block ≡ (block == place / 32) }
{
    1 << (place / PLACES_IN_BLOCK)
}

// The blocks of so many places from the first one on, up to the last place of all.
#[inline(always)]
pub(crate) fn blocks_from(first: usize, count: usize) -> u64
    requires { first < PANEL_PLACES }
    ensures { (place : ℕ) → first ≤ place → place < first + count → place < PANEL_PLACES → is_bit result (place / 32) ≡ true }
{
    let last = first + count.max(1).min(PANEL_PLACES - first) - 1;
    let block = first / PLACES_IN_BLOCK;
    first_blocks(last / PLACES_IN_BLOCK - block + 1) << block
}

// So many blocks from block 0 on.
#[inline(always)]
fn first_blocks(count: usize) -> u64
    requires { count < 64 }
    ensures { (block : ℕ) → block < count → is_bit result block ≡ true }
{
    (1 << count) - 1
}
