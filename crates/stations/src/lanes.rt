//! Sets of rows, sixty-four at a time.

ghost use Rattle.std.specs.Prelude.{◌≡◌, ℕ, ◌+◌, ◌<◌, ◌≤◌, ◌&&◌, nat_lt, length};
ghost use Rattle.net.specs.HubSets.{is_bit};
ghost use Rattle.net.specs.HubRows.{has_at};

use std::simd::prelude::*;

// Of sixty-four sets from one on, those that have the row at a place: bit k stands for the set k places on.
pub(crate) fn having_row(sets: &[u16], from: usize, place: usize) -> u64
    requires within { from + 64 ≤ length sets.now }
    requires place { place < 12 }
    ensures { (k : ℕ) → is_bit result k ≡ (nat_lt k 64 && has_at sets.now (from + k) place) }
{
    let rows = u16x64::from_slice(&sets[from..]) & u16x64::splat(1 << place);
    rows.simd_ne(u16x64::splat(0)).to_bitmask()
}
