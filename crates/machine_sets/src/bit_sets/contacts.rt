//! Runs of contacts.

ghost use Rattle.std.specs.Prelude.{◌≡◌, ℕ, ◌≤◌, nat_lt, All};
ghost use Rattle.machine_sets.specs.BitSets.Bits.{is_bit};
ghost use Rattle.machine_sets.specs.BitSets.Contacts.{AreCommons, AreOnlyCommons, IsRunInRange};

use crate::bit_sets::places::{WORDS, put_run};

/// A run of contacts: for each k below `count` a contact leads from the place `common + k` to the place `exits + k`. A
/// contact is named by the place that it leads to. Wires side by side are a run too.
#[derive(Clone, Copy)]
pub struct Run {
    /// The place that the first contact leads from.
    pub common: usize,
    /// The place that the first contact leads to.
    pub exits: usize,
    /// How many contacts there are, up to 128.
    pub count: usize,
}

/// The places of a set, those below 1984, that a contact of the runs leads from.
pub fn commons_of(runs: &[Run]) -> [u64; WORDS]
    requires { All IsRunInRange runs.now }
    ensures all { AreCommons runs.now result }
    ensures only { AreOnlyCommons runs.now result }
{
    let mut commons = [0; WORDS];
    for run in runs {
        put_run(&mut commons, run.common, first_bits(run.count));
    }
    commons
}

// A row with so many bits from the first on, and no other.
#[inline(always)]
pub(crate) fn first_bits(count: usize) -> u128
    requires { count ≤ 128 }
    ensures { (k : ℕ) → is_bit result k ≡ nat_lt k count }
{
    if count < 128 {
        (1 << count) - 1
    } else {
        u128::MAX
    }
}
