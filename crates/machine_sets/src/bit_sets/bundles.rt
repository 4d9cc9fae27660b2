//! Wires side by side, kept together as runs: many of them are followed by a few shifts of words.

ghost use Rattle.std.specs.Prelude.{◌≡◌, ℕ, ◌&&◌, nat_lt, All};
ghost use Rattle.machine_sets.specs.BitSets.Bits.{GainsPlaces};
ghost use Rattle.machine_sets.specs.BitSets.Bundles.{follows, follows_run};
ghost use Rattle.machine_sets.specs.BitSets.Contacts.{is_any_contact, is_contact, IsRunInRange};

use crate::bit_sets::contacts::{Run, first_bits};
use crate::bit_sets::places::{WORDS, put_run, run};

// How many wires side by side are worth a run.
pub(crate) const LEAST: usize = 4;

// How many runs are kept at most.
pub(crate) const MOST: usize = 32;

// Adds the places to which wires of the runs lead from those of `new`.
pub(crate) fn follow_runs(runs: &[Run], new: &[u64; WORDS], words: &mut [u64; WORDS])
    requires { All IsRunInRange runs.now }
    ensures { GainsPlaces (λ place. nat_lt place 1984 && follows new.now runs.now place) words.old words.new }
{
    for run in runs {
        follow_run(*run, new, words);
    }
}

// Adds the places to which wires of a run lead from those of `new`.
fn follow_run(wires: Run, new: &[u64; WORDS], words: &mut [u64; WORDS])
    requires { IsRunInRange wires }
    ensures { GainsPlaces (λ place. nat_lt place 1984 && follows_run new.now wires place) words.old words.new }
{
    let bits = run(new, wires.common) & first_bits(wires.count);
    if bits != 0 {
        put_run(words, wires.exits, bits);
    }
}

// Whether a wire of the runs leads from one place to another.
pub(crate) fn is_in_runs(runs: &[Run], from: usize, to: usize) -> bool
    ensures { result ≡ is_any_contact runs.now from to }
{
    for run in runs {
        if is_in_run(*run, from, to) {
            return true;
        }
    }
    false
}

// Whether a wire of the run leads from one place to another.
fn is_in_run(wires: Run, from: usize, to: usize) -> bool
    ensures { result ≡ is_contact wires from to }
{
    wires.exits <= to
        && to - wires.exits < wires.count
        && wires.common <= from
        && from - wires.common == to - wires.exits
}
