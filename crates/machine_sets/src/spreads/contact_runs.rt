//! Runs of contacts that pass rows on, eight contacts at once.

ghost use Rattle.std.specs.Prelude.{◌≡◌, ℕ, ◌+◌, ◌-◌, ◌<◌, ◌≤◌, ◌&&◌, ◌||◌, All, IfOk, OnOk, false, length, nat_le, nat_lt, slice_index_or};
ghost use Rattle.machine_sets.specs.BitSets.Bits.{has_place, is_bit};
ghost use Rattle.machine_sets.specs.BitSets.Contacts.{is_contact};
ghost use Rattle.machine_sets.specs.SpreadsWords.Links.{AreEights, HasRoom, IsEight};
ghost use Rattle.machine_sets.specs.SpreadsWords.Passing.{AddsEights, IsRunPassed, RunsPass, SameSets, eight_of, is_closed_at};

use crate::bit_sets::{Run, WORDS};
use crate::spreads::lanes::{LANES, are_empty, eight_from, join_eight, rows_in_lanes};
use crate::spreads::links::Link;
use crate::spreads::passing::is_led_to;
use crate::spreads::sets::PANEL_PLACES;
use std::alloc::{AllocError, Global};
use std::simd::prelude::*;

// Eights of contacts of the runs, in which all those lie that are listed.
pub(crate) fn eights_of(
    alloc: Global,
    runs: &[Run],
    contacts: &[Link],
) -> Result<Vec<Run>, AllocError>
    requires { All HasRoom runs.now }
    ensures { IfOk result (λ eights. AreEights runs.now contacts.now eights.items) }
{
    let mut eights = Vec::new(alloc);
    for run in runs {
        add_eights(*run, contacts, &mut eights)?;
    }
    Ok(eights)
}

// Adds eights of contacts of a run, in which all those lie that are listed. Each begins with such a contact, so that they are few.
fn add_eights(run: Run, contacts: &[Link], eights: &mut Vec<Run>) -> Result<(), AllocError>
    requires room { HasRoom run }
    requires each { All IsEight eights.old.items }
    ensures each { OnOk result (All IsEight eights.new.items) }
    ensures added { OnOk result (AddsEights (is_contact run) contacts.now eights.old.items eights.new.items) }
{
    let mut from = 0;
    while from < run.count {
        if is_led_to(contacts, run.exits + from) {
            eights.push(eight_of(run, from))?;
            from += LANES;
        } else {
            from += 1;
        }
    }
    Ok(())
}

// The contacts of a run from one of them on, eight at most.
fn eight_of(run: Run, from: usize) -> Run
    requires from { from < run.count }
    requires room { HasRoom run }
    ensures { result ≡ eight_of run from }
{
    Run {
        common: run.common + from,
        exits: run.exits + from,
        count: (run.count - from).min(LANES),
    }
}

// The contacts of the eights pass on the rows of their near ends at which they are closed: `digits` has the exits of those closed at the
// rows 9 to 0, `zones` of those closed at 11 and 12. Answers whether one passed any on. No contact leads from where another one leads to.
pub(crate) fn pass_eights(
    eights: &[Run],
    digits: &[u64; WORDS],
    zones: &[u64; WORDS],
    sets: &mut [u16; PANEL_PLACES],
) -> bool
    requires { All IsEight eights.now }
    ensures passed { RunsPass digits.now zones.now eights.now sets.old sets.new }
    ensures same { result ≡ false → SameSets sets.old sets.new }
{
    let mut passed = false;
    for eight in eights {
        let now = pass_eight(*eight, digits, zones, sets);
        passed |= now;
    }
    passed
}

// The contacts of an eight pass on the rows of their near ends at which they are closed. Answers whether one passed any on. Mostly the near
// ends have none.
#[inline(always)]
fn pass_eight(
    run: Run,
    digits: &[u64; WORDS],
    zones: &[u64; WORDS],
    sets: &mut [u16; PANEL_PLACES],
) -> bool
    requires { IsEight run }
    ensures passed { IsRunPassed digits.now zones.now run sets.old sets.new }
    ensures same { result ≡ false → SameSets sets.old sets.new }
{
    let near = eight_from(sets, run.common);
    if are_empty(near) {
        return false;
    }
    let passed = near & closed_rows_of_eight(run, digits, zones);
    join_eight(sets, run.exits, passed);
    !are_empty(passed)
}

// The rows at which the contacts of an eight are closed: 9 to 0 are the first ten, 11 and 12 the next two. Behind its last contact there
// are none.
#[inline(always)]
fn closed_rows_of_eight(run: Run, digits: &[u64; WORDS], zones: &[u64; WORDS]) -> u16x8
    requires { IsEight run }
    ensures eight { length result ≡ 8 }
    ensures rows { (k row : ℕ) → k < 8 → is_bit (slice_index_or result k 0) row
        ≡ (nat_lt k run.count && is_closed_at digits.now zones.now row (run.exits + k)) }
{
    rows_in_lanes(closed_exits(run, digits), 0x3ff) | rows_in_lanes(closed_exits(run, zones), 0xc00)
}

// Which exits of the contacts of an eight are in a set, one bit for each.
#[inline(always)]
fn closed_exits(run: Run, closed: &[u64; WORDS]) -> u16
    requires { IsEight run }
    ensures { (k : ℕ) → k < 8 → is_bit result k ≡ (nat_lt k run.count && has_place closed.now (run.exits + k)) }
{
    let word = run.exits / 64;
    let bits = two_words(closed[word], closed[word + 1]) >> (run.exits % 64);
    (bits & first_bits(run.count)) as u16
}

// Two words as one, the first one low.
#[inline(always)]
fn two_words(low: u64, high: u64) -> u128
    ensures { (k : ℕ) → k < 128 → is_bit result k ≡ (is_bit low k || (nat_le 64 k && is_bit high (k - 64))) }
{
    u128::from(low) | u128::from(high) << 64
}

// The first so many bits, eight at most.
#[inline(always)]
fn first_bits(count: usize) -> u128
    requires { count ≤ 8 }
    ensures bits { (k : ℕ) → k < 8 → is_bit result k ≡ nat_lt k count }
    ensures small { result < 256 }
{
    (1 << count) - 1
}
