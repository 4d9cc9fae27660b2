//! What stands at the front of some bytes.

ghost use Rattle.std.specs.Prelude.{◌≡◌, ◌≢◌, ◌+◌, ◌<◌, ◌≤◌, ◌==◌, ◌↔◌, ◌⊎◌, ℕ, if◌then◌else◌, length, slice_index, take, IfNone, IfSome, IsTrue};
ghost use Rattle.std.specs.Int.{trailing_zeros, w64};
ghost use Rattle.report_streams.specs.CardLines.Front.{IsFront};

use std::simd::prelude::*;

// How many bytes are looked at at a time.
const LANES: usize = 16;

// What stands at the front of some bytes.
#[derive(Clone, Copy)]
pub(crate) enum Front {
    // A whole line with its LF.
    Line,
    // A line that is too long, whatever comes.
    TooLong,
    // A part of a line, or nothing.
    Part,
}

// The place of the first LF. Sixteen bytes are looked at at a time, as long as there are so many.
pub(crate) fn first_line_feed(front: &[u8]) -> Option<usize>
    ensures within { IfSome result (λ end. end < length front.now) }
    ensures found { IfSome result (λ end. slice_index front.now end ≡ 10) }
    ensures before { IfSome result (λ end. (place : ℕ) → place < end → slice_index front.now place ≢ 10) }
    ensures none { IfNone result ((place : ℕ) → place < length front.now → slice_index front.now place ≢ 10) }
{
    let mut passed = 0;
    while front.len() - passed >= LANES {
        let run = run_before(front, passed);
        if run < LANES {
            return Some(passed + run);
        }
        passed += LANES;
    }
    while passed < front.len() {
        if front[passed] == b'\n' {
            return Some(passed);
        }
        passed += 1;
    }
    None
}

// How many of sixteen bytes from one on come before the first LF.
fn run_before(front: &[u8], from: usize) -> usize
    requires { from + LANES ≤ length front.now }
    ensures few { result ≤ LANES }
    ensures before { (place : ℕ) → from ≤ place → place < from + result → slice_index front.now place ≢ 10 }
    ensures found { result < LANES → slice_index front.now (from + result) ≡ 10 }
{
    let line_feeds = u8x16::from_slice(&front[from..]).simd_eq(u8x16::splat(b'\n'));
    lowest_of(line_feeds.to_bitmask())
}

// The lowest bit of a mask of sixteen lanes, and 16 where it has none.
fn lowest_of(mask: u64) -> usize
    ensures { result ≡ (if mask == 0 then LANES else trailing_zeros w64 mask) }
{
    if mask == 0 {
        LANES
    } else {
        mask.trailing_zeros() as usize
    }
}
