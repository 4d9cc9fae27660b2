//! The wheels of a counter group in a cycle, all of them at once: their carries at the closing point, and how they turn at its end.
//!
//! The wheels are the bytes of a word, the units lowest. Where each byte has 246 more than its wheel, a wheel that passes from 9 to 0 is
//! a byte that passes 255, and one that stands at 9 is a byte at 255: so the sum of two words carries from byte to byte as the wheels do.

ghost use Rattle.std.specs.Prelude.{◌≡◌, ◌*◌, ◌==◌, ◌≤◌, All, false, if◌then◌else◌, map, take};
ghost use Rattle.std.specs.Int.{to_le_bytes, w64};
ghost use Rattle.std.specs.Simd.Lanes.{number_l};
ghost use Rattle.counters.specs.Counters.{advance_of, base_of, wheels_of};
ghost use Rattle.counters.specs.Laws.{IsDigit};
ghost use Rattle.counters.specs.Packed.{carries_up, raised_up, turned_up, wheel_sum};
ghost use Rattle.counters.specs.Wheels.{all_nines};

use crate::controls::Controls;
use crate::group::PLACES;
use std::simd::prelude::*;

// 9 in each byte.
const NINES: u64 = 0x0909_0909_0909_0909;

// In each byte how many more numbers it has than a wheel.
const SPARE: u64 = 0xF6F6_F6F6_F6F6_F6F6;

// The digits after the wheels have turned, where a carry comes in at the units or not. A byte that passed 255 is its digit; another one
// is 246 more. The lesser of a byte and what it is without 246, counted round, is the digit of both.
pub(crate) fn turned(
    digits: [u8; PLACES],
    entered: [u8; PLACES],
    controls: Controls,
    carry: bool,
) -> [u8; PLACES]
    requires digits { All IsDigit digits }
    requires entered { All IsDigit entered }
    ensures turned { result ≡ turned_up (wheels_of controls digits entered) carry }
    ensures digits { All IsDigit result }
{
    let bytes = u8x8::from_array(raised(digits, entered, controls, carry).to_le_bytes());
    bytes.simd_min(bytes - u8x8::splat(246)).to_array()
}

// The carry that leaves the top of so many wheels by themselves: whether the byte of the top one passed 255.
pub(crate) fn carries_out(
    digits: [u8; PLACES],
    entered: [u8; PLACES],
    controls: Controls,
    width: usize,
) -> bool
    requires from { 1 ≤ width }
    requires to { width ≤ 8 }
    requires digits { All IsDigit digits }
    requires entered { All IsDigit entered }
    ensures { result ≡ carries_up (take width (wheels_of controls digits entered)) false }
{
    raised(digits, entered, controls, false).to_le_bytes()[width - 1] < 128
}

// Whether so many wheels stand at 9 before any carry.
pub(crate) fn all_nines(
    digits: [u8; PLACES],
    entered: [u8; PLACES],
    controls: Controls,
    width: usize,
) -> bool
    requires from { 1 ≤ width }
    requires to { width ≤ 8 }
    requires digits { All IsDigit digits }
    requires entered { All IsDigit entered }
    ensures { result ≡ all_nines (take width (wheels_of controls digits entered)) }
{
    let others = 64 - 8 * width;
    advanced(digits, entered, controls) << others == NINES << others
}

// The latch at the end of a cycle: under balance test, whether the top wheel stands at 9.
pub(crate) fn latch_after(top: u8, controls: Controls, latch: bool) -> bool
    ensures { result ≡ (if controls.test then top == 9 else latch) }
{
    if controls.test { top == 9 } else { latch }
}

// The wheels in the end, where a carry comes in at the units or not, with 246 more in each byte. What leaves the highest is lost.
fn raised(digits: [u8; PLACES], entered: [u8; PLACES], controls: Controls, carry: bool) -> u64
    requires digits { All IsDigit digits }
    requires entered { All IsDigit entered }
    ensures { to_le_bytes w64 result ≡ raised_up (wheels_of controls digits entered) carry }
{
    (advanced(digits, entered, controls) + u64::from(carry)).wrapping_add(SPARE)
}

// What the wheels start from and advance by, before any carry.
fn advanced(digits: [u8; PLACES], entered: [u8; PLACES], controls: Controls) -> u64
    requires digits { All IsDigit digits }
    requires entered { All IsDigit entered }
    ensures sum { result ≡ number_l 256 (map wheel_sum (wheels_of controls digits entered)) }
    ensures small { result ≤ 2 * 0x0909_0909_0909_0909 }
{
    bases(digits, controls) + advances(entered, controls)
}

// The digits from which the wheels start.
fn bases(digits: [u8; PLACES], controls: Controls) -> u64
    requires { All IsDigit digits }
    ensures bases { result ≡ number_l 256 (map (base_of controls) digits) }
    ensures small { result ≤ 0x0909_0909_0909_0909 }
{
    if controls.read_out {
        0
    } else {
        u64::from_le_bytes(digits)
    }
}

// By how many steps the wheels advance.
fn advances(entered: [u8; PLACES], controls: Controls) -> u64
    requires { All IsDigit entered }
    ensures advances { result ≡ number_l 256 (map (advance_of controls) entered) }
    ensures small { result ≤ 0x0909_0909_0909_0909 }
{
    let entered = u64::from_le_bytes(entered);
    if controls.minus {
        NINES - entered
    } else if controls.plus {
        entered
    } else {
        0
    }
}
