//! What a counter group emits and senses at its positions.

ghost use Rattle.std.specs.Prelude.{◌≡◌, ℕ, Bool, ◌≤◌, ◌<◌, ◌+◌, ◌==◌, ◌&&◌, true, All, length, reverse, slice_index_or};
ghost use Rattle.hubs.specs.HubTable.Places.{is_width};
ghost use Rattle.hubs.specs.HubTable.Ranges.{is_within};
ghost use Rattle.hubs.specs.declared.hub.Hub.{Hub};
ghost use Rattle.hubs.specs.declared.hub.Hub.TheVariants.{PL};
ghost use Rattle.net.specs.HubSets.{GainsHubs, has_hub, is_bit};
ghost use Rattle.net.specs.Orders.{IsRowOf};
ghost use Rattle.counters.specs.Counters.{controls_of, group_of_unit, shows, taken, takes};
ghost use Rattle.counters.specs.Laws.{IsDigit};
ghost use Rattle.counters.specs.Shown.{shows_at};

use crate::controls::Controls;
use hubs::Hub;
use net::Picture;

// Adds the exits of the positions whose digit is the given one, by the digits from the units on.
pub(crate) fn show(digits: &[u8], name: hubs::Group, given: u8, exits: &mut Picture)
    requires width { is_width name.width ≡ true }
    requires named { is_within name.number 8 ≡ true }
    requires positions { length digits.now ≡ name.width }
    ensures { GainsHubs (shows name given (reverse digits.now)) exits.old exits.new }
{
    exits.insert_row(Hub::GX(name, 1), positions_of(digits, given));
}

// The positions whose digit is the given one, as the bits of a word, both from the units on.
fn positions_of(digits: &[u8], given: u8) -> u128
    requires { length digits.now ≤ 8 }
    ensures { (bit : ℕ) → is_bit result bit ≡ shows_at given digits.now bit }
{
    let mut bits = 0;
    for k in 0..digits.len() {
        bits |= bit_where(k, digits[k] == given);
    }
    bits
}

// The first of the groups. The control hubs of the 32 groups are a row that begins with its plus: 32 each of plus,
// minus, read-out and balance test.
pub(crate) const FIRST: hubs::Group = hubs::Group {
    width: 3,
    number: 1,
};

// The controls of the group of a unit that are impulsed.
pub(crate) fn controls_of(unit: u8, name: hubs::Group, picture: &Picture) -> Controls
    requires from { 3 ≤ unit }
    requires to { unit ≤ 34 }
    requires name { name ≡ group_of_unit unit }
    ensures { result ≡ controls_of name (has_hub picture.now) }
{
    controls_in(unit, picture.row(Hub::PL(FIRST)))
}

// The controls of the group of a unit, by the row of the control hubs of all groups.
pub(crate) fn controls_in(unit: u8, row: u128) -> Controls
    requires from { 3 ≤ unit }
    requires to { unit ≤ 34 }
    ensures { (picture : Hub → Bool) → IsRowOf (PL (record { width = 3; number = 1 })) picture row
        → result ≡ controls_of (group_of_unit unit) picture }
{
    let place = unit as usize - 3;
    let entering = from_bit(low_half(row), place);
    let others = from_bit(low_half(row >> 64), place);
    Controls {
        plus: has_bit(entering, 0),
        minus: has_bit(entering, 32),
        read_out: has_bit(others, 0),
        test: has_bit(others, 32),
    }
}

// The low half of a row.
pub(crate) fn low_half(row: u128) -> u64
    ensures { (k : ℕ) → k < 64 → is_bit result k ≡ is_bit row k }
{
    (row & 0xFFFF_FFFF_FFFF_FFFF) as u64
}

// The bits of a word from one on.
fn from_bit(word: u64, bit: usize) -> u64
    requires { bit < 64 }
    ensures { (k : ℕ) → is_bit result k ≡ is_bit word (bit + k) }
{
    word >> bit
}

// Whether digits are entered at a row.
pub(crate) fn takes(controls: Controls, row: u8) -> bool
    ensures { result ≡ takes controls row }
{
    (controls.plus || controls.minus) && (1 <= row && row <= 9)
}

// Enters a row at the positions that are impulsed, given by the bits of a word, and where none was entered before, all from the units on.
pub(crate) fn take_row(entered: &mut [u8], row: u8, impulsed: u64)
    requires places { length entered.old ≤ 8 }
    requires row { row ≤ 9 }
    requires digits { All IsDigit entered.old }
    ensures entered { (k : ℕ)
        → k < length entered.old
        → slice_index_or entered.new k 0 ≡ taken row (is_bit impulsed k) (slice_index_or entered.old k 0) }
    ensures positions { length entered.new ≡ length entered.old }
    ensures digits { All IsDigit entered.new }
{
    for k in 0..entered.len() {
        entered[k] = taken(row, has_bit(impulsed, k), entered[k]);
    }
}

// What is entered at a position after a row.
fn taken(row: u8, impulsed: bool, entered: u8) -> u8
    ensures { result ≡ taken row impulsed entered }
{
    if entered == 0 && impulsed {
        row
    } else {
        entered
    }
}

// Whether a bit of a word is set.
fn has_bit(word: u64, bit: usize) -> bool
    requires { bit < 64 }
    ensures { result ≡ is_bit word bit }
{
    word >> bit & 1 == 1
}

// The word with one bit, where the test is true, or none.
fn bit_where(bit: usize, test: bool) -> u128
    requires { bit < 128 }
    ensures { (other : ℕ) → is_bit result other ≡ (test && (other == bit)) }
{
    u128::from(test) << bit
}
