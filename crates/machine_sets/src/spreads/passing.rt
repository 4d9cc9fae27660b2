//! Contacts one by one, and the rows that they pass on while they are closed.

ghost use Rattle.std.specs.Prelude.{◌≡◌, ℕ, ◌<◌, ◌&&◌, All, false};
ghost use Rattle.machine_sets.specs.BitSets.Bits.{is_bit};
ghost use Rattle.machine_sets.specs.SpreadsWords.Links.{IsPassing, is_led_to};
ghost use Rattle.machine_sets.specs.SpreadsWords.Passing.{IsPassed, Passes, SameSets, is_closed_at};

use crate::bit_sets::{PLACES, WORDS, has_within};
use crate::spreads::links::Link;
use crate::spreads::sets::PANEL_PLACES;

// Whether a link leads to a place.
pub(crate) fn is_led_to(links: &[Link], place: usize) -> bool
    ensures { result ≡ is_led_to links.now place }
{
    for link in links {
        if link.to as usize == place {
            return true;
        }
    }
    false
}

// The contacts pass on the rows of their near ends at which they are closed: `digits` has the exits of those closed at the rows 9 to 0,
// `zones` of those closed at 11 and 12. Answers whether a far end gained any. No contact leads from where another one leads to.
pub(crate) fn pass_all(
    contacts: &[Link],
    digits: &[u64; WORDS],
    zones: &[u64; WORDS],
    sets: &mut [u16; PANEL_PLACES],
) -> bool
    requires { All IsPassing contacts.now }
    ensures passed { Passes digits.now zones.now contacts.now sets.old sets.new }
    ensures same { result ≡ false → SameSets sets.old sets.new }
{
    let mut gained = false;
    for contact in contacts {
        let now = pass(*contact, digits, zones, sets);
        gained |= now;
    }
    gained
}

// A contact passes on the rows of its near end at which it is closed. Answers whether the far end gained any.
fn pass(
    contact: Link,
    digits: &[u64; WORDS],
    zones: &[u64; WORDS],
    sets: &mut [u16; PANEL_PLACES],
) -> bool
    requires { IsPassing contact }
    ensures passed { IsPassed digits.now zones.now contact sets.old sets.new }
    ensures same { result ≡ false → SameSets sets.old sets.new }
{
    let near = sets[contact.from as usize];
    if near == 0 {
        return false;
    }
    let passed = near & closed_rows(digits, zones, contact.to as usize);
    if passed == 0 {
        return false;
    }
    let far = sets[contact.to as usize];
    let joined = far | passed;
    sets[contact.to as usize] = joined;
    joined != far
}

// The rows at which the contact to a place is closed: 9 to 0 are the first ten, 11 and 12 the next two.
fn closed_rows(digits: &[u64; WORDS], zones: &[u64; WORDS], place: usize) -> u16
    requires { place < PLACES }
    ensures { (row : ℕ) → is_bit result row ≡ is_closed_at digits.now zones.now row place }
{
    rows_where(has_within(digits, place), 0x3ff) | rows_where(has_within(zones, place), 0xc00)
}

// The rows where the test is true, else none.
fn rows_where(test: bool, rows: u16) -> u16
    ensures { (row : ℕ) → is_bit result row ≡ (test && is_bit rows row) }
{
    if test { rows } else { 0 }
}
