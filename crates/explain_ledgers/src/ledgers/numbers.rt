//! The number that digits spell.

ghost use Rattle.std.specs.Prelude.{◌≡◌, ◌≤◌, All, length, reverse};
ghost use Rattle.counters.specs.Laws.{IsDigit};
ghost use Rattle.counters.specs.Numbers.{number};

// The number that digits spell, given from the units on.
pub(crate) fn number_of(digits: &[u8]) -> u64
    requires positions { length digits.now ≤ 8 }
    requires digits { All IsDigit digits.now }
    ensures { result ≡ number (reverse digits.now) }
{
    let mut number = 0;
    for k in (0..digits.len()).rev() {
        number = 10 * number + u64::from(digits[k]);
    }
    number
}
