//! The digits of a counter group, as callers read them.

ghost use Rattle.std.specs.Prelude.{◌≡◌, ◌+◌, ◌*◌, ◌^◌, ◌≤◌, All, length, reverse, take};
ghost use Rattle.counters.specs.Laws.{IsDigit};
ghost use Rattle.counters.specs.Numbers.{number};

use std::marker::Model;

/// The digits of a counter group by position, from position 1, the units, to the top.
#[derive(Drop, Debug)]
pub struct Digits {
    places: [u8; 8],
    count: usize,
}

impl Model for Digits {
    ghost use Rattle.std.specs.Prelude.{List, ℕ, ◌≤◌, take};

    ghost Value = { List ℕ };

    ghost view = { λ digits. take digits.count digits.places };

    ghost invariant = { λ digits. digits.count ≤ 8 };
}

impl Digits {
    ghost use Rattle.std.specs.Prelude.{◌≡◌};

    /// The digits as a slice, the units first.
    pub fn as_slice(&self) -> &[u8]
        ensures { result.now ≡ self.now }
    {
        &self.places[..self.count]
    }
}

// The first so many digits, given from the units on.
pub(crate) fn from_units(places: [u8; 8], count: usize) -> Digits
    requires { count ≤ 8 }
    ensures { result ≡ take count places }
{
    Digits { places, count }
}

// The number that digits spell, given from the units on.
pub(crate) fn number_of(digits: &[u8]) -> u64
    requires positions { length digits.now ≤ 8 }
    requires digits { All IsDigit digits.now }
    ensures { result ≡ number (reverse digits.now) }
{
    let mut number = 0;
    for k in (0..digits.len()).rev() {
        number = 10 * number + u64::from(digits[k]);
    }
    number
}
