//! Words of wheels: bit k of a word stands for wheel k + 1.

ghost use Rattle.std.specs.Prelude.{◌≡◌, ℕ, ◌<◌, ◌&&◌, ◌||◌, ◌==◌};
ghost use Rattle.net.specs.HubSets.{is_bit};
ghost use Rattle.print_unit.specs.WheelWords.{ArePlugged};

use hubs::Jack;
use hubs::setups::Setup;

/// How many print wheels there are.
pub const WHEELS: usize = 120;

/// A kind of jack that each wheel has.
#[derive(Clone, Copy, Debug, PartialEq, Eq)]
pub enum WheelJack {
    /// LINK: the wheel takes significance from the wheel on its left.
    Link,
    /// SUPPRESS: a zero without significance prints blank.
    Suppress,
    /// SYMBOL: whatever stands there without significance prints blank.
    Symbol,
}

impl WheelJack {
    ghost use Rattle.std.specs.Prelude.{◌≡◌};
    ghost use Rattle.print_unit.specs.WheelWords.{jack_of};

    // The jack of a wheel.
    fn of(self, wheel: u8) -> Jack
        ensures { result ≡ jack_of self wheel }
    {
        match self {
            WheelJack::Link => Jack::Link(wheel),
            WheelJack::Suppress => Jack::Suppress(wheel),
            WheelJack::Symbol => Jack::Symbol(wheel),
        }
    }
}

/// The wheels whose jack of a kind is plugged.
pub fn plugged(setup: &Setup, kind: WheelJack) -> u128
    ensures { ArePlugged setup.now kind result }
{
    let mut word = 0;
    for k in 0..WHEELS {
        word = with_bit(word, k, setup.has_jack(kind.of(k as u8 + 1)));
    }
    word
}

// The word with a bit set too, where the test is true.
fn with_bit(word: u128, bit: usize, test: bool) -> u128
    requires { bit < 128 }
    ensures { (k : ℕ) → is_bit result k ≡ (is_bit word k || (test && k == bit)) }
{
    if test { word | 1 << bit } else { word }
}
