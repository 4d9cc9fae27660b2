//! Bits of a word.

ghost use Rattle.std.specs.Prelude.{◌≡◌, ℕ, ◌<◌, ◌||◌, ◌==◌};
ghost use Rattle.net.specs.HubSets.{is_bit};

/// Whether a bit, 0 to 63, of a word is set.
pub fn has_bit(word: u64, bit: usize) -> bool
    requires { bit < 64 }
    ensures { result ≡ is_bit word bit }
{
    word >> bit & 1 == 1
}

/// The word with a bit, 0 to 63, set too.
pub fn with_bit(word: u64, bit: usize) -> u64
    requires { bit < 64 }
    ensures { (other : ℕ) → is_bit result other ≡ (is_bit word other || (other == bit)) }
{
    word | 1 << bit
}
