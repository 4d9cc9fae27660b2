//! Bits of a word.

ghost use Rattle.std.specs.Prelude.{◌≡◌, ◌<◌};
ghost use Rattle.net.specs.HubSets.{is_bit};

/// Whether a bit, 0 to 127, of a word is set: of a row of hubs, say, or of the words of the wheels.
#[tactic(auto, unfolding(crate::specs::HubSets::is_bit))]
pub fn has_bit(word: u128, bit: usize) -> bool
    requires { bit < 128 }
    ensures { result ≡ is_bit word bit }
{
    word >> bit & 1 == 1
}
