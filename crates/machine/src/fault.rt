//! Why a feed fails.

use thiserror::Error;

/// Why a feed fails.
#[derive(Clone, Copy, Debug, PartialEq, Eq, Error)]
pub enum FeedFault {
    /// A feed before was not run to its end, as memory was refused in it or it was one up to a line that it found; what it left to do is
    /// lost.
    #[error("an earlier feed was not run to its end")]
    Spoiled,
    /// A card after the 999,999th.
    #[error("more than 999,999 cards")]
    TooManyCards,
    /// The end was fed before.
    #[error("the end of the deck was fed before")]
    Ended,
    /// No memory is left for the lines.
    #[error("out of memory")]
    Memory,
}

impl FeedFault {
    ghost use Rattle.std.specs.Prelude.{◌≡◌};
    ghost use Rattle.machine.specs.Running.{fault_number};

    /// Its number, 81 to 83. Memory has none.
    pub fn number(self) -> Option<u8>
        ensures { result ≡ fault_number self }
    {
        match self {
            FeedFault::Spoiled => Some(81),
            FeedFault::TooManyCards => Some(82),
            FeedFault::Ended => Some(83),
            FeedFault::Memory => None,
        }
    }
}
