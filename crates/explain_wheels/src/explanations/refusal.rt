//! Why a wheel is not explained.

use std::alloc::AllocError;
use thiserror::Error;

/// Why a wheel is not explained.
#[derive(Clone, Copy, Debug, PartialEq, Eq, Error)]
pub enum Refusal {
    /// No line stands at this page and this line of it.
    #[error("no such line")]
    NoSuchLine,
    /// The wheel is not one of 1 to 120.
    #[error("no such wheel")]
    NoSuchWheel,
    /// No memory is left.
    #[error("out of memory")]
    Memory,
}

impl From<AllocError> for Refusal {
    ghost use Rattle.std.specs.Prelude.{◌≡◌};
    ghost use Rattle.explain_wheels.specs.declared.explanations.refusal.Refusal.TheVariants.{Memory};

    ghost from_gives = { λ _ refusal. refusal ≡ Memory };

    fn from(_refused: AllocError) -> Refusal {
        Refusal::Memory
    }
}

impl Refusal {
    ghost use Rattle.std.specs.Prelude.{◌≡◌};
    ghost use Rattle.explain_wheels.specs.ExplanationsWords.Refusals.{refusal_number};

    /// Its number, 92 or 93. Memory has none.
    pub fn number(self) -> Option<u8>
        ensures { result ≡ refusal_number self }
    {
        match self {
            Refusal::NoSuchLine => Some(92),
            Refusal::NoSuchWheel => Some(93),
            Refusal::Memory => None,
        }
    }
}
