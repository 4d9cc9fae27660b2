//! Why pages could not be written.

ghost use Rattle.std.specs.Prelude.{◌≡◌};

use thiserror::Error;

/// The sink of pages failed: a write or a flush failed, or a write took nothing.
#[derive(Clone, Copy, Debug, PartialEq, Eq, Error)]
#[error("the pages could not be written after {written} bytes")]
pub struct WriteFault {
    /// How many bytes the writer has written in all.
    pub written: u64,
}

impl WriteFault {
    /// Its number in the catalogue of faults.
    pub fn number(self) -> u8
        ensures { result ≡ 91 }
    {
        91
    }
}
