//! Why the pages of a deck were not written to their end.

ghost use Rattle.std.specs.Prelude.{◌≡◌};
ghost use Rattle.cli_commands.specs.declared.commands.replays.fault.ReplayCause.TheVariants as cause;

use std::alloc::AllocError;
use thiserror::Error;

/// What stopped a replay.
#[derive(Clone, Copy, Debug, PartialEq, Eq)]
pub enum ReplayCause {
    /// A growth was refused.
    Memory,
    /// The sink failed.
    Write,
}

/// The pages of a deck were not written to their end.
#[derive(Clone, Copy, Debug, PartialEq, Eq, Error)]
#[error("the pages could not be written after {written} bytes")]
pub struct ReplayFault {
    /// What stopped them.
    pub cause: ReplayCause,
    /// How many bytes of them were written.
    pub written: u64,
}

impl From<AllocError> for ReplayCause {
    ghost from_gives = { λ _ stopped. stopped ≡ cause.Memory };

    fn from(_refused: AllocError) -> ReplayCause {
        ReplayCause::Memory
    }
}
