//! Setups of the control panel, and its carriage tapes.
//!
//! A setup is a set of wires, each from an exit to an entry, a set of plugged jacks and a carriage tape. The hubs and the
//! jacks are those of `hubs`, and are offered here too. What the machine does with a setup is told above, by `net` and the units.

mod fault;
mod laws;
mod setup;
mod tape;
mod wires;

pub use crate::{Group, Hub, Jack};
pub use fault::SetupFault;
pub use laws::is_wired_tells_the_wires;
pub use setup::Setup;
pub use tape::Tape;
