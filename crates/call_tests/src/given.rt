//! Setups that are given to the calls of several crates.

use hubs::Hub;
use hubs::setups::{Setup, Tape};
use std::alloc::Global;
use std::test::Fail;

/// The setup with a tape and some wires.
pub(crate) fn setup_of(alloc: Global, tape: Tape, wires: &[(Hub, Hub)]) -> Result<Setup, Fail> {
    let mut setup = Setup::new(alloc, tape);
    for &(exit, entry) in wires {
        setup.add(exit, entry)?;
    }
    Ok(setup)
}
