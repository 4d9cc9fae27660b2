//! Wires of carries that are added to a setup, and stops that are punched.

use hubs::setups::{Setup, SetupFault, Tape};
use hubs::{Group, Hub};
use std::test::Fail;

// A group of 8 positions.
const fn eight(number: u8) -> Group {
    Group { width: 8, number }
}

// What is answered where wires are added one after another: from which group's carry exit, to which group's carry entry.
#[rattlefmt::skip]
static CARRIES: [(u8, u8, Result<bool, SetupFault>); 4] = [
    (1, 2, Ok(true)), (1, 2, Ok(false)), (2, 3, Err(SetupFault::CarryRing)), (2, 1, Ok(true)),
];

#[test]
fn wires_and_stops_are_set_once(rt: HostRuntime) -> Result<(), Fail> {
    let mut setup = Setup::new(rt.alloc(), Tape::new(12, 1, 9, &[])?);
    for (from, to, answer) in CARRIES {
        assert!(rt; setup.add(Hub::CO(eight(from)), Hub::CI(eight(to))) == answer);
    }
    assert!(rt; setup.punch(2, 12) == Ok(true) && setup.punch(2, 12) == Ok(false));
    Ok(())
}
