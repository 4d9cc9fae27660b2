//! The rows of a cycle, and the ways to a wheel at each.

ghost use Rattle.std.specs.Prelude.{IfOk};
ghost use Rattle.hubs.specs.declared.hub.Hub.TheVariants.{W};
ghost use Rattle.explain_wheels.specs.ExplanationsWords.Explanations.{TellsRows};
ghost use Rattle.explain_wheels.specs.ExplanationsWords.Rows.{AreRowWays};

use crate::ways::Ways;
use hubs::Hub;
use hubs::setups::Setup;
use machine::KeptCycle;
use std::alloc::{AllocError, Global};

/// How many rows a cycle has.
const ROWS: usize = 12;

// The ways to all hubs at each row of a kept cycle, in the order of its points. The cycle is one of a machine with this setup.
pub(crate) fn row_ways(
    alloc: Global,
    setup: &Setup,
    kept: &KeptCycle,
) -> Result<Vec<Ways>, AllocError>
    ensures { IfOk result (λ ways. AreRowWays setup.now kept.now.points 12 ways.items) }
{
    let mut ways = Vec::new(alloc);
    for row in 0..ROWS {
        let point = &kept.points[row + 1];
        ways.push(Ways::of(setup, &point.exits, &point.contacts))?;
    }
    Ok(ways)
}

// For each row of a kept cycle, by its ways, one from an exit that emitted to the wheel, hub by hub; none at the rows at which the
// wheel was not impulsed.
pub(crate) fn ways_to_wheel(
    alloc: Global,
    setup: &Setup,
    kept: &KeptCycle,
    ways: &[Ways],
    wheel: u8,
) -> Result<Vec<Option<Vec<Hub>>>, AllocError>
    requires { AreRowWays setup.now kept.now.points 12 ways.now }
    ensures { IfOk result (λ rows. TellsRows setup.now kept.now.points 12 (W wheel) rows.items) }
{
    let mut rows = Vec::new(alloc);
    for row in 0..ROWS {
        let contacts = &kept.points[row + 1].contacts;
        rows.push(ways[row].way_to(alloc, setup, contacts, Hub::W(wheel))?)?;
    }
    Ok(rows)
}
