//! Ways at the points of a cycle of a run.

ghost use Rattle.std.specs.Prelude.{◌<◌, ℕ, List, IfOk};
ghost use Rattle.explain_ledgers.specs.CycleWays.Points.{ArePointsOf, TellsOf};

use explain_wheels::ways::Ways;
use hubs::Hub;
use hubs::setups::Setup;
use machine::KeptPoint;
use std::alloc::{AllocError, Global};

/// One way by which an impulse reached a hub at a point of a cycle of a run, hub by hub from an exit that emitted: by wires of the setup,
/// which is that of the run, and by contacts that were closed. `None` if the hub wasn't impulsed. The point is told by its place: the control
/// point has place 0, the rows 9 to 0, 11 and 12 follow, and the closing point has place 13. Fails only if no memory is left.
pub fn way_to(
    alloc: Global,
    setup: &Setup,
    points: &[KeptPoint; 14],
    place: usize,
    hub: Hub,
) -> Result<Option<Vec<Hub>>, AllocError>
    requires { place < 14 }
    ensures { (deck : List (List ℕ)) (passed : ℕ) (is : ArePointsOf setup.now deck passed points.now) → IfOk result (TellsOf is.has place hub) }
{
    let point = &points[place];
    let ways = Ways::of(setup, &point.exits, &point.contacts);
    ways.way_to(alloc, setup, &point.contacts, hub)
}
