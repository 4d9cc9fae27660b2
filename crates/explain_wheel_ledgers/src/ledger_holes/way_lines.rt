//! The line of a way by which an impulse came.

ghost use Rattle.std.specs.Prelude.{◌≡◌, ◌<◌, ◌++◌, ℕ, List, IfOk, OnOk};
ghost use Rattle.explain_ledgers.specs.CycleWays.Points.{ArePointsOf};
ghost use Rattle.explain_words.specs.ExplanationText.Text.{way_text};
ghost use Rattle.explain_wheel_ledgers.specs.LedgerHoles.Ways.{IsWayLine, way_line};

use explain_ledgers::cycle_ways::way_to;
use explain_words::explanation_text::write_way;
use hubs::Hub;
use hubs::setups::Setup;
use machine::KeptPoint;
use std::alloc::{AllocError, Global};

// Puts a way behind a text.
fn add_way(alloc: Global, text: &mut Vec<u8>, way: &[Hub]) -> Result<(), AllocError>
    ensures { OnOk result (text.new.items ≡ text.old.items ++ way_text way.now) }
{
    let mut words = String::new(alloc);
    write_way(&mut words, way)?;
    Ok(text.extend_from_slice(words.as_bytes())?)
}

// A way behind a front; nothing if there is none.
fn way_line(alloc: Global, front: &[u8], found: &Option<Vec<Hub>>) -> Result<Vec<u8>, AllocError>
    ensures { IfOk result (λ line. line.items ≡ way_line front.now found.now) }
{
    let mut line = Vec::new(alloc);
    if let Some(way) = found {
        line.extend_from_slice(front)?;
        add_way(alloc, &mut line, way.as_slice())?;
        line.push(b'\n')?;
    }
    Ok(line)
}

// The line of the way to a hub at a point of a cycle, behind a front; nothing if the hub wasn't impulsed there.
pub(crate) fn way_told(
    alloc: Global,
    setup: &Setup,
    points: &[KeptPoint; 14],
    place: usize,
    hub: Hub,
    front: &[u8],
) -> Result<Vec<u8>, AllocError>
    requires { place < 14 }
    ensures { (deck : List (List ℕ)) (passed : ℕ) (is : ArePointsOf setup.now deck passed points.now)
        → IfOk result (λ line. IsWayLine is.has place hub front.now line.items) }
{
    let found = way_to(alloc, setup, points, place, hub)?;
    let line = way_line(alloc, front, &found)?;
    Ok(line)
}
