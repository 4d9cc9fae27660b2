//! Wires that carry an impulse.

ghost use Rattle.std.specs.Prelude.{◌≡◌, IfOk};
ghost use Rattle.net.specs.Nets.{IsNetOf};
ghost use Rattle.hubs.specs.SetupsWords.Wiring.{Wiring};
ghost use Rattle.std.specs.List.{filter};
ghost use Rattle.net.specs.HubSets.{has_hub};
ghost use Rattle.show_page.specs.CycleSteps.Live.{AreLive, leaves_any};

use machine::KeptPoint;
use net::{Net, Picture};
use show_drawings::drawings::panel_drawing::PanelWire;
use std::alloc::{AllocError, Global};

// Of some wires those that leave a hub of a picture.
fn wires_in(
    alloc: Global,
    picture: &Picture,
    wires: &[PanelWire],
) -> Result<Vec<PanelWire>, AllocError>
    ensures { IfOk result (λ live. live.items ≡ filter (leaves_any (has_hub picture.now)) wires.now) }
{
    let mut live = Vec::new(alloc);
    for wire in wires {
        if picture.has(wire.exit) {
            live.push(*wire)?;
        }
    }
    Ok(live)
}

// Of some wires those that carry an impulse at a point that was kept of a cycle, by the net of the setup.
pub(crate) fn live_wires(
    alloc: Global,
    net: &Net,
    point: &KeptPoint,
    wires: &[PanelWire],
) -> Result<Vec<PanelWire>, AllocError>
    ensures { (wiring : Wiring) → IsNetOf wiring net.now → IfOk result (λ live. AreLive wiring point.now wires.now live.items) }
{
    let mut picture = Picture::new();
    net.picture(&point.exits, &point.contacts, &mut picture);
    wires_in(alloc, &picture, wires)
}
