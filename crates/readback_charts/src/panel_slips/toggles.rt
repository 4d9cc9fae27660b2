//! A panel with one thing changed.

ghost use Rattle.std.specs.Prelude.{◌≡◌, ◌++◌, All, IfOk, OnOk, Some, map};
ghost use Rattle.hubs.specs.Hubs.{number_of};
ghost use Rattle.hubs.specs.SetupsWords.Wiring.{SameWires};
ghost use Rattle.readback_charts.specs.PanelSlips.Slips.{BeginsWith, GainsOnly, HasOnly, IsChanged, IsWire};
ghost use Rattle.readback_charts.specs.declared.panel_slips.toggles.Toggle.TheVariants as changes;

use crate::panel_slips::candidates::candidates_of;
use hubs::setups::{Setup, SetupFault};
use hubs::{Hub, JACKS, Jack};
use std::alloc::{AllocError, Global};

/// A wire, by the hub numbers of its exit and its entry.
#[derive(Clone, Copy, PartialEq, Eq)]
pub struct Wire {
    /// The number of the exit.
    pub exit: u32,
    /// The number of the entry.
    pub entry: u32,
}

/// What is changed of a panel.
#[derive(Clone, Copy)]
pub enum Toggle {
    /// A wire is taken out.
    Out {
        /// The wire.
        wire: Wire,
    },
    /// A wire is put in.
    In {
        /// The wire.
        wire: Wire,
    },
    /// A wire is taken out, and another put in.
    Moved {
        /// The wire that is taken out.
        from: Wire,
        /// The wire that is put in.
        to: Wire,
    },
    /// A jack is plugged, or pulled.
    Jack {
        /// Its place among the jacks of the panel.
        place: usize,
    },
}

impl Wire {
    ghost use Rattle.std.specs.Prelude.{IfSome};
    ghost use Rattle.readback_charts.specs.PanelSlips.Slips.{IsBetween};

    /// Its exit and its entry, where the panel has both.
    pub(crate) fn hubs(self) -> Option<(Hub, Hub)>
        ensures { IfSome result (λ hubs. IsBetween hubs.0 hubs.1 self) }
    {
        let exit = Hub::of_number(self.exit)?;
        let entry = Hub::of_number(self.entry)?;
        Some((exit, entry))
    }
}

// Adds a wire, where the panel has its hubs and can have it.
fn add_wire(setup: &mut Setup, wire: Wire) -> Result<(), AllocError>
    ensures { OnOk result (GainsOnly wire setup.old setup.new) }
{
    let Some((exit, entry)) = wire.hubs() else {
        return Ok(());
    };
    match setup.add(exit, entry) {
        Err(SetupFault::Memory) => Err(AllocError),
        _ => Ok(()),
    }
}

// Adds the wires that lead from an exit, by its number.
fn push_wires(wires: &mut Vec<Wire>, setup: &Setup, hub: Hub, exit: u32) -> Result<(), AllocError>
    requires numbered { number_of hub ≡ Some exit }
    requires wires { All (IsWire setup.now) wires.old.items }
    ensures { OnOk result (All (IsWire setup.now) wires.new.items) }
{
    for number in setup.entries_of(hub) {
        let entry = u32::from(*number);
        wires.push(Wire { exit, entry })?;
    }
    Ok(())
}

/// The wires of a panel, by the numbers of their exits. Its only refusal is memory.
pub fn wires_of(alloc: Global, setup: &Setup) -> Result<Vec<Wire>, AllocError>
    ensures { IfOk result (λ wires. All (IsWire setup.now) wires.items) }
{
    let mut wires = Vec::new(alloc);
    for exit in 1..1041 {
        if let Some(hub) = Hub::of_number(exit) {
            push_wires(&mut wires, setup, hub, exit)?;
        }
    }
    Ok(wires)
}

// Plugs the jacks of a panel, but for one that is plugged where it isn't there, and left out where it is.
fn plug_jacks(copy: &mut Setup, setup: &Setup, toggled: Option<usize>)
    ensures wires { SameWires copy.old copy.new }
    ensures tape { copy.new.tape ≡ copy.old.tape }
{
    for place in 0..JACKS {
        if let Some(jack) = Jack::at(place) {
            if setup.has_jack(jack) != (toggled == Some(place)) {
                copy.plug(jack);
            }
        }
    }
}

// Adds wires of a panel, but for one that is left out.
fn add_wires(
    copy: &mut Setup,
    setup: &Setup,
    wires: &[Wire],
    left_out: Option<Wire>,
) -> Result<(), AllocError>
    requires wires { All (IsWire setup.now) wires.now }
    requires sound { HasOnly setup.now copy.old }
    ensures sound { OnOk result (HasOnly setup.now copy.new) }
    ensures tape { OnOk result (copy.new.tape ≡ copy.old.tape) }
{
    for wire in wires {
        if left_out != Some(*wire) {
            add_wire(copy, *wire)?;
        }
    }
    Ok(())
}

/// A panel with one thing changed, by its wires: it has no other wires, but for one that is put in, and the same tape. Its only refusal is
/// memory.
pub fn toggled(
    alloc: Global,
    setup: &Setup,
    wires: &[Wire],
    toggle: Toggle,
) -> Result<Setup, AllocError>
    requires { All (IsWire setup.now) wires.now }
    ensures { IfOk result (IsChanged toggle setup.now) }
{
    let mut copy = Setup::new(alloc, *setup.tape());
    match toggle {
        Toggle::Out { wire } => {
            plug_jacks(&mut copy, setup, None);
            add_wires(&mut copy, setup, wires, Some(wire))?;
        }
        Toggle::In { wire } => {
            plug_jacks(&mut copy, setup, None);
            add_wires(&mut copy, setup, wires, None)?;
            add_wire(&mut copy, wire)?;
        }
        Toggle::Moved { from, to } => {
            plug_jacks(&mut copy, setup, None);
            add_wires(&mut copy, setup, wires, Some(from))?;
            add_wire(&mut copy, to)?;
        }
        Toggle::Jack { place } => {
            plug_jacks(&mut copy, setup, Some(place));
            add_wires(&mut copy, setup, wires, None)?;
        }
    }
    Ok(copy)
}

// Whether a wheel has a jack.
fn has_jack_on(setup: &Setup, wheel: u8) -> bool {
    setup.has_jack(Jack::Link(wheel))
        || setup.has_jack(Jack::Suppress(wheel))
        || setup.has_jack(Jack::Symbol(wheel))
}

// Whether a wheel, or one beside it, has a jack.
fn has_jack_near(setup: &Setup, wheel: u8) -> bool {
    has_jack_on(setup, wheel)
        || has_jack_on(setup, wheel.saturating_sub(1))
        || has_jack_on(setup, wheel.saturating_add(1))
}

// Whether it is worth a try to plug or pull the jack at a place: of those of wheels only where jacks are near.
fn is_worth(setup: &Setup, place: usize) -> bool {
    match Jack::at(place) {
        Some(Jack::Link(wheel) | Jack::Suppress(wheel) | Jack::Symbol(wheel)) => {
            has_jack_near(setup, wheel)
        }
        Some(_) => true,
        None => false,
    }
}

// Adds each wire out.
fn push_out(toggles: &mut Vec<Toggle>, wires: &[Wire]) -> Result<(), AllocError>
    ensures { OnOk result (toggles.new.items ≡ toggles.old.items ++ map changes.Out wires.now) }
{
    for wire in wires {
        toggles.push(Toggle::Out { wire: *wire })?;
    }
    Ok(())
}

// Adds each jack that is worth a try.
fn push_jacks(toggles: &mut Vec<Toggle>, setup: &Setup) -> Result<(), AllocError>
    ensures { OnOk result (BeginsWith toggles.old.items toggles.new.items) }
{
    for place in 0..JACKS {
        if is_worth(setup, place) {
            toggles.push(Toggle::Jack { place })?;
        }
    }
    Ok(())
}

// Adds each wire in.
fn push_in(toggles: &mut Vec<Toggle>, wires: &[Wire]) -> Result<(), AllocError>
    ensures { OnOk result (BeginsWith toggles.old.items toggles.new.items) }
{
    for wire in wires {
        toggles.push(Toggle::In { wire: *wire })?;
    }
    Ok(())
}

/// All changes that are worth a try: first each wire out, then each jack near others plugged or pulled, and each wire in that the panel may
/// lack. Its only refusal is memory.
pub fn toggles_of(alloc: Global, setup: &Setup, wires: &[Wire]) -> Result<Vec<Toggle>, AllocError>
    ensures { IfOk result (λ toggles. BeginsWith (map changes.Out wires.now) toggles.items) }
{
    let mut toggles = Vec::new(alloc);
    push_out(&mut toggles, wires)?;
    push_jacks(&mut toggles, setup)?;
    let candidates = candidates_of(alloc, setup, wires)?;
    push_in(&mut toggles, candidates.as_slice())?;
    Ok(toggles)
}
