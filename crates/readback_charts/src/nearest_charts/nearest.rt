//! The search for the nearest chart.

ghost use Rattle.std.specs.Prelude.{◌≡◌, All, IfErr, IfOk, string_bytes};
ghost use Rattle.fault_lines.specs.declared.faults.chart.ChartFault.TheVariants as chart;
ghost use Rattle.readback_charts.specs.KnownCharts.{IsReadFirst};
ghost use Rattle.readback_charts.specs.PanelChart.{IsReadBack};
ghost use Rattle.readback_charts.specs.PanelSlips.Slips.{IsWire};

use crate::panel_slips::{Toggle, Wire, is_moved, moves_near, toggled, toggles_of, wires_of};
use crate::{PanelChart, read_back, read_beside, wired_chart};
use compile407::ChartFault;
use hubs::setups::Setup;
use match_panels::differences::size;
use match_panels::matching::Matching;
use std::alloc::{AllocError, Global};

// A chart from which a panel differs in one slip is near enough.
const NEAR: u32 = 1;

// From this many slips on a panel is taken for one that is wired for something else, and the search is spared, which takes the longer the
// more wires there are. Of 2,100 panels with one slip at random the chart that was read first differed in 331 things at most.
const FAR: u32 = 1024;

// A chart, and how near a panel is to it.
struct Near {
    panel: PanelChart,
    // How many slips there are: what is missing and what is extra, but for the form, which no change touches; a wire that was put into the
    // hub beside is one slip.
    slips: u32,
    // How many of them are such wires.
    moves: u32,
}

// By hand, so that a function that drops one calls this, and doesn't drop its parts one by one.
impl Drop for Near {
    fn drop(self) {
        let Near {
            panel: _panel,
            slips: _slips,
            moves: _moves,
        } = self;
    }
}

impl Near {
    ghost use Rattle.std.specs.Prelude.{◌≡◌};

    // The chart.
    fn into_panel(self) -> PanelChart
        ensures { result ≡ self.panel }
    {
        let Near {
            panel,
            slips: _slips,
            moves: _moves,
        } = self;
        panel
    }
}

// How many of some wires are one of others, put into the hub beside.
fn moved(wires: &[Wire], others: &[Wire]) -> u32 {
    let mut count: u32 = 0;
    for wire in wires {
        if others.iter().any(|other| is_moved(*wire, *other)) {
            count = count.saturating_add(1);
        }
    }
    count
}

// How many wires of a panel were put into the hub beside.
fn moves_of(alloc: Global, matching: &Matching) -> Result<u32, AllocError> {
    match matching {
        Matching::Matched { .. } => Ok(0),
        Matching::Differs { missing, extra, .. } => {
            let lacking = wires_of(alloc, missing)?;
            let surplus = wires_of(alloc, extra)?;
            let from = moved(lacking.as_slice(), surplus.as_slice());
            let to = moved(surplus.as_slice(), lacking.as_slice());
            Ok(from.min(to))
        }
    }
}

// How much a panel differs from its chart: what is missing and what is extra.
fn differences_of(matching: &Matching) -> u32 {
    match matching {
        Matching::Matched { .. } => 0,
        Matching::Differs { missing, extra, .. } => size(missing) + size(extra),
    }
}

// A chart, with how near a panel is to it.
fn weighed(alloc: Global, setup: &Setup, panel: PanelChart) -> Result<Near, AllocError>
    requires { IsReadBack setup.now (string_bytes panel.text) panel.compiled panel.matching }
    ensures { IfOk result (λ near. IsReadBack setup.now (string_bytes near.panel.text) near.panel.compiled near.panel.matching) }
{
    let moves = moves_of(alloc, &panel.matching)?;
    let slips = differences_of(&panel.matching).saturating_sub(moves);
    Ok(Near {
        panel,
        slips,
        moves,
    })
}

// How many lines a chart has.
fn lines_of(near: &Near) -> usize {
    near.panel.compiled.chart().lines().len()
}

// Whether a chart is nearer than another: by fewer slips; by as many, and with fewer lines; or as many of both, and more wires in the hub
// beside, since a wire that somebody put there was meant for something.
fn is_nearer(one: &Near, other: &Near) -> bool {
    if one.slips != other.slips {
        return one.slips < other.slips;
    }
    let lines = lines_of(one);
    let fewest = lines_of(other);
    lines < fewest || (lines == fewest && one.moves > other.moves)
}

// The nearer of a chart and that of a panel with one thing changed, if that is one.
fn nearer(
    alloc: Global,
    setup: &Setup,
    wires: &[Wire],
    best: Near,
    toggle: Toggle,
) -> Result<Near, AllocError>
    requires best { IsReadBack setup.now (string_bytes best.panel.text) best.panel.compiled best.panel.matching }
    requires wires { All (IsWire setup.now) wires.now }
    ensures { IfOk result (λ near. IsReadBack setup.now (string_bytes near.panel.text) near.panel.compiled near.panel.matching) }
{
    let other = toggled(alloc, setup, wires, toggle)?;
    let Some(panel) = read_beside(alloc, &other, setup, best.panel.text.as_str())? else {
        return Ok(best);
    };
    let found = weighed(alloc, setup, panel)?;
    if is_nearer(&found, &best) {
        Ok(found)
    } else {
        Ok(best)
    }
}

// The nearest of a chart and those of all panels with one of these things changed; one that is as near as is enough ends the search.
fn nearest_by(
    alloc: Global,
    setup: &Setup,
    wires: &[Wire],
    first: Near,
    toggles: &[Toggle],
    enough: u32,
) -> Result<Near, AllocError>
    requires first { IsReadBack setup.now (string_bytes first.panel.text) first.panel.compiled first.panel.matching }
    requires wires { All (IsWire setup.now) wires.now }
    ensures { IfOk result (λ near. IsReadBack setup.now (string_bytes near.panel.text) near.panel.compiled near.panel.matching) }
{
    let mut best = first;
    for toggle in toggles {
        if best.slips <= enough {
            return Ok(best);
        }
        best = nearer(alloc, setup, wires, best, *toggle)?;
    }
    Ok(best)
}

// The wires in which a panel differs from a chart.
fn differing(alloc: Global, matching: &Matching) -> Result<Vec<Wire>, AllocError> {
    let Matching::Differs { missing, extra, .. } = matching else {
        return Ok(Vec::new(alloc));
    };
    let mut wires = wires_of(alloc, missing)?;
    let surplus = wires_of(alloc, extra)?;
    for wire in &surplus {
        wires.push(*wire)?;
    }
    Ok(wires)
}

// The nearest of a chart and those of panels with one thing changed: first a wire back into the hub beside, where the panel differs from the
// chart; then, if that isn't near enough, anything else.
fn nearest_of(alloc: Global, setup: &Setup, first: Near) -> Result<Near, AllocError>
    requires { IsReadBack setup.now (string_bytes first.panel.text) first.panel.compiled first.panel.matching }
    ensures { IfOk result (λ near. IsReadBack setup.now (string_bytes near.panel.text) near.panel.compiled near.panel.matching) }
{
    let wires = wires_of(alloc, setup)?;
    let suspects = differing(alloc, &first.panel.matching)?;
    let moves = moves_near(alloc, wires.as_slice(), suspects.as_slice())?;
    let best = nearest_by(alloc, setup, wires.as_slice(), first, moves.as_slice(), 0)?;
    if best.slips <= NEAR {
        return Ok(best);
    }
    let toggles = toggles_of(alloc, setup, wires.as_slice())?;
    nearest_by(
        alloc,
        setup,
        wires.as_slice(),
        best,
        toggles.as_slice(),
        NEAR,
    )
}

// The chart that is nearest to a panel, of those that are tried. A panel that is wired for what is read back needs no search, and one with too
// many slips gets none.
fn nearest_tried(alloc: Global, setup: &Setup) -> Result<PanelChart, ChartFault>
    ensures read { IfOk result (λ panel. IsReadBack setup.now (string_bytes panel.text) panel.compiled panel.matching) }
    ensures refused { IfErr result (λ fault. fault ≡ chart.Memory) }
{
    let panel = read_back(alloc, setup)?;
    let first = weighed(alloc, setup, panel)?;
    if first.slips == 0 || first.slips >= FAR {
        Ok(first.into_panel())
    } else {
        Ok(nearest_of(alloc, setup, first)?.into_panel())
    }
}

/// The chart that is nearest to a panel, of those that are tried: first what is read off the panel at once, as [`wired_chart`] answers it;
/// else the panel is read back without the lines that a chart can't have, and if it isn't wired for what is read then, and there are fewer
/// than 1,024 slips, panels with one thing changed are. A wire that was put into the hub beside counts as one slip; of two charts that are
/// as near the one with fewer lines is taken, and else the one with more such wires. What is answered of the panel is as of `read_back`: the
/// chart compiles, `Matched` tells a plan by which the panel itself is wired for it, and `Differs` exactly what is missing and what is extra
/// on it.
///
/// # Errors
///
/// As `read_back`.
pub fn nearest_chart(alloc: Global, setup: &Setup) -> Result<PanelChart, ChartFault>
    ensures read { IfOk result (λ panel. IsReadBack setup.now (string_bytes panel.text) panel.compiled panel.matching) }
    ensures first { IfOk result (λ panel. IsReadFirst setup.now (string_bytes panel.text)) }
    ensures refused { IfErr result (λ fault. fault ≡ chart.Memory) }
{
    match wired_chart(alloc, setup)? {
        Some(panel) => Ok(panel),
        None => nearest_tried(alloc, setup),
    }
}
