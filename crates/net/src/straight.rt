//! Wires that lead straight from columns of the card at second reading to print wheels.

ghost use Rattle.std.specs.Prelude.{◌≡◌, ◌+◌, ◌-◌, ◌<◌, ◌==◌, ◌&&◌, All, IfOk, IfSome, OnOk, false, true};
ghost use Rattle.machine_sets.specs.BitSets.Bits.{has_place};
ghost use Rattle.machine_sets.specs.SpreadsWords.Links.{is_linked};
ghost use Rattle.net.specs.Straight.{AreRunsOf, IsColumnToWheel, IsInside, JoinsWire};

use crate::links::leads_to_any;
use crate::tellings::FIRST_TELLING;
use machine_sets::bit_sets::WORDS;
use machine_sets::spreads::Link;
use std::alloc::{AllocError, Global};

// Places of hubs: the exits of second reading are those from FIRST_COLUMN on and before AFTER_COLUMNS, the print wheels those from
// FIRST_WHEEL on and before AFTER_WHEELS.
const FIRST_COLUMN: u16 = 80;

const AFTER_COLUMNS: u16 = 160;

const FIRST_WHEEL: u16 = 1798;

const AFTER_WHEELS: u16 = 1918;

/// Wires side by side, from columns of the card at second reading to print wheels. Both are counted from 0.
#[derive(Clone, Copy, Debug)]
pub struct Straight {
    /// The column of the first wire.
    pub column: usize,
    /// The wheel of the first wire.
    pub wheel: usize,
    /// How many wires there are.
    pub count: usize,
}

// The wires in runs, if each leads from a column to a wheel, or from an exit that tells of cycles, and none leads to one of these places.
pub(crate) fn straight_of(
    alloc: Global,
    links: &[Link],
    commons: &[u64; WORDS],
) -> Result<Option<Vec<Straight>>, AllocError>
    ensures runs { IfOk result (λ found. IfSome found (λ runs. AreRunsOf (is_linked links.now) runs.items)) }
    ensures apart { IfOk result (λ found. IfSome found (λ _. All (λ link. has_place commons.now link.to ≡ false) links.now)) }
{
    if leads_to_any(links, commons) {
        return Ok(None);
    }
    let mut runs = Vec::new(alloc);
    for link in links {
        if link.from < FIRST_TELLING {
            if !is_to_wheel(*link) {
                return Ok(None);
            }
            let column = (link.from - FIRST_COLUMN) as usize;
            let wheel = (link.to - FIRST_WHEEL) as usize;
            add_wire(&mut runs, column, wheel)?;
        }
    }
    Ok(Some(runs))
}

// Whether a wire leads from a column to a wheel.
fn is_to_wheel(link: Link) -> bool
    ensures { result ≡ true → IsColumnToWheel link.from link.to }
{
    FIRST_COLUMN <= link.from
        && link.from < AFTER_COLUMNS
        && FIRST_WHEEL <= link.to
        && link.to < AFTER_WHEELS
}

// Adds a wire to the last run if it lies beside the last wire of that run, else as a run of its own.
fn add_wire(runs: &mut Vec<Straight>, column: usize, wheel: usize) -> Result<(), AllocError>
    requires column { column < 80 }
    requires wheel { wheel < 120 }
    requires inside { All IsInside runs.old.items }
    ensures inside { OnOk result (All IsInside runs.new.items) }
    ensures joined { OnOk result (JoinsWire column wheel runs.old.items runs.new.items) }
{
    let many = runs.len();
    if many > 0 && goes_on(&runs[many - 1], column, wheel) {
        runs[many - 1].count += 1;
        return Ok(());
    }
    runs.push(Straight {
        column,
        wheel,
        count: 1,
    })?;
    Ok(())
}

// Whether a wire lies beside the last one of a run.
fn goes_on(run: &Straight, column: usize, wheel: usize) -> bool
    requires { IsInside run.now }
    ensures { result ≡ ((run.now.column + run.now.count == column) && (run.now.wheel + run.now.count == wheel)) }
{
    run.column + run.count == column && run.wheel + run.count == wheel
}
