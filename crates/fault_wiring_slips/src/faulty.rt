//! The faults of a text that is no wiring chart.

ghost use Rattle.std.specs.Prelude.{◌≡◌, ◌≢◌, IfOk, IfSome, IfNone};
ghost use Rattle.hubs.specs.SetupsWords.Wiring.{Wiring};
ghost use Rattle.wiring_text.specs.WiringFaults.{HasWiringFault};
ghost use Rattle.wiring_text.specs.WiringText.{ReadsAs};
ghost use Rattle.fault_wiring_slips.specs.Faulty as law;
ghost use Rattle.fault_wiring_slips.specs.Faulty.{AreFaults};

use fault_slips::line_marks::emptied;
use std::alloc::{AllocError, Global};
use wiring_text::WiringFault;
use wiring_text::wiring_reader::read_setup;

/// How many faults are listed at most.
const MOST: usize = 500;

/// The faults of a text, and the text without the lines at fault.
pub struct WiringFaults {
    /// The faults, in the order of their lines.
    pub faults: Vec<WiringFault>,
    /// The text without what stands on the lines at fault.
    pub good: Vec<u8>,
}

// By hand, so that a function that drops one calls this, and doesn't drop its parts one by one.
impl Drop for WiringFaults {
    fn drop(self) {
        let WiringFaults {
            faults: _faults,
            good: _good,
        } = self;
    }
}

/// A line behind the form.
fn behind_form(line: u32) -> Option<u32>
    ensures { result ≡ law.behind_form line }
{
    if line == 2 { None } else { Some(line) }
}

/// The line without which the text is read on, if the fault is one of such a line.
fn line_behind(fault: WiringFault) -> Option<u32>
    ensures { result ≡ law.line_behind fault }
{
    behind_form(fault.line()?)
}

/// The fault of a text, if it has one.
fn fault_of(alloc: Global, text: &[u8]) -> Result<Option<WiringFault>, AllocError>
    ensures some { IfOk result (λ found. IfSome found (λ fault. HasWiringFault text.now fault)) }
    ensures none { IfOk result (λ found. IfNone found ((wiring : Wiring) × ReadsAs text.now wiring)) }
{
    match read_setup(alloc, text) {
        Ok(_setup) => Ok(None),
        Err(WiringFault::Memory) => Err(AllocError),
        Err(fault) => Ok(Some(fault)),
    }
}

/// The faults of a text, 500 at most, in the order of their lines: the one that `read_setup` tells, and then those of the text without the
/// line at fault, until it reads. So a line at fault adds nothing: a wire on it is not there for the lines below. Behind a form that no tape
/// has, or where the text is too large or doesn't begin as a wiring chart, nothing more is asked.
///
/// It allocates, and fails only where memory is refused.
pub fn wiring_faults(alloc: Global, text: &[u8]) -> Result<WiringFaults, AllocError>
    ensures { IfOk result (λ found. AreFaults 500 text.now found.faults.items found.good.items) }
{
    let mut faults = Vec::new(alloc);
    let mut good = text.to_vec(alloc)?;
    for _ in 0..MOST {
        let Some(fault) = fault_of(alloc, good.as_slice())? else {
            return Ok(WiringFaults { faults, good });
        };
        faults.push(fault)?;
        let Some(line) = line_behind(fault) else {
            return Ok(WiringFaults { faults, good });
        };
        good = emptied(alloc, good.as_slice(), line)?;
    }
    Ok(WiringFaults { faults, good })
}
