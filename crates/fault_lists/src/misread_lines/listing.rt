//! The list of the lines that no form derives.

ghost use Rattle.std.specs.Prelude.{◌≡◌, ◌≢◌, ℕ, IfOk, IfSome, IfNone, OnOk};
ghost use Rattle.chart_text.specs.TextFaults.{HasTextFault};
ghost use Rattle.fault_lists.specs.MisreadLines.Misread as law;
ghost use Rattle.fault_lists.specs.MisreadLines.Misread.{AreMisread};

use chart_text::{TextFault, read_chart};
use fault_slips::line_marks::emptied;
use std::alloc::{AllocError, Global};

/// How many lines are listed at most; a chart has no more.
const MOST: usize = 500;

/// The line that a fault tells, if it is one that no form derives.
fn misread_line(fault: TextFault) -> Result<Option<u16>, AllocError>
    ensures line { IfOk result (λ found. found ≡ law.misread_line fault) }
    ensures known { OnOk result (fault ≢ TextFault.Memory) }
{
    match fault {
        TextFault::NotALine { line } => Ok(Some(line)),
        TextFault::Memory => Err(AllocError),
        TextFault::TooLarge => Ok(None),
        TextFault::NoFirstLine => Ok(None),
        TextFault::NoEnd => Ok(None),
    }
}

/// The lowest line of a text that is none of a chart, if that is its fault.
fn lowest_misread(alloc: Global, text: &[u8]) -> Result<Option<u16>, AllocError>
    ensures some { IfOk result (λ found. IfSome found (λ line. HasTextFault text.now (TextFault.NotALine line))) }
    ensures none { IfOk result (λ found. IfNone found ((line : ℕ) → ¬ HasTextFault text.now (TextFault.NotALine line))) }
{
    let Err(fault) = read_chart(alloc, text) else {
        return Ok(None);
    };
    misread_line(fault)
}

/// The lines of a text, in their order, that are none of a chart or stand after END, 500 at most. Of a text that is too large or has no first line
/// of a chart there are none.
///
/// It allocates, and fails only where memory is refused.
pub fn misread_lines(alloc: Global, text: &[u8]) -> Result<Vec<u16>, AllocError>
    ensures { IfOk result (λ lines. AreMisread 500 text.now lines.items) }
{
    let mut lines = Vec::new(alloc);
    let mut rest = text.to_vec(alloc)?;
    for _ in 0..MOST {
        let Some(line) = lowest_misread(alloc, rest.as_slice())? else {
            return Ok(lines);
        };
        lines.push(line)?;
        rest = emptied(alloc, rest.as_slice(), u32::from(line))?;
    }
    Ok(lines)
}
