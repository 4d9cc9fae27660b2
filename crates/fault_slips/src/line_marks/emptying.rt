//! Emptying a line of a text.

ghost use Rattle.std.specs.Prelude.{◌≡◌, IfOk};
ghost use Rattle.fault_slips.specs.LineMarks.Emptied as law;

use std::alloc::{AllocError, Global};
use std::slice::from_ref;

/// What is left of a byte: nothing, if it is one of the line with number 1 and doesn't end it.
fn kept(line: u32, byte: &u8) -> &[u8]
    ensures { result.now ≡ law.kept line byte.now }
{
    if *byte == b'\n' {
        from_ref(byte)
    } else if line == 1 {
        &[]
    } else {
        from_ref(byte)
    }
}

/// The number of a line, counted from the line of the byte behind this one.
fn line_left(line: u32, byte: u8) -> u32
    ensures { result ≡ law.line_left line byte }
{
    if byte == b'\n' {
        line.saturating_sub(1)
    } else {
        line
    }
}

/// A copy of a text without what stands on the line with a number, from 1; the line itself is there, and empty. It fails only where memory
/// is refused.
pub fn emptied(alloc: Global, text: &[u8], line: u32) -> Result<Vec<u8>, AllocError>
    ensures { IfOk result (λ copy. copy.items ≡ law.emptied line text.now) }
{
    let mut copy = Vec::new(alloc);
    let mut left = line;
    for byte in text {
        copy.extend_from_slice(kept(left, byte))?;
        left = line_left(left, *byte);
    }
    Ok(copy)
}
