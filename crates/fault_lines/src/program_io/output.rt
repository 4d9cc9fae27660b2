//! Writing what a command answers.

ghost use Rattle.std.specs.Prelude.{◌≡◌, ◌⊎◌, IfErr, OnOk};
ghost use Rattle.std.specs.Io.KnownBytes.{Appends};
ghost use Rattle.fault_lines.specs.ProgramIo.Fronts.{AppendsFront};

use crate::faults::{Fault, unprinted};
use std::io::Write;

/// Prints bytes, from where a short write stopped, and all that the writer still holds back. Nothing is tried again: an interrupted write
/// has failed, and so has one that takes none of some bytes.
///
/// # Errors
///
/// `Memory` or `Write` where the writer fails. It has then taken the front of the bytes, which may be none or all of them.
pub fn put<'a, W: Write>(out: &mut W, bytes: &[u8]) -> Result<(), Fault<'a>>
    ensures written { OnOk result (Appends (W.contents out.old) (W.contents out.new) bytes.now) }
    ensures front { AppendsFront (W.contents out.old) (W.contents out.new) bytes.now }
    ensures told { IfErr result (λ told. (told ≡ Fault.Memory) ⊎ (told ≡ Fault.Write)) }
{
    let mut done = 0;
    while done < bytes.len() {
        match out.write(&bytes[done..]) {
            Ok(0) => return Err(Fault::Write),
            Ok(count) => done += count,
            Err(error) => return Err(unprinted(&error)),
        }
    }
    match out.flush() {
        Ok(()) => Ok(()),
        Err(error) => Err(unprinted(&error)),
    }
}
