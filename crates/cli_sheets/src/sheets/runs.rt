//! Runs of a character.

ghost use Rattle.std.specs.Prelude.{◌≡◌, ◌++◌, OnOk, replicate};

use std::io;

// A character, so many times.
pub(crate) fn write_run(text: &mut Vec<u8>, character: u8, count: usize) -> io::Result<()>
    ensures { OnOk result (text.new.items ≡ text.old.items ++ replicate count character) }
{
    for _ in 0..count {
        text.push(character)?;
    }
    Ok(())
}
