//! The line of a cycle, in rows.

ghost use Rattle.std.specs.Prelude.{◌≡◌, ◌≤◌, ◌<◌, ◌+◌, ◌^◌, ◌==◌, ◌&&◌, ◌++◌, ◌∷◌, [], IfOk, OnOk, not};
ghost use Rattle.show_sections.specs.CycleSections.Helper.{TakesByte};
ghost use Rattle.show_sections.specs.CycleSections.Rows.{gap, is_inside, rows_of};

use std::alloc::{AllocError, Global};

// What stands for so many spaces.
fn gap(spaces: usize) -> &'static [u8]
    ensures { result.now ≡ gap spaces }
{
    match spaces {
        0 => b"",
        1 => b" ",
        2 => b"  ",
        _ => b"\n",
    }
}

// Whether what stands behind a byte stands inside of brackets.
fn is_inside(inside: bool, byte: u8) -> bool
    ensures { result ≡ is_inside inside byte }
{
    if inside { byte != b']' } else { byte == b'[' }
}

// Writes a byte of a row behind what stands for the spaces before it.
fn write_behind(rows: &mut Vec<u8>, spaces: usize, byte: u8) -> Result<(), AllocError>
    ensures { OnOk result (rows.new.items ≡ rows.old.items ++ gap spaces ++ byte ∷ []) }
{
    rows.extend_from_slice(gap(spaces))?;
    rows.push(byte)?;
    Ok(())
}

// Whether a byte is a space that divides things, and none of the characters in brackets.
fn divides(inside: bool, byte: u8) -> bool
    ensures { result ≡ ((byte == 32) && not inside) }
{
    byte == b' ' && !inside
}

// Takes a byte: a space that divides things is counted, and any other byte is written behind what stands for the spaces before it.
fn take_byte(
    rows: &mut Vec<u8>,
    inside: &mut bool,
    spaces: &mut usize,
    byte: u8,
) -> Result<(), AllocError>
    requires { spaces.old + 1 < 2 ^ 64 }
    ensures rows { OnOk result (TakesByte byte inside.old spaces.old rows.old.items inside.new spaces.new rows.new.items) }
    ensures few { OnOk result (spaces.new ≤ spaces.old + 1) }
{
    if divides(*inside, byte) {
        *spaces += 1;
        return Ok(());
    }
    write_behind(rows, *spaces, byte)?;
    *spaces = 0;
    *inside = is_inside(*inside, byte);
    Ok(())
}

// Writes the rows of a line.
fn write_rows(rows: &mut Vec<u8>, line: &[u8]) -> Result<(), AllocError>
    ensures { OnOk result (rows.new.items ≡ rows.old.items ++ rows_of line.now) }
{
    let mut inside = false;
    let mut spaces = 0;
    for byte in line {
        take_byte(rows, &mut inside, &mut spaces, *byte)?;
    }
    rows.extend_from_slice(gap(spaces))
}

// The rows of a line.
pub(crate) fn rows_of(alloc: Global, line: &[u8]) -> Result<Vec<u8>, AllocError>
    ensures { IfOk result (λ rows. rows.items ≡ rows_of line.now) }
{
    let mut rows = Vec::new(alloc);
    write_rows(&mut rows, line)?;
    Ok(rows)
}
