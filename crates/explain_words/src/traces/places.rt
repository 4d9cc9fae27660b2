//! What is told of pilots and of printed lines.

ghost use Rattle.std.specs.Prelude.{◌≡◌, ◌++◌, OnOk, option_to_list};
ghost use Rattle.std.specs.List.{flat_map};
ghost use Rattle.explain_words.specs.TracesWords.TracedUnits.{bracketed, line_told, pilot_told, pilots_told};

use chart_numerals::write_numbered;
use page_text::placed_lines::PlacedLine;
use page_text::without_trailing_blanks;
use selectors::Pilots;
use std::io;
use std::io::Write;

// Characters in brackets, cut behind the last one that is no blank.
pub(crate) fn write_bracketed(text: &mut Vec<u8>, characters: &[u8]) -> io::Result<()>
    ensures { OnOk result (text.new.items ≡ text.old.items ++ bracketed characters.now) }
{
    text.write_all(b"[")?;
    text.write_all(without_trailing_blanks(characters))?;
    text.write_all(b"]")
}

// A pilot, where it stands transferred.
fn write_pilot(text: &mut Vec<u8>, pilots: &Pilots, pilot: u8) -> io::Result<()>
    ensures { OnOk result (text.new.items ≡ text.old.items ++ pilot_told pilots.now pilot) }
{
    if pilots.is_transferred(pilot) {
        write_numbered(text, "   pilot ", pilot)?;
        text.write_all(b" transferred")?;
    }
    Ok(())
}

// The pilots that stand transferred.
pub(crate) fn write_pilots(text: &mut Vec<u8>, pilots: &Pilots) -> io::Result<()>
    ensures { OnOk result (text.new.items ≡ text.old.items ++ pilots_told pilots.now) }
{
    for pilot in 1..17 {
        write_pilot(text, pilots, pilot)?;
    }
    Ok(())
}

// A printed line and its place.
fn write_line(text: &mut Vec<u8>, placed: &PlacedLine) -> io::Result<()>
    ensures { OnOk result (text.new.items ≡ text.old.items ++ line_told placed.now) }
{
    write_numbered(text, "   page ", placed.page)?;
    write_numbered(text, " line ", placed.line)?;
    text.write_all(b" ")?;
    write_bracketed(text, &placed.text)
}

// The line that was printed, if one was.
pub(crate) fn write_placed(text: &mut Vec<u8>, placed: &Option<PlacedLine>) -> io::Result<()>
    ensures { OnOk result (text.new.items ≡ text.old.items ++ flat_map line_told (option_to_list placed.now)) }
{
    match placed {
        Some(placed) => write_line(text, placed),
        None => Ok(()),
    }
}
