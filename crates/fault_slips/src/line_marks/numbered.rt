//! The lines of a text by their numbers.

ghost use Rattle.std.specs.Prelude.{◌≡◌, ◌-◌};
ghost use Rattle.card_code.specs.Deck.{line_at};
ghost use Rattle.fault_slips.specs.LineMarks.FirstLines as law;
ghost use Rattle.fault_slips.specs.LineMarks.FirstLines.{first_line};

use crate::line_marks::span::word;
use card_code::next_line;
use chart_lines::tokens::is;

/// The line of a text with a number, from 1; an empty one past its end.
pub fn line_numbered(source: &[u8], number: u32) -> &[u8]
    ensures { result.now ≡ line_at source.now number }
{
    let mut rest = source;
    for passed in 0..number.saturating_sub(1) {
        let Some((_, after)) = next_line(rest) else {
            return &[];
        };
        rest = after;
    }
    match next_line(rest) {
        Some((line, _)) => line,
        None => &[],
    }
}

/// Whether END stands alone on a line, as far as its words go.
fn is_end(line: &[u8]) -> bool
    ensures { result ≡ law.is_end line.now }
{
    is(word(line, 0), b"END") && is(word(line, 1), b"")
}

/// The number of the first line of a text on which END stands alone, from 1.
pub fn end_line(text: &[u8]) -> Option<u64>
    ensures { result ≡ first_line law.is_end text.now }
{
    let mut passed = 0_usize;
    let mut rest = text;
    while let Some((line, after)) = next_line(rest) {
        passed += 1;
        if is_end(line) {
            return Some(passed as u64);
        }
        rest = after;
    }
    None
}
