//! Whether lines are in order.

ghost use Rattle.std.specs.Prelude.{◌≡◌, ◌≤◌, ◌↔◌, IsTrue};
ghost use Rattle.page_text.specs.PlacedLines.InOrder.{IsAfter, IsInOrder, IsOnForm};

use crate::placed_lines::placed_line::PlacedLine;

/// The most lines of a form.
const MOST_LINES: u32 = 144;

/// The last page that a line can stand on.
const LAST_PAGE: u64 = 1 << 32;

/// Whether lines are in order on forms of `form_lines` lines, at most 144: their places rise, on pages 1 to 2^32 and
/// lines 1 to `form_lines`.
pub fn in_order(lines: &[PlacedLine], form_lines: u32) -> bool
    ensures { IsTrue result ↔ ((form_lines ≤ 144) × IsInOrder form_lines lines.now) }
{
    let mut page = 0;
    let mut line = 0;
    for placed in lines {
        if !(is_after(placed, page, line) && is_on_form(placed, form_lines)) {
            return false;
        }
        page = placed.page;
        line = placed.line;
    }
    form_lines <= MOST_LINES
}

// Whether a line stands after a place.
fn is_after(placed: &PlacedLine, page: u64, line: u32) -> bool
    ensures { IsTrue result ↔ IsAfter page line placed.now.page placed.now.line }
{
    page < placed.page || page == placed.page && line < placed.line
}

// Whether a line stands on a page and a line that there can be.
fn is_on_form(placed: &PlacedLine, form_lines: u32) -> bool
    ensures { IsTrue result ↔ IsOnForm form_lines placed.now }
{
    1 <= placed.page && placed.page <= LAST_PAGE && 1 <= placed.line && placed.line <= form_lines
}
