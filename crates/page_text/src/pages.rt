//! The bytes of pages.

ghost use Rattle.std.specs.Prelude.{◌≡◌, ◌+◌, ◌++◌, ◌∷◌, [], ◌≤◌, ◌<◌, ◌^◌, ℕ, length, ◌-◌, slice_index_or, take, IfOk, OnOk};
ghost use Rattle.std.specs.Int.{leading_zeros, w64};
ghost use Rattle.page_text.specs.PlacedLines.InOrder.{IsInOrder};
ghost use Rattle.page_text.specs.Pages.{Pages, without_trailing_blanks, last_page};
ghost use Rattle.page_text.specs.Walking.{first_text, rest_after, rest_after_lines, walked_lines};

use crate::placed_lines::PlacedLine;
use std::alloc::{AllocError, Global};
use std::simd::prelude::*;

const BLANK: u8 = b' ';

// How many characters are looked at at a time.
const LANES: usize = 16;

const LINE_FEED: u8 = 10;

const FORM_FEED: u8 = 12;

/// The bytes of the pages of lines in order, on forms of `form_lines` lines, at most 144: pages 1 to the last that has a line. In order
/// are lines whose places rise, on pages 1 to 2^32 and lines 1 to `form_lines`.
///
/// Each page has `form_lines` lines and a form feed, each line its text without the blanks at its end and LF. No lines
/// give no bytes. One pass over the lines and the places of the pages. Fails only where no memory is left.
pub fn page_bytes(
    alloc: Global,
    lines: &[PlacedLine],
    form_lines: u32,
) -> Result<Vec<u8>, AllocError>
    requires few { form_lines ≤ 144 }
    requires order { IsInOrder form_lines lines.now }
    ensures { IfOk result (λ bytes. bytes.items ≡ Pages lines.now form_lines) }
{
    let mut out = Vec::new(alloc);
    let mut left = lines;
    for page in 0..last_page(lines) {
        left = push_page(&mut out, left, form_lines, page + 1)?;
    }
    Ok(out)
}

/// The last page that has a line, from page 1, and 0 without lines.
pub fn last_page(lines: &[PlacedLine]) -> u64
    ensures { result ≡ last_page lines.now }
{
    let mut last = 0;
    for placed in lines {
        last = last.max(placed.page);
    }
    last
}

// Adds a page, and answers the lines that are left after it.
fn push_page<'a>(
    out: &mut Vec<u8>,
    lines: &'a [PlacedLine],
    form_lines: u32,
    page: u64,
) -> Result<&'a [PlacedLine], AllocError>
    requires { form_lines ≤ 144 }
    ensures bytes { OnOk result (out.new.items ≡ out.old.items ++ (walked_lines lines.now page form_lines ++ 12 ∷ [])) }
    ensures left { IfOk result (λ left. left.now ≡ rest_after_lines lines.now page form_lines) }
{
    let mut left = lines;
    for line in 0..form_lines {
        let (text, others) = take_at(left, page, line + 1);
        push_line(out, text)?;
        left = others;
    }
    out.push(FORM_FEED)?;
    Ok(left)
}

// The text of the first line, where it stands at the place, and the lines that are left after the place.
fn take_at(lines: &[PlacedLine], page: u64, line: u32) -> (&[u8], &[PlacedLine])
    ensures text { result.0.now ≡ first_text lines.now page line }
    ensures left { result.1.now ≡ rest_after lines.now page line }
{
    match lines {
        [first, others @ ..] if first.page == page && first.line == line => (&first.text, others),
        _ => (&[], lines),
    }
}

// Adds a line: its text without the blanks at its end, and LF.
fn push_line(out: &mut Vec<u8>, text: &[u8]) -> Result<(), AllocError>
    ensures { OnOk result (out.new.items ≡ out.old.items ++ (without_trailing_blanks text.now ++ 10 ∷ [])) }
{
    out.extend_from_slice(without_trailing_blanks(text))?;
    out.push(LINE_FEED)?;
    Ok(())
}

/// A text without the blanks at its end.
pub fn without_trailing_blanks(text: &[u8]) -> &[u8]
    ensures { result.now ≡ without_trailing_blanks text.now }
{
    let mut end = blanks_from(text);
    while end > 0 && text[end - 1] == BLANK {
        end -= 1;
    }
    &text[..end]
}

// A place from which on a text has blanks alone. From the end sixteen are passed at a time, as long as all of them are blanks: most lines
// leave many wheels blank on the right. Of the next sixteen the last one that is none is found at once.
fn blanks_from(text: &[u8]) -> usize
    ensures within { result ≤ length text.now }
    ensures same { without_trailing_blanks (take result text.now) ≡ without_trailing_blanks text.now }
{
    let mut end = text.len();
    while end >= LANES {
        let printed = printed_to(text, end - LANES);
        if printed > 0 {
            return end - LANES + printed;
        }
        end -= LANES;
    }
    end
}

// How many of sixteen characters from one on there are up to the last one that is no blank.
fn printed_to(text: &[u8], from: usize) -> usize
    requires { from + LANES ≤ length text.now }
    ensures few { result ≤ LANES }
    ensures blank { (k : ℕ) → from + result ≤ k → k < from + LANES → slice_index_or text.now k 0 ≡ 32 }
{
    let characters = u8x16::from_slice(&text[from..]);
    highest_of(characters.simd_ne(u8x16::splat(BLANK)).to_bitmask())
}

// One more than the place of the highest bit of a word, and 0 where it has none.
fn highest_of(word: u64) -> usize
    ensures { result ≡ 64 - leading_zeros w64 word }
{
    64 - word.leading_zeros() as usize
}
