//! Pages of a text.

ghost use Rattle.std.specs.Prelude.{◌≡◌, ◌≢◌, ◌≤◌, ◌-◌, ◌==◌, drop, if◌then◌else◌, length, take};
ghost use Rattle.cli_calls.specs.WholeRuns.Pages.{chosen_pages, first_pages, has_page, pages_behind};

/// The byte that ends a page.
const FORM_FEED: u8 = 12;

/// Pages from one to another, both among them. Numbers are from 1; there are none if the last comes before the first.
#[derive(Clone, Copy, Debug, PartialEq, Eq)]
pub struct PageRange {
    /// The number of the first page, which has to be there; 0 if none has to.
    pub first: u64,
    /// The number of the last page.
    pub last: u64,
}

impl PageRange {
    ghost use Rattle.std.specs.Prelude.{◌≡◌, ◌-◌, ◌^◌};

    /// All pages, of which there may be none.
    pub fn all() -> PageRange
        ensures { result ≡ record { first = 0; last = 2 ^ 64 - 1 } }
    {
        PageRange {
            first: 0,
            last: u64::MAX,
        }
    }
}

// How many pages of so many, at least one, are left behind a byte.
fn left_behind(left: u64, byte: u8) -> u64
    requires { left ≢ 0 }
    ensures { result ≡ (if byte == 12 then left - 1 else left) }
{
    if byte == FORM_FEED { left - 1 } else { left }
}

// The place behind so many pages, or the end of the text if it has no more.
fn place_behind(text: &[u8], count: u64) -> usize
    ensures within { result ≤ length text.now }
    ensures before { take result text.now ≡ first_pages count text.now }
    ensures behind { drop result text.now ≡ pages_behind count text.now }
{
    let mut place = 0;
    let mut left = count;
    for byte in text {
        if left == 0 {
            return place;
        }
        left = left_behind(left, *byte);
        place += 1;
    }
    place
}

// What stands behind so many pages.
fn pages_behind(text: &[u8], count: u64) -> &[u8]
    ensures { result.now ≡ pages_behind count text.now }
{
    &text[place_behind(text, count)..]
}

/// Whether a text has a page with this number. A form feed ends a page; behind the last one stands the beginning of a page, if anything does.
/// Page 0, before the first one, is always there.
pub fn has_page(text: &[u8], number: u64) -> bool
    ensures { result ≡ has_page number text.now }
{
    number == 0 || !pages_behind(text, number - 1).is_empty()
}

/// The pages of a text that are in a range, as [`has_page`] counts them.
pub fn chosen_pages(text: &[u8], pages: PageRange) -> &[u8]
    ensures { result.now ≡ chosen_pages pages.first pages.last text.now }
{
    let skipped = pages.first.saturating_sub(1);
    let behind = pages_behind(text, skipped);
    let wanted = pages.last.saturating_sub(skipped);
    &behind[..place_behind(behind, wanted)]
}
