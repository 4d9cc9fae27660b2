//! Lines, blank lines and form feeds, on their way to a sink.

ghost use Rattle.std.specs.Prelude.{◌≡◌, ◌+◌, ◌-◌, ◌^◌, ◌<◌, ◌≤◌, ◌⊎◌, ◌∷◌, ◌++◌, [], length, true, false, IsErr, OnOk};
ghost use Rattle.report_writer.specs.Added.{added, blank_pages, feeds, last_end, page_end};
ghost use Rattle.report_writer.specs.Outgoing.{Takes, total};
ghost use Rattle.page_text.specs.PlacedLines.InOrder.{IsAfter, IsOnForm};

use crate::fault::WriteFault;
use crate::outlet::Outlet;
use page_text::placed_lines::PlacedLine;
use page_text::without_trailing_blanks;
use report_streams::devices::Sink;

const LINE_FEED: u8 = 10;

const FORM_FEED: u8 = 12;

// A place that pages are written up to: so many lines of a page.
#[derive(Clone, Copy)]
pub(crate) struct PageFront {
    pub page: u64,
    pub lines: u32,
}

// Ends a page of which so many lines are written.
pub(crate) fn end_page<S: Sink + Drop>(
    out: &mut Outlet<S>,
    form_lines: u32,
    lines: u32,
) -> Result<(), WriteFault>
    requires within { lines ≤ form_lines }
    requires fits { total out.old + length (page_end form_lines lines) < 2 ^ 64 }
    ensures bytes { Takes S.held S.has_failed (page_end form_lines lines) result out.old out.new }
    ensures same { S.borrow out.new.sink ≡ S.borrow out.old.sink }
{
    out.repeat(LINE_FEED, form_lines - lines)?;
    out.take(&[FORM_FEED])
}

// Feeds so many blank pages.
fn feed_pages<S: Sink + Drop>(
    out: &mut Outlet<S>,
    form_lines: u32,
    pages: u64,
) -> Result<(), WriteFault>
    requires { total out.old + length (blank_pages form_lines pages) < 2 ^ 64 }
    ensures bytes { Takes S.held S.has_failed (blank_pages form_lines pages) result out.old out.new }
    ensures same { S.borrow out.new.sink ≡ S.borrow out.old.sink }
{
    for _page in 0..pages {
        end_page(out, form_lines, 0)?;
    }
    Ok(())
}

// Feeds from a place to one on the same page or a later one.
fn feed<S: Sink + Drop>(
    out: &mut Outlet<S>,
    form_lines: u32,
    from: PageFront,
    to: PageFront,
) -> Result<(), WriteFault>
    requires within { from.lines ≤ form_lines }
    requires later { (from.page < to.page) ⊎ ((from.page ≡ to.page) × (from.lines ≤ to.lines)) }
    requires fits { total out.old + length (feeds form_lines from.page from.lines to.page to.lines) < 2 ^ 64 }
    ensures bytes { Takes S.held S.has_failed (feeds form_lines from.page from.lines to.page to.lines) result out.old out.new }
    ensures same { S.borrow out.new.sink ≡ S.borrow out.old.sink }
{
    if from.page == to.page {
        return out.repeat(LINE_FEED, to.lines - from.lines);
    }
    end_page(out, form_lines, from.lines)?;
    feed_pages(out, form_lines, to.page - (from.page + 1))?;
    out.repeat(LINE_FEED, to.lines)
}

// Takes up a line after a place: all that comes before it, its text without the blanks at its end, and LF.
pub(crate) fn add_line<S: Sink + Drop>(
    out: &mut Outlet<S>,
    form_lines: u32,
    from: PageFront,
    placed: &PlacedLine,
) -> Result<(), WriteFault>
    requires within { from.lines ≤ form_lines }
    requires after { IsAfter from.page from.lines placed.now.page placed.now.line }
    requires on_form { IsOnForm form_lines placed.now }
    requires fits { total out.old + length (added form_lines from.page from.lines placed.now) < 2 ^ 64 }
    ensures bytes { Takes S.held S.has_failed (added form_lines from.page from.lines placed.now) result out.old out.new }
    ensures same { S.borrow out.new.sink ≡ S.borrow out.old.sink }
{
    let to = PageFront {
        page: placed.page,
        lines: placed.line - 1,
    };
    feed(out, form_lines, from, to)?;
    out.take(without_trailing_blanks(&placed.text))?;
    out.take(&[LINE_FEED])
}

// Ends the last page, if a line of it is written.
fn end_begun_page<S: Sink + Drop>(
    out: &mut Outlet<S>,
    form_lines: u32,
    line: u32,
) -> Result<(), WriteFault>
    requires within { line ≤ form_lines }
    requires fits { total out.old + length (last_end form_lines line) < 2 ^ 64 }
    ensures bytes { Takes S.held S.has_failed (last_end form_lines line) result out.old out.new }
    ensures same { S.borrow out.new.sink ≡ S.borrow out.old.sink }
{
    if line == 0 {
        return Ok(());
    }
    end_page(out, form_lines, line)
}

// Ends the last page, writes all that waits, and flushes the sink. Fails where a fault was told.
pub(crate) fn end_pages<S: Sink + Drop>(
    out: &mut Outlet<S>,
    form_lines: u32,
    line: u32,
) -> Result<(), WriteFault>
    requires within { line ≤ form_lines }
    requires fits { out.old.has_failed ≡ false → total out.old + length (last_end form_lines line) < 2 ^ 64 }
    ensures bytes { Takes S.held S.has_failed (last_end form_lines line) result out.old out.new }
    ensures all { OnOk result (out.new.waiting ≡ []) }
    ensures flushed { OnOk result (S.is_flushed out.new.sink ≡ true) }
    ensures same { S.borrow out.new.sink ≡ S.borrow out.old.sink }
    ensures again { out.old.has_failed ≡ true → IsErr result × (out.new ≡ out.old) }
{
    out.check()?;
    end_begun_page(out, form_lines, line)?;
    out.put_out()?;
    out.flush()
}
