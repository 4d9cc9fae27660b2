//! A writer of pages, line by line.

ghost use Rattle.std.specs.Prelude.{◌≡◌, ◌+◌, ◌==◌, ◌≤◌, if◌then◌else◌, [], ◌++◌, true, false, IsErr, IsErrAnd, OnErr, OnOk};
ghost use Rattle.page_text.specs.Pages.{Pages};
ghost use Rattle.report_writer.specs.Added.{added, added_all, last_end, line_after, page_after};
ghost use Rattle.report_writer.specs.Outgoing.{HandsBack, Takes, Writes};
ghost use Rattle.report_writer.specs.Writing.{HasPlace, Writing};
ghost use Rattle.page_text.specs.PlacedLines.InOrder.{FollowInOrder, IsAfter, IsInOrder, IsOnForm};

use crate::fault::WriteFault;
use crate::feeding::{PageFront, add_line, end_pages};
use crate::outlet::Outlet;
use page_text::placed_lines::PlacedLine;
use report_streams::devices::Sink;
use std::marker::Model;

/// Writes the pages of lines in order, line by line, to a sink that may fail.
///
/// [`add`](PageWriter::add) takes a line up, and its bytes are written once they are a block of 64 KB; [`put`](PageWriter::put) writes
/// it at once, with all that waits. [`finish`](PageWriter::finish) ends the last page. What was written is always a prefix of the pages.
///
/// Contracts see the sink; the bytes taken up and not written yet; how many are written; whether a fault was told; the lines of a form;
/// and the place of the last line, at first page 1 after none of its lines.
#[derive(Drop)]
pub struct PageWriter<S: Sink + Drop> {
    out: Outlet<S>,
    form_lines: u32,
    page: u64,
    line: u32,
}

/// What is left of a writer of pages that has come to its end.
#[derive(Drop)]
pub struct Finished<S: Sink + Drop> {
    /// The sink.
    pub sink: S,
    /// Whether all was written and flushed.
    pub ended: Result<(), WriteFault>,
}

impl<S: Sink + Drop> Model for PageWriter<S> {
    ghost Value = { Writing S };

    ghost view = { λ writer. record {
      out = writer.out;
      form_lines = writer.form_lines;
      page = writer.page;
      line = writer.line;
    } };

    ghost invariant = { λ writer. HasPlace writer.out writer.form_lines writer.page writer.line };
}

impl<S: Sink + Drop> PageWriter<S> {
    /// A writer of pages of `form_lines` lines, at most 144. Nothing is written yet, and the sink is as it was.
    pub fn new(sink: S, form_lines: u32) -> PageWriter<S>
        requires { form_lines ≤ 144 }
        ensures sink { result.out.sink ≡ sink }
        ensures none_wait { result.out.waiting ≡ [] }
        ensures none_written { result.out.written ≡ 0 }
        ensures well { result.out.has_failed ≡ false }
        ensures form { result.form_lines ≡ form_lines }
        ensures page { result.page ≡ 1 }
        ensures line { result.line ≡ 0 }
    {
        PageWriter {
            out: Outlet::new(sink),
            form_lines,
            page: 1,
            line: 0,
        }
    }

    /// How many bytes the sink took.
    pub fn written(&self) -> u64
        ensures { result ≡ self.now.out.written }
    {
        self.out.written()
    }

    /// The sink, as it stands. What waits is dropped.
    pub fn into_sink(self) -> S
        ensures { result ≡ self.out.sink }
    {
        let PageWriter { out, .. } = self;
        out.into_sink()
    }

    /// Takes a line up: all that comes before it on the pages, its text without the blanks at its end, and LF. What waits is written
    /// where it makes a block.
    ///
    /// The line stands after the last one, on a page up to 2^32 and a line of the form.
    ///
    /// # Errors
    ///
    /// Where the sink fails, or has failed before: then it is not called. The fault tells how many bytes are written in all. The place
    /// stays that of the last line taken up whole.
    pub fn add(&mut self, placed: &PlacedLine) -> Result<(), WriteFault>
        requires after { IsAfter self.old.page self.old.line placed.now.page placed.now.line }
        requires on_form { IsOnForm self.old.form_lines placed.now }
        ensures bytes { Takes S.held S.has_failed (added self.old.form_lines self.old.page self.old.line placed.now) result
            self.old.out self.new.out }
        ensures page { OnOk result (self.new.page ≡ placed.now.page) }
        ensures line { OnOk result (self.new.line ≡ placed.now.line) }
        ensures stays { OnErr result ((self.new.page ≡ self.old.page) × (self.new.line ≡ self.old.line)) }
        ensures form { self.new.form_lines ≡ self.old.form_lines }
        ensures same { S.borrow self.new.out.sink ≡ S.borrow self.old.out.sink }
        ensures again { self.old.out.has_failed ≡ true → IsErr result × (self.new ≡ self.old) }
    {
        self.out.check()?;
        let from = PageFront {
            page: self.page,
            lines: self.line,
        };
        add_line(&mut self.out, self.form_lines, from, placed)?;
        self.page = placed.page;
        self.line = placed.line;
        Ok(())
    }

    /// Takes lines up, one after another, as `add` does.
    ///
    /// # Errors
    ///
    /// Where the sink fails, or has failed before, as `add`. The place is that of the last line taken up whole.
    pub fn add_all(&mut self, lines: &[PlacedLine]) -> Result<(), WriteFault>
        requires { FollowInOrder self.old.form_lines self.old.page self.old.line lines.now }
        ensures bytes { Takes S.held S.has_failed (added_all self.old.form_lines self.old.page self.old.line lines.now) result
            self.old.out self.new.out }
        ensures page { OnOk result (self.new.page ≡ page_after self.old.page lines.now) }
        ensures line { OnOk result (self.new.line ≡ line_after self.old.line lines.now) }
        ensures form { self.new.form_lines ≡ self.old.form_lines }
        ensures same { S.borrow self.new.out.sink ≡ S.borrow self.old.out.sink }
        ensures again { self.old.out.has_failed ≡ true → IsErr result × (self.new ≡ self.old) }
    {
        self.out.check()?;
        for placed in lines {
            self.add(placed)?;
        }
        Ok(())
    }

    /// Writes all that waits.
    ///
    /// # Errors
    ///
    /// Where the sink fails, or has failed before: then it is not called. The fault tells how many bytes are written in all.
    pub fn put_out(&mut self) -> Result<(), WriteFault>
        ensures bytes { Takes S.held S.has_failed [] result self.old.out self.new.out }
        ensures all { OnOk result (self.new.out.waiting ≡ []) }
        ensures place { (self.new.page ≡ self.old.page) × (self.new.line ≡ self.old.line) }
        ensures form { self.new.form_lines ≡ self.old.form_lines }
        ensures same { S.borrow self.new.out.sink ≡ S.borrow self.old.out.sink }
        ensures again { self.old.out.has_failed ≡ true → IsErr result × (self.new ≡ self.old) }
    {
        self.out.check()?;
        self.out.put_out()
    }

    /// Writes a line, and all that waits: `add` and then `put_out`.
    ///
    /// # Errors
    ///
    /// Where the sink fails, or has failed before, as `add`.
    pub fn put(&mut self, placed: &PlacedLine) -> Result<(), WriteFault>
        requires after { IsAfter self.old.page self.old.line placed.now.page placed.now.line }
        requires on_form { IsOnForm self.old.form_lines placed.now }
        ensures bytes { Takes S.held S.has_failed (added self.old.form_lines self.old.page self.old.line placed.now) result
            self.old.out self.new.out }
        ensures all { OnOk result (self.new.out.waiting ≡ []) }
        ensures page { OnOk result (self.new.page ≡ placed.now.page) }
        ensures line { OnOk result (self.new.line ≡ placed.now.line) }
        ensures form { self.new.form_lines ≡ self.old.form_lines }
        ensures same { S.borrow self.new.out.sink ≡ S.borrow self.old.out.sink }
        ensures again { self.old.out.has_failed ≡ true → IsErr result × (self.new ≡ self.old) }
    {
        self.add(placed)?;
        self.put_out()
    }

    /// Ends the last page, if a line of it was taken up, writes all that waits, and flushes the sink. The place is then the beginning of the
    /// next page.
    ///
    /// # Errors
    ///
    /// Where the sink fails, or has failed before: then it is not called. The fault tells how many bytes are written in all. The place
    /// stays that of the last line taken up whole.
    pub fn end(&mut self) -> Result<(), WriteFault>
        ensures bytes { Takes S.held S.has_failed (last_end self.old.form_lines self.old.line) result self.old.out self.new.out }
        ensures all { OnOk result (self.new.out.waiting ≡ []) }
        ensures flushed { OnOk result (S.is_flushed self.new.out.sink ≡ true) }
        ensures page { OnOk result (self.new.page ≡ (if self.old.line == 0 then self.old.page else self.old.page + 1)) }
        ensures line { OnOk result (self.new.line ≡ 0) }
        ensures stays { OnErr result ((self.new.page ≡ self.old.page) × (self.new.line ≡ self.old.line)) }
        ensures form { self.new.form_lines ≡ self.old.form_lines }
        ensures same { S.borrow self.new.out.sink ≡ S.borrow self.old.out.sink }
        ensures again { self.old.out.has_failed ≡ true → IsErr result × (self.new ≡ self.old) }
    {
        end_pages(&mut self.out, self.form_lines, self.line)?;
        if self.line > 0 {
            self.page += 1;
            self.line = 0;
        }
        Ok(())
    }

    /// Ends the pages as `end` does, and hands the sink back, also where it has failed.
    pub fn finish(mut self) -> Finished<S>
        ensures bytes { HandsBack S.held S.has_failed (last_end self.form_lines self.line) result.ended self.out result.sink }
        ensures flushed { OnOk result.ended (S.is_flushed result.sink ≡ true) }
        ensures again { self.out.has_failed ≡ true → IsErrAnd result.ended (λ fault. fault.written ≡ self.out.written)
            × (result.sink ≡ self.out.sink) }
        ensures same { S.borrow result.sink ≡ S.borrow self.out.sink }
    {
        let ended = self.end();
        Finished {
            sink: self.into_sink(),
            ended,
        }
    }
}

/// Writes the pages of lines in order to a sink, and flushes it.
///
/// # Errors
///
/// Where the sink fails. What it took is then the front of the pages, as long as the fault tells.
pub fn write_pages<S: Sink>(
    sink: &mut S,
    lines: &[PlacedLine],
    form_lines: u32,
) -> Result<(), WriteFault>
    requires few { form_lines ≤ 144 }
    requires order { IsInOrder form_lines lines.now }
    ensures bytes { Writes (Pages lines.now form_lines) result (S.held sink.old) (S.held sink.new) (S.has_failed sink.new) }
    ensures flushed { OnOk result (S.is_flushed sink.new ≡ true) }
{
    let mut pages = PageWriter::new(sink, form_lines);
    // After a failure the end of the pages fails alike.
    let _ = pages.add_all(lines);
    let ended = pages.end();
    // The lent sink is handed back, so that it is known what it took: that saves this function a sink of its own.
    let _sink = pages.into_sink();
    ended
}
