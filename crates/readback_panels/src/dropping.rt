//! Leaving lines of a draft out, where a chart with them would break a rule.

ghost use Rattle.std.specs.Prelude.{IfSome};
ghost use Rattle.readback_panels.specs.Lines.{IsOf};
ghost use Rattle.readback_panels.specs.declared.draft.Draft.{Draft};

use crate::draft::{Draft, PRINTED_LINES, PrintedLine};
use crate::lines::{DraftLine, blank_on, is_printed};
use crate::reading::Reading;
use hubs::setups::Setup;
use std::alloc::{AllocError, Global};

// Whether a line speaks of a field, but for that of the field itself.
fn speaks_of(draft: &Draft, line: DraftLine, field: usize) -> bool {
    match line {
        DraftLine::Control { control } => match draft.controls.get(control) {
            Some(its) => its.field == field,
            None => false,
        },
        DraftLine::Item { item } => match draft.items.get(item) {
            Some(its) => its.said.field() == Some(field),
            None => false,
        },
        _ => false,
    }
}

// Whether a line can't stand without another.
fn needs(draft: &Draft, line: DraftLine, other: DraftLine) -> bool {
    match other {
        DraftLine::Field { field } => speaks_of(draft, line, field),
        _ => false,
    }
}

// Whether a line puts an item or a blank on a printed line.
fn is_on(draft: &Draft, line: DraftLine, printed: PrintedLine) -> bool {
    match line {
        DraftLine::Item { item } => match draft.items.get(item) {
            Some(its) => its.line == printed,
            None => false,
        },
        DraftLine::Blank { line, .. } => line == printed,
        _ => false,
    }
}

// A form with this many lines that a chart may have: the first and the overflow line are as they are, as far as there is room for three
// heading lines between them, and two lines below.
fn lawful_form(lines: u8, first: u8, overflow: u8) -> DraftLine
    ensures { (draft : Draft) → IsOf draft result }
{
    let lowest = first.max(1).min(100);
    let below = overflow.max(lowest + 3).min(142);
    DraftLine::Form {
        lines: lines.max(below + 2).min(144),
        first: lowest,
        overflow: below,
    }
}

// What stands in the place of a line that is left out: another form for the form, and nothing for any other; for the line that tells which
// lines are printed that line.
fn instead_of(line: DraftLine) -> Option<DraftLine>
    ensures { (draft : Draft) → IsOf draft line → IfSome result (IsOf draft) }
{
    match line {
        DraftLine::Form {
            lines,
            first,
            overflow,
        } => Some(lawful_form(lines, first, overflow)),
        DraftLine::Print { .. } => Some(line),
        _ => None,
    }
}

impl Reading {
    ghost use Rattle.std.specs.Prelude.{◌≡◌, IfOk, IfSome, OnOk};
    ghost use Rattle.readback_panels.specs.Lines.{AreOf, IsOf};

    // What stands for a line, where the line at a place is left out.
    fn stand_in(
        &self,
        at: usize,
        line: DraftLine,
        place: usize,
        left_out: DraftLine,
    ) -> Option<DraftLine>
        requires { IsOf self.now.draft line }
        ensures { IfSome result (IsOf self.now.draft) }
    {
        if at == place {
            instead_of(line)
        } else if needs(&self.draft, line, left_out) {
            None
        } else {
            Some(line)
        }
    }

    // The lines without that of a place and those that can't stand without it.
    #[tactic(auto, using(crate::proofs::Kept::one_more))]
    fn kept_without(&self, alloc: Global, place: usize) -> Result<Vec<DraftLine>, AllocError>
        requires { AreOf self.now.draft self.now.lines.items }
        ensures { IfOk result (λ kept. AreOf self.now.draft kept.items) }
    {
        let mut kept = Vec::new(alloc);
        let Some(left_out) = self.lines.get(place) else {
            return Ok(kept);
        };
        for at in 0..self.lines.len() {
            if let Some(line) = self.stand_in(at, self.lines[at], place, *left_out) {
                kept.push(line)?;
            }
        }
        Ok(kept)
    }

    // Whether a printed line is printed with nothing on it.
    fn is_blank(&self, setup: &Setup, printed: PrintedLine) -> bool {
        is_printed(setup, printed)
            && !self
                .lines
                .iter()
                .any(|line| is_on(&self.draft, *line, printed))
    }

    // Adds a blank to each line that is printed and has nothing.
    #[tactic(auto, using(crate::proofs::Kept::one_more))]
    fn add_blanks(&mut self, setup: &Setup) -> Result<(), AllocError>
        requires { AreOf self.old.draft self.old.lines.items }
        ensures draft { self.new.draft ≡ self.old.draft }
        ensures of { OnOk result (AreOf self.new.draft self.new.lines.items) }
    {
        for printed in PRINTED_LINES {
            if self.is_blank(setup, printed) {
                self.lines.push(blank_on(&self.draft, printed))?;
            }
        }
        Ok(())
    }

    /// Leaves the line of a number, as the text of the chart counts it, out, and those that can't stand without it; a form is made lawful
    /// instead. A line that is printed and has no item then has a blank. Its only refusal is memory.
    ///
    /// The draft stays as it is, and each line still speaks of a part of it, as it did.
    pub fn leave_out(&mut self, alloc: Global, setup: &Setup, number: u16) -> Result<(), AllocError>
        requires { AreOf self.old.draft self.old.lines.items }
        ensures draft { self.new.draft ≡ self.old.draft }
        ensures of { OnOk result (AreOf self.new.draft self.new.lines.items) }
    {
        let place = usize::from(number.saturating_sub(2));
        self.lines = self.kept_without(alloc, place)?;
        self.add_blanks(setup)
    }
}
