//! The lines that cycles place.

use crate::unit_set::UnitSet;
use page_text::placed_lines::PlacedLine;
use std::alloc::AllocError;

impl UnitSet {
    ghost use Rattle.std.specs.Prelude.{◌≡◌, ◌++◌, OnErr, OnOk, option_to_list};
    ghost use Rattle.machine.specs.Cycles.{line_of};

    /// The line that the cycle that ended last placed: the characters of the wheels, at the page and the line where the carriage stood.
    /// `None` if it placed none, and before any cycle.
    pub fn placed_line(&self) -> Option<PlacedLine>
        ensures { option_to_list result ≡ line_of self.now }
    {
        let wheels = &self.wheels;
        self.carriage.printed().map(|(page, line)| PlacedLine {
            page,
            line,
            text: *wheels.line(),
        })
    }

    /// Puts the line that the cycle that ended last placed, if it placed one, after the others, and copies it but once.
    ///
    /// Fails only if memory was refused; the lines then stay as they were.
    pub fn append_line(&self, lines: &mut Vec<PlacedLine>) -> Result<(), AllocError>
        ensures appended { OnOk result (lines.new.items ≡ lines.old.items ++ line_of self.now) }
        ensures refused { OnErr result (lines.new.items ≡ lines.old.items) }
    {
        if let Some((page, line)) = self.carriage.printed() {
            lines.push(PlacedLine {
                page,
                line,
                text: *self.wheels.line(),
            })?;
        }
        Ok(())
    }
}
