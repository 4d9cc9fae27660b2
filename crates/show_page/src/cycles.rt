//! The cycles of the run, on the page.

ghost use Rattle.std.specs.Prelude.{◌≡◌, ◌<◌, ◌^◌, ◌++◌, OnOk};
ghost use Rattle.std.specs.String.{string_bytes};
ghost use Rattle.show_page.specs.Cycles.{shown_cycles};

use explain_words::traces::TracePart;
use show_sections::cycle_sections::write_cycles;
use std::alloc::{AllocError, Global};

// The cycles that are shown.
pub(crate) fn write_shown_cycles(
    alloc: Global,
    text: &mut String,
    part: &TracePart,
) -> Result<(), AllocError>
    requires { part.now.before < 2 ^ 32 }
    ensures { OnOk result (string_bytes text.new ≡ string_bytes text.old ++ shown_cycles part.now) }
{
    write_cycles(alloc, text, &part.text, part.before, part.all)
}
