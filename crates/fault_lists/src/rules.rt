//! The entries of rules that a chart breaks.

ghost use Rattle.std.specs.Prelude.{IfErr, OnOk};
ghost use Rattle.std.specs.Io.KnownBytes.{Appends};
ghost use Rattle.fault_lists.specs.Endings.{IsBrokenOff};
ghost use Rattle.fault_chart_words.specs.FaultWords.Entries.{entries_text};

use chart_line_rules::field_rules::Fields;
use chart_lines::charts::RawChart;
use fault_chart_words::BrokenRule;
use fault_chart_words::fault_words::write_entries;
use fault_lines::faults::{Fault, unprinted};
use std::alloc::Global;
use std::io::Write;

/// Writes the entries of some rules that lines of a chart break. `text` has these lines.
pub(crate) fn write_rules<'a, W: Write>(
    alloc: Global,
    out: &mut W,
    text: &[u8],
    raw: &RawChart,
    list: &[BrokenRule],
) -> Result<(), Fault<'a>>
    ensures written { OnOk result (Appends (W.contents out.old) (W.contents out.new) (entries_text text.now raw.now list.now)) }
    ensures broken_off { IfErr result IsBrokenOff }
{
    let index = Fields::of(alloc, raw.lines())?;
    let fields = Fields::of(alloc, raw.lines())?.into_fields();
    match write_entries(out, text, raw, &index, fields.as_slice(), list) {
        Ok(()) => Ok(()),
        Err(error) => Err(unprinted(&error)),
    }
}
