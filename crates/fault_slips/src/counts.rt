//! How many things there are, as people say it.

ghost use Rattle.std.specs.Prelude.{◌≡◌, OnOk};
ghost use Rattle.std.specs.Io.KnownBytes.{Appends};
ghost use Rattle.fault_slips.specs.Counts as law;

use chart_numerals::write_number;
use std::io;
use std::io::Write;

/// Writes how many.
fn write_how_many<W: Write>(out: &mut W, count: u32) -> io::Result<()>
    ensures { OnOk result (Appends (W.contents out.old) (W.contents out.new) (law.how_many count)) }
{
    if count == 0 {
        out.write_all(b"no")
    } else {
        write_number(out, count)
    }
}

/// The ending of the word for so many things.
fn plural(count: u32) -> &'static str
    ensures { result.now ≡ law.plural count }
{
    if count == 1 { "" } else { "s" }
}

/// Writes so many things, between words before them and the word for one of them: ` has no columns`, ` has 1 column`, ` has 2 columns`.
///
/// # Errors
///
/// If the writer fails. It may then have taken a part of the words.
#[tactic(auto, unfolding(crate::specs::Counts::count_text))]
pub fn write_count<W: Write>(out: &mut W, before: &str, count: u32, thing: &str) -> io::Result<()>
    ensures { OnOk result (Appends (W.contents out.old) (W.contents out.new) (law.count_text before.now count thing.now)) }
{
    out.write_all(before.as_bytes())?;
    write_how_many(out, count)?;
    out.write_all(thing.as_bytes())?;
    out.write_all(plural(count).as_bytes())
}
