//! Makes pages for a browser.
//!
//! The file `index` names the planning charts and wiring charts, one a line, each in a file `text` beside its `deck`. Behind the name may
//! stand the number of a page of the report, around which pages are shown. The pages were
//! built by a script, from printed pages, wiring charts, legends, explanations and traces that were worked out by hand, and read as XML.

use crate::answered::Served;
use crate::case_files::Case;
use anyhow::Result;
use cli_tasks::Task;
use std::io::Write;

// The name of a case, and the page around which pages are shown, if there is one.
fn around_of(name: &str) -> Result<(&str, Option<u32>)> {
    match name.split_once(' ') {
        Some((case, page)) => Ok((case, Some(page.parse()?))),
        None => Ok((name, None)),
    }
}

/// Writes the page of a case.
pub fn write_shown<W: Write>(rt: &HostRuntime, out: &mut W, name: &str) -> Result<()> {
    let (name, around) = around_of(name)?;
    let case = Case::read(rt, "shown", name, "text")?;
    let task = Task::Show { around };
    let served = Served::of(rt.alloc(), task, case.text.as_slice(), case.deck.as_slice());
    served.write_with_status(out)
}
