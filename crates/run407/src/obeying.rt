//! What the words ask for, done on the files that they name.

use crate::decks::Deck;
use crate::files::{STANDARD, is_read, read};
use crate::output::Output;
use crate::watched::Watched;
use crate::words::{shows_both, tell_output_read, tell_waiting};
use cli_calls::do_task;
use cli_commands::commands::{Ending, Fault};
use cli_tasks::Task;
use cli_words::Wanted;

// Whether the output is one of the files that are read.
fn writes_over_input<'a>(rt: &HostRuntime, wanted: &Wanted<'a>) -> Result<bool, Fault<'a>> {
    for path in [wanted.text, wanted.other] {
        if let Some(path) = path {
            if is_read(rt, wanted.output, &[path])? {
                return Ok(true);
            }
        }
    }
    is_read(rt, wanted.output, wanted.decks.as_slice())
}

/// Does what the words ask for. Texts are read whole, and decks and an output are opened, before a fault of any of them is told; but
/// `check --all` with a deck lists the faults of the chart, or refuses a wiring chart, and doesn't open the deck then. An output that is one
/// of the files that are read is refused.
///
/// # Errors
///
/// `File` if a file can't be read, `Write` if the output can't be written, and `Memory`: nothing is done and nothing is told yet.
pub fn obey<'a>(rt: &HostRuntime, wanted: &Wanted<'a>) -> Result<Ending, Fault<'a>> {
    if matches!(wanted.task, Task::RunTogether) {
        tell_waiting(rt);
    }
    let text = read(rt, wanted.text)?;
    let other = read(rt, wanted.other)?;
    let path = wanted.decks.first().copied().unwrap_or(STANDARD);
    let deck = Deck::open(rt, &wanted.task, wanted.decks.as_slice())?;
    if writes_over_input(rt, wanted)? {
        return Ok(tell_output_read(rt));
    }
    let mut out = Output::open(rt, wanted.output)?;
    let is_watched = deck.is_row() && !out.is_terminal();
    let cards = Watched::new(rt, deck, is_watched);
    let done = do_task(
        rt.alloc(),
        wanted.task,
        text.as_slice(),
        other.as_slice(),
        path,
        cards,
        shows_both(rt),
        &mut out,
        &mut rt.stderr(),
    );
    Ok(out.finish(rt, done))
}
