//! What a chart says by itself, and the texts that no machine reads.

ghost use Rattle.std.specs.Prelude.{◌≡◌, [], ◌∷◌, ℕ, IsSome};
ghost use Rattle.browser407.specs.HandsOut.{HandsOut, HandsOutNothing};
ghost use Rattle.card_code.specs.CardCode.{rows_of};
ghost use Rattle.cli_tasks.specs.Words.{IsNoFill};

use crate::answer::{Answer, answer_nothing, answer_task};
use crate::fills::fill_of;
use cli_tasks::Task;
use std::alloc::Global;

/// Whether a chart compiles.
#[unsafe(no_mangle)]
pub extern "C" fn page_check(alloc: Global, chart: &[u8], out: &mut [u8], answer: &mut Answer)
    ensures { HandsOut Task.Check chart.now [] [] out.new answer.new }
{
    answer_task(alloc, Task::Check, chart, b"", b"", out, answer);
}

/// Every fault of a chart, or of a wiring chart in its place.
#[unsafe(no_mangle)]
pub extern "C" fn page_list_faults(alloc: Global, text: &[u8], out: &mut [u8], answer: &mut Answer)
    ensures { HandsOut Task.ListFaults text.now [] [] out.new answer.new }
{
    answer_task(alloc, Task::ListFaults, text, b"", b"", out, answer);
}

/// The lines of the chart's report, drawn.
#[unsafe(no_mangle)]
pub extern "C" fn page_layout(alloc: Global, chart: &[u8], out: &mut [u8], answer: &mut Answer)
    ensures { HandsOut Task.Layout chart.now [] [] out.new answer.new }
{
    answer_task(alloc, Task::Layout, chart, b"", b"", out, answer);
}

/// The wiring chart of a chart.
#[unsafe(no_mangle)]
pub extern "C" fn page_wire(alloc: Global, chart: &[u8], out: &mut [u8], answer: &mut Answer)
    ensures { HandsOut Task.Wire chart.now [] [] out.new answer.new }
{
    answer_task(alloc, Task::Wire, chart, b"", b"", out, answer);
}

/// The legend of a chart: what each line asks for.
#[unsafe(no_mangle)]
pub extern "C" fn page_legend(alloc: Global, chart: &[u8], out: &mut [u8], answer: &mut Answer)
    ensures { HandsOut Task.Legend chart.now [] [] out.new answer.new }
{
    answer_task(alloc, Task::Legend, chart, b"", b"", out, answer);
}

/// What the guide says of a fault.
#[unsafe(no_mangle)]
pub extern "C" fn page_fault(alloc: Global, number: u8, out: &mut [u8], answer: &mut Answer)
    ensures { HandsOut (Task.Fault number) [] [] [] out.new answer.new }
{
    answer_task(alloc, Task::Fault { number }, b"", b"", b"", out, answer);
}

/// A text as a deck that the machine can read. `word` is the character that takes the place of a byte that no card has; if it is no character
/// of a card, nothing is written, with status 2.
#[unsafe(no_mangle)]
pub extern "C" fn page_fold(
    alloc: Global,
    text: &[u8],
    word: &[u8],
    out: &mut [u8],
    answer: &mut Answer,
)
    ensures folded { (character : ℕ) → IsSome (rows_of character) → word.now ≡ character ∷ []
        → HandsOut (Task.Fold character) text.now [] [] out.new answer.new }
    ensures none { IsNoFill word.now → HandsOutNothing answer.new }
{
    match fill_of(word) {
        Some(fill) => answer_task(alloc, Task::Fold { fill }, text, b"", b"", out, answer),
        None => answer_nothing(answer),
    }
}
