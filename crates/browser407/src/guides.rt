//! What a run did, by a chart or by a wiring chart.

ghost use Rattle.std.specs.Prelude.{◌≡◌, []};
ghost use Rattle.browser407.specs.HandsOut.{HandsOut, page_of};

use crate::answer::{Answer, answer_task};
use cli_tasks::Task;
use std::alloc::Global;

// The page that a number names, which is none if it is 0.
fn page_of(number: u32) -> Option<u32>
    ensures { result ≡ page_of number }
{
    if number == 0 { None } else { Some(number) }
}

/// Why a wheel printed its character. With `whole` each ledger goes down to the holes of cards.
#[unsafe(no_mangle)]
pub extern "C" fn page_explain(
    alloc: Global,
    text: &[u8],
    deck: &[u8],
    page: u64,
    line: u32,
    wheel: u32,
    whole: bool,
    out: &mut [u8],
    answer: &mut Answer,
)
    ensures { HandsOut (Task.Explain page line wheel whole) text.now [] deck.now out.new answer.new }
{
    answer_task(
        alloc,
        Task::Explain {
            page,
            line,
            wheel,
            whole,
        },
        text,
        b"",
        deck,
        out,
        answer,
    );
}

/// The sum behind the figure on a wheel. With `all` no entry of a long one is left out.
#[unsafe(no_mangle)]
pub extern "C" fn page_ledger(
    alloc: Global,
    text: &[u8],
    deck: &[u8],
    page: u64,
    line: u32,
    wheel: u32,
    all: bool,
    out: &mut [u8],
    answer: &mut Answer,
)
    ensures { HandsOut (Task.Ledger page line wheel all) text.now [] deck.now out.new answer.new }
{
    answer_task(
        alloc,
        Task::Ledger {
            page,
            line,
            wheel,
            all,
        },
        text,
        b"",
        deck,
        out,
        answer,
    );
}

/// What each cycle of a run did.
#[unsafe(no_mangle)]
pub extern "C" fn page_trace(
    alloc: Global,
    text: &[u8],
    deck: &[u8],
    out: &mut [u8],
    answer: &mut Answer,
)
    ensures { HandsOut Task.Trace text.now [] deck.now out.new answer.new }
{
    answer_task(alloc, Task::Trace, text, b"", deck, out, answer);
}

/// The page for a browser, with pages of the report around this one, from 1. If it is 0, they are as if none was named.
#[unsafe(no_mangle)]
pub extern "C" fn page_show(
    alloc: Global,
    text: &[u8],
    deck: &[u8],
    around: u32,
    out: &mut [u8],
    answer: &mut Answer,
)
    ensures { HandsOut (Task.Show (page_of around)) text.now [] deck.now out.new answer.new }
{
    answer_task(
        alloc,
        Task::Show {
            around: page_of(around),
        },
        text,
        b"",
        deck,
        out,
        answer,
    );
}
