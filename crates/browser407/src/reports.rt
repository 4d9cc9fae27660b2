//! Reports of decks, and what a deck is checked for.

ghost use Rattle.std.specs.Prelude.{[]};
ghost use Rattle.browser407.specs.HandsOut.{HandsOut};

use crate::answer::{Answer, answer_task};
use cli_tasks::{Pages, Task};
use std::alloc::Global;

/// The pages of a deck, card by card.
#[unsafe(no_mangle)]
pub extern "C" fn page_run(
    alloc: Global,
    chart: &[u8],
    deck: &[u8],
    out: &mut [u8],
    answer: &mut Answer,
)
    ensures { HandsOut Task.Run chart.now [] deck.now out.new answer.new }
{
    answer_task(alloc, Task::Run, chart, b"", deck, out, answer);
}

/// The pages of a deck, once it has run whole.
#[unsafe(no_mangle)]
pub extern "C" fn page_run_whole(
    alloc: Global,
    chart: &[u8],
    deck: &[u8],
    out: &mut [u8],
    answer: &mut Answer,
)
    ensures { HandsOut Task.RunWhole chart.now [] deck.now out.new answer.new }
{
    answer_task(alloc, Task::RunWhole, chart, b"", deck, out, answer);
}

/// The pages of a deck from `first` to `last`, both among them, once it has run whole. The first page has number 1.
#[unsafe(no_mangle)]
pub extern "C" fn page_run_pages(
    alloc: Global,
    chart: &[u8],
    deck: &[u8],
    first: u64,
    last: u64,
    out: &mut [u8],
    answer: &mut Answer,
)
    ensures { HandsOut (Task.RunPages (record { first = first; last = last })) chart.now [] deck.now out.new answer.new }
{
    answer_task(
        alloc,
        Task::RunPages {
            pages: Pages { first, last },
        },
        chart,
        b"",
        deck,
        out,
        answer,
    );
}

/// All cards of a deck that the chart can't be run with.
#[unsafe(no_mangle)]
pub extern "C" fn page_check_deck(
    alloc: Global,
    chart: &[u8],
    deck: &[u8],
    out: &mut [u8],
    answer: &mut Answer,
)
    ensures { HandsOut Task.CheckDeck chart.now [] deck.now out.new answer.new }
{
    answer_task(alloc, Task::CheckDeck, chart, b"", deck, out, answer);
}

/// The faults of a chart, or else all cards of a deck that it can't be run with, each shown.
#[unsafe(no_mangle)]
pub extern "C" fn page_show_deck(
    alloc: Global,
    text: &[u8],
    deck: &[u8],
    out: &mut [u8],
    answer: &mut Answer,
)
    ensures { HandsOut Task.ShowDeck text.now [] deck.now out.new answer.new }
{
    answer_task(alloc, Task::ShowDeck, text, b"", deck, out, answer);
}

/// The control keys that come back in a deck, if all its cards are good.
#[unsafe(no_mangle)]
pub extern "C" fn page_group_deck(
    alloc: Global,
    chart: &[u8],
    deck: &[u8],
    out: &mut [u8],
    answer: &mut Answer,
)
    ensures { HandsOut Task.GroupDeck chart.now [] deck.now out.new answer.new }
{
    answer_task(alloc, Task::GroupDeck, chart, b"", deck, out, answer);
}

/// What the fields of a chart read on a card of a deck. The first card has number 1.
#[unsafe(no_mangle)]
pub extern "C" fn page_fields(
    alloc: Global,
    chart: &[u8],
    deck: &[u8],
    card: u32,
    out: &mut [u8],
    answer: &mut Answer,
)
    ensures { HandsOut (Task.Fields card) chart.now [] deck.now out.new answer.new }
{
    answer_task(alloc, Task::Fields { card }, chart, b"", deck, out, answer);
}
