//! Panels, as wiring charts wire them.

ghost use Rattle.std.specs.Prelude.{[], false};
ghost use Rattle.browser407.specs.HandsOut.{HandsOut};
ghost use Rattle.cli_tasks.specs.Chosen.{match_of};

use crate::answer::{Answer, answer_task};
use cli_tasks::{Task, match_task};
use std::alloc::Global;

/// The pages of a deck by a wiring chart.
#[unsafe(no_mangle)]
pub extern "C" fn page_replay(
    alloc: Global,
    wiring: &[u8],
    deck: &[u8],
    out: &mut [u8],
    answer: &mut Answer,
)
    ensures { HandsOut Task.Replay wiring.now [] deck.now out.new answer.new }
{
    answer_task(alloc, Task::Replay, wiring, b"", deck, out, answer);
}

/// The pages of a deck by a wiring chart, whose units are served by orders.
#[unsafe(no_mangle)]
pub extern "C" fn page_replay_by_orders(
    alloc: Global,
    wiring: &[u8],
    orders: &[u8],
    deck: &[u8],
    out: &mut [u8],
    answer: &mut Answer,
)
    ensures { HandsOut Task.ReplayByOrders wiring.now orders.now deck.now out.new answer.new }
{
    answer_task(
        alloc,
        Task::ReplayByOrders,
        wiring,
        orders,
        deck,
        out,
        answer,
    );
}

/// A wiring chart in version 2 of its language.
#[unsafe(no_mangle)]
pub extern "C" fn page_upgrade(alloc: Global, wiring: &[u8], out: &mut [u8], answer: &mut Answer)
    ensures { HandsOut Task.Upgrade wiring.now [] [] out.new answer.new }
{
    answer_task(alloc, Task::Upgrade, wiring, b"", b"", out, answer);
}

/// The planning chart that a panel is wired for, or a near one.
#[unsafe(no_mangle)]
pub extern "C" fn page_chart(alloc: Global, wiring: &[u8], out: &mut [u8], answer: &mut Answer)
    ensures { HandsOut Task.Chart wiring.now [] [] out.new answer.new }
{
    answer_task(alloc, Task::Chart, wiring, b"", b"", out, answer);
}

/// Whether a panel is wired for a chart, or what is missing and extra; with `hints` no wire is told.
#[unsafe(no_mangle)]
pub extern "C" fn page_match(
    alloc: Global,
    chart: &[u8],
    wiring: &[u8],
    hints: bool,
    out: &mut [u8],
    answer: &mut Answer,
)
    ensures { HandsOut (match_of false hints) chart.now wiring.now [] out.new answer.new }
{
    answer_task(
        alloc,
        match_task(false, hints),
        chart,
        wiring,
        b"",
        out,
        answer,
    );
}

/// Whether a panel is wired for a chart, or in what a deck is printed otherwise.
#[unsafe(no_mangle)]
pub extern "C" fn page_match_deck(
    alloc: Global,
    chart: &[u8],
    wiring: &[u8],
    deck: &[u8],
    out: &mut [u8],
    answer: &mut Answer,
)
    ensures { HandsOut Task.MatchDeck chart.now wiring.now deck.now out.new answer.new }
{
    answer_task(alloc, Task::MatchDeck, chart, wiring, deck, out, answer);
}
