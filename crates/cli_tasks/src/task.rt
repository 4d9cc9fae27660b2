//! The commands, each with its options and numbers.

ghost use Rattle.std.specs.Prelude.{◌≡◌, codes};
ghost use Rattle.cli_tasks.specs.Chosen.{check_of, match_of, replay_of, run_of};
ghost use Rattle.cli_tasks.specs.Names.{word_of};

use crate::fill::Fill;
use crate::pages::Pages;

/// What is done, on at most two texts and a deck that are handed in beside it. A text is a planning chart, where nothing else is said.
#[derive(Clone, Copy, Debug)]
pub enum Task {
    /// Prints the pages of the deck, card by card.
    Run,
    /// Prints the pages of the deck once it has run whole.
    RunWhole,
    /// Prints these pages of the deck once it has run whole.
    RunPages {
        pages: Pages,
    },
    /// Prints the pages of a deck that stands behind the planning chart in the same text, card by card.
    RunTogether,
    /// Tells whether the chart compiles.
    Check,
    /// Lists every fault of the chart, or of a wiring chart in its place.
    ListFaults,
    /// Lists all cards of the deck that the chart can't be run with.
    CheckDeck,
    /// Lists every fault of the chart, or, if it has none, all cards of the deck that it can't be run with, each shown; of a wiring chart
    /// its faults, or else that it takes no deck.
    ShowDeck,
    /// Lists all cards of the deck that the chart can't be run with, or, if there is none, the control keys that come back.
    GroupDeck,
    /// Draws the lines of the chart's report.
    Layout,
    /// Prints what the fields of the chart read on a card of the deck.
    Fields {
        /// The number of the card, from 1.
        card: u32,
    },
    /// Prints the wiring chart of the chart.
    Wire,
    /// Prints the pages of the deck by a wiring chart.
    Replay,
    /// Prints the pages of the deck by a wiring chart whose units are served by orders, the other text, and tells what is counted.
    ReplayByOrders,
    /// Prints a wiring chart in version 2 of its language.
    Upgrade,
    /// Prints the planning chart that a panel is wired for, as a wiring chart wires it.
    Chart,
    /// Tells whether a panel, as the other text wires it, is wired for the chart, or which wires, jacks and stops are missing and extra.
    Match,
    /// The same, without any wire being told.
    MatchHints,
    /// As `Match`; where the panel isn't wired for the chart, the deck is run on it and on the chart's own panel.
    MatchDeck,
    /// Prints the legend of the chart.
    Legend,
    /// Tells why a wheel of a line that is printed of the deck printed its character, by the chart or by a wiring chart.
    Explain {
        page: u64,
        line: u32,
        wheel: u32,
        /// Whether ledgers are told down to the holes of cards.
        whole: bool,
    },
    /// Tells the sum behind the figure on a wheel of a line that is printed of the deck, by the chart or by a wiring chart.
    Ledger {
        page: u64,
        line: u32,
        wheel: u32,
        /// Whether all entries of a long one are told.
        all: bool,
    },
    /// Tells what each cycle of a run over the deck did, by the chart or by a wiring chart.
    Trace,
    /// Writes the page for a browser of the chart or of a wiring chart, and of the deck.
    Show {
        /// The page of the report around which pages are shown, from 1.
        around: Option<u32>,
    },
    /// Folds a text into a deck that the machine can read.
    Fold {
        /// What takes the place of a byte that no card has.
        fill: Fill,
    },
    /// Prints what the guide to faults says of a fault. No text is read.
    Fault {
        number: u8,
    },
}

/// How a run prints: the pages that are asked for, or all of them, once the whole deck has run where that is asked for; else card by card.
pub fn run_task(pages: Option<Pages>, checks_first: bool) -> Task
    ensures chosen { result ≡ run_of pages checks_first }
    ensures named { word_of result ≡ codes "run" }
{
    match pages {
        Some(pages) => Task::RunPages { pages },
        None if checks_first => Task::RunWhole,
        None => Task::Run,
    }
}

/// How a check checks, with a deck or without. `all` asks for every fault, `groups` for the control keys that come back in the deck, which
/// is of no account without one, and with one comes before `all`.
pub fn check_task(has_deck: bool, all: bool, groups: bool) -> Task
    ensures chosen { result ≡ check_of has_deck all groups }
    ensures named { word_of result ≡ codes "check" }
{
    match (has_deck, all, groups) {
        (false, false, _) => Task::Check,
        (false, true, _) => Task::ListFaults,
        (true, _, true) => Task::GroupDeck,
        (true, true, false) => Task::ShowDeck,
        (true, false, false) => Task::CheckDeck,
    }
}

/// How a panel is matched: with a deck; else by hints or by wires, as is asked.
pub fn match_task(has_deck: bool, hints: bool) -> Task
    ensures chosen { result ≡ match_of has_deck hints }
    ensures named { word_of result ≡ codes "match" }
{
    match (has_deck, hints) {
        (true, _) => Task::MatchDeck,
        (false, true) => Task::MatchHints,
        (false, false) => Task::Match,
    }
}

/// How a deck is replayed: by orders, where there are any.
pub fn replay_task(has_orders: bool) -> Task
    ensures chosen { result ≡ replay_of has_orders }
    ensures named { word_of result ≡ codes "replay" }
{
    if has_orders {
        Task::ReplayByOrders
    } else {
        Task::Replay
    }
}
