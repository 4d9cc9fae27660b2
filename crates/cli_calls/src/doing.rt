//! The call that does a task.

ghost use Rattle.std.specs.Prelude.{◌≡◌};
ghost use Rattle.cli_calls.specs.Does.{ChecksDeck, Does, GroupsDeck, RunsTogether, range_of};

use crate::browser_pages::show_to_end;
use crate::shown::show_deck;
use crate::whole_runs::{PageRange, run_whole_to_end};
use cli_commands::commands::{replay_by_orders_to_end, run_to_end, serve_command};
use cli_commands::panel_guides::ledger_calls::{Question, tell_to_end};
use cli_commands::panel_guides::trace_calls::trace_to_end;
use cli_commands::panel_guides::{Place, legend_to_end};
use cli_decks::check_calls::{print_check, print_grouped, tell_checked};
use cli_decks::folding::fold_calls::fold_to_end;
use cli_matching::chart_calls::chart_to_end;
use cli_matching::match_texts::Telling;
use cli_matching::{match_deck_to_end, match_to_end};
use cli_sheets::sheets::sheet_calls::{fields_to_end, layout_to_end};
use cli_tasks::{Pages, Task};
use fault_lines::fault_guide::guides::fault_to_end;
use fault_lines::faults::{Ending, Fault};
use fault_lines::program_io::{Command, chart_and_deck};
use fault_lists::text_lists::list_text_to_end;
use std::alloc::Global;
use std::io::{Read, Write};

// The pages as a run takes them.
fn range_of(pages: Pages) -> PageRange
    ensures { result ≡ range_of pages }
{
    PageRange {
        first: pages.first,
        last: pages.last,
    }
}

// Runs a deck that stands behind its chart in one text.
fn run_together<W: Write, V: Write>(
    alloc: Global,
    text: &[u8],
    out: &mut W,
    faults: &mut V,
) -> Ending
    ensures { RunsTogether (W.contents out.old) (W.contents out.new) (V.contents faults.old) (V.contents faults.new)
        (out.new ≡ out.old) (faults.new ≡ faults.old) result text.now }
{
    let (chart, mut deck) = chart_and_deck(text);
    run_to_end(alloc, chart, &mut deck, out, faults)
}

// Checks a deck.
fn check_deck<R: Read + Drop, W: Write, V: Write>(
    alloc: Global,
    text: &[u8],
    deck: R,
    shows_both: bool,
    out: &mut W,
    faults: &mut V,
) -> Ending
    ensures { ChecksDeck (W.contents out.old) (W.contents out.new) (V.contents faults.old) (V.contents faults.new)
        (out.new ≡ out.old) (faults.new ≡ faults.old) result text.now (R.remaining deck) shows_both }
{
    let checked = print_check(alloc, text, deck, out);
    tell_checked(checked, shows_both, faults)
}

// Checks a deck and the control keys in it.
fn group_deck<R: Read + Drop, W: Write, V: Write>(
    alloc: Global,
    text: &[u8],
    path: &str,
    deck: R,
    shows_both: bool,
    out: &mut W,
    faults: &mut V,
) -> Ending
    ensures { GroupsDeck (W.contents out.old) (W.contents out.new) (V.contents faults.old) (V.contents faults.new)
        (out.new ≡ out.old) (faults.new ≡ faults.old) result text.now (R.remaining deck)
        (Fault.File path.entry) shows_both }
{
    let checked = print_grouped(alloc, text, path, deck, out);
    tell_checked(checked, shows_both, faults)
}

/// Does a task, prints its answer on `out`, and tells on `faults` why it can't, or what the task tells beside its answer.
///
/// `text` and `other` are the texts that the task reads, as [`Task`] has them; what it doesn't read is of no account. `path` names the deck in
/// what is told of one that can't be read. `shows_both` says that a terminal shows both `out` and `faults`: then a fault with which a printed
/// list begins isn't told once more. What is written and told at each status, the call of each task says. The statuses are 0 done, 2 a task
/// that can't be done on such a text, or a fault that there isn't, 3 refused input, 4 file fault, 5 memory.
pub fn do_task<R: Read + Drop, W: Write, V: Write>(
    alloc: Global,
    task: Task,
    text: &[u8],
    other: &[u8],
    path: &str,
    mut deck: R,
    shows_both: bool,
    out: &mut W,
    faults: &mut V,
) -> Ending
    ensures { Does (W.contents out.old) (W.contents out.new) (V.contents faults.old) (V.contents faults.new)
        (out.new ≡ out.old) (faults.new ≡ faults.old) result text.now other.now (R.remaining deck)
        (Fault.File path.entry) shows_both task }
{
    match task {
        Task::Run => run_to_end(alloc, text, &mut deck, out, faults),
        Task::RunWhole => run_whole_to_end(alloc, text, &mut deck, PageRange::all(), out, faults),
        Task::RunPages { pages } => {
            run_whole_to_end(alloc, text, &mut deck, range_of(pages), out, faults)
        }
        Task::RunTogether => run_together(alloc, text, out, faults),
        Task::Check => serve_command(alloc, Command::Check, text, path, deck, out, faults),
        Task::ListFaults => list_text_to_end(alloc, text, out, faults),
        Task::CheckDeck => check_deck(alloc, text, deck, shows_both, out, faults),
        Task::ShowDeck => show_deck(alloc, text, path, deck, shows_both, out, faults),
        Task::GroupDeck => group_deck(alloc, text, path, deck, shows_both, out, faults),
        Task::Layout => layout_to_end(alloc, text, out, faults),
        Task::Fields { card } => fields_to_end(alloc, text, path, deck, card, out, faults),
        Task::Wire => serve_command(alloc, Command::Wire, text, path, deck, out, faults),
        Task::Replay => serve_command(alloc, Command::Replay, text, path, deck, out, faults),
        Task::ReplayByOrders => {
            replay_by_orders_to_end(alloc, text, other, path, deck, out, faults)
        }
        Task::Upgrade => serve_command(alloc, Command::Upgrade, text, path, deck, out, faults),
        Task::Chart => chart_to_end(alloc, text, out, faults),
        Task::Match => match_to_end(alloc, Telling::Wires, text, other, out, faults),
        Task::MatchHints => match_to_end(alloc, Telling::Hints, text, other, out, faults),
        Task::MatchDeck => match_deck_to_end(alloc, text, other, path, deck, out, faults),
        Task::Legend => legend_to_end(alloc, text, out, faults),
        Task::Explain {
            page,
            line,
            wheel,
            whole,
        } => {
            let place = Place { page, line, wheel };
            let question = Question::Explanation { whole };
            tell_to_end(alloc, text, path, deck, place, question, out, faults)
        }
        Task::Ledger {
            page,
            line,
            wheel,
            all,
        } => {
            let place = Place { page, line, wheel };
            let question = Question::Ledger { all };
            tell_to_end(alloc, text, path, deck, place, question, out, faults)
        }
        Task::Trace => trace_to_end(alloc, text, path, deck, out, faults),
        Task::Show { around } => show_to_end(alloc, text, path, deck, around, out, faults),
        Task::Fold { fill } => fold_to_end(alloc, text, fill.character(), out, faults),
        Task::Fault { number } => fault_to_end(alloc, number, out, faults),
    }
}
