//! What the words ask for.

ghost use Rattle.std.specs.Prelude.{◌≡◌, IfOk, codes};
ghost use Rattle.clap.specs.Values.{kind_of};
ghost use Rattle.cli_tasks.specs.Names.{IsTaskOf, word_of};

use crate::parser::{Word, commands, parser};
use clap::error::ErrorKind;
use clap::{ArgMatches, Error};
use cli_tasks::{Fill, Pages, Task, check_task, match_task, page_named, replay_task, run_task};
use std::alloc::{AllocFailed, Global};
use std::io;
use std::io::{ErrorKind as IoErrorKind, Write};

/// What the words of the command line ask for: a task, and the files on which it is done, by their paths.
#[derive(Drop)]
pub struct Wanted<'a> {
    /// What is done.
    pub task: Task,
    /// The text that is read, if any is.
    pub text: Option<&'a str>,
    /// The text that is read beside it: of a match the wiring chart, of a replay the orders.
    pub other: Option<&'a str>,
    /// The decks, one behind the other. Only a run takes more than one.
    pub decks: Vec<&'a str>,
    /// The file that is written in place of standard output.
    pub output: Option<&'a str>,
}

/// Why the words ask for nothing that is still to be done.
#[derive(Debug, Drop)]
pub enum Refused {
    /// Memory ran out. Nothing is told yet.
    Memory,
    /// The words are no command. What is wrong with them stands on standard error, where that can be written.
    Mistaken,
    /// The words asked for the help or the version, which is printed.
    Answered,
    /// The help or the version could not be written, or what is wrong for want of memory.
    Unwritten(io::Error),
}

impl Refused {
    ghost use Rattle.std.specs.Prelude.{◌≡◌};

    /// The status that the program ends with: 0 where the help or the version is printed, 2 where the words are no command, 4 where the
    /// help or the version could not be written, 5 where memory ran out.
    pub fn status(&self) -> u8
        ensures answered { self.now ≡ Refused.Answered → result ≡ 0 }
        ensures mistaken { self.now ≡ Refused.Mistaken → result ≡ 2 }
        ensures memory { self.now ≡ Refused.Memory → result ≡ 5 }
    {
        match self {
            Refused::Answered => 0,
            Refused::Mistaken => 2,
            Refused::Unwritten(error) if error.kind() != IoErrorKind::OutOfMemory => 4,
            Refused::Memory | Refused::Unwritten(_) => 5,
        }
    }
}

// Tells what is wrong with the words, or prints the help or the version that they ask for. Where standard error can't be written, the
// status alone tells of mistaken words.
fn told(rt: &HostRuntime, error: &Error) -> Refused
    ensures { kind_of error.now ≡ ErrorKind.OutOfMemory → result ≡ Refused.Memory }
{
    if error.kind() == ErrorKind::OutOfMemory {
        return Refused::Memory;
    }
    match error.print(rt) {
        Err(unwritten) if unwritten.kind() == IoErrorKind::OutOfMemory => {
            Refused::Unwritten(unwritten)
        }
        _ if error.use_stderr() => Refused::Mistaken,
        Ok(()) => Refused::Answered,
        Err(unwritten) => Refused::Unwritten(unwritten),
    }
}

// What the words match.
fn matches_of<'a>(
    alloc: Global,
    version: &'a str,
    words: &'a [String],
) -> Result<ArgMatches<'a>, Error> {
    parser(alloc, version)?.try_get_matches_from(words)
}

/// What is wrong with words that the parser lets through.
#[derive(Clone, Copy, Debug, PartialEq, Eq)]
enum Mistake {
    /// Standard input is named for two files.
    InputTwice,
    /// The pages are neither a number from 1 nor two with a hyphen between them, the lower first.
    NoPages,
    /// The page to be shown is no number from 1.
    NoPage,
    /// A deck is named where a hint is to be told.
    HintOfDeck,
    /// Keys that come back are asked for, and no deck is named.
    GroupsOfNone,
    /// Keys that come back are asked for, and every fault too.
    GroupsOfAll,
    /// What a text is to be folded with is no character of a card.
    NoFill,
    /// Memory ran out.
    Memory,
}

impl From<AllocFailed<&str>> for Mistake {
    fn from(_refused: AllocFailed<&str>) -> Mistake {
        Mistake::Memory
    }
}

impl Mistake {
    // What is told of it.
    fn text(self) -> &'static str {
        match self {
            Mistake::InputTwice => "error: - is standard input, and stands for one file at most\n",
            Mistake::NoPages => "error: --page takes the number of a page, or two as 3-5\n",
            Mistake::NoPage => "error: --page of show takes the number of a page\n",
            Mistake::HintOfDeck => "error: --hint and --deck can't be asked for together\n",
            Mistake::GroupsOfNone => "error: --groups takes a deck too\n",
            Mistake::GroupsOfAll => "error: --groups and --all can't be asked for together\n",
            Mistake::NoFill => "error: --with takes one character that a card has\n",
            Mistake::Memory => "error: out of memory\n",
        }
    }

    // Tells it. If standard error can't be written, the status alone tells of it.
    fn told(self, rt: &HostRuntime) -> Refused {
        if self == Mistake::Memory {
            return Refused::Memory;
        }
        let _ = rt.stderr().write_all(self.text().as_bytes());
        Refused::Mistaken
    }
}

// How a run is to print.
fn run_wanted(given: &ArgMatches) -> Result<Task, Mistake>
    ensures { IfOk result (λ task. word_of task ≡ codes "run") }
{
    let pages = match given.get_str("PAGES") {
        Some(word) => Some(Pages::named(word).ok_or(Mistake::NoPages)?),
        None => None,
    };
    Ok(run_task(pages, given.get_flag("CHECK_FIRST")))
}

// Around which page is shown.
fn show_wanted(given: &ArgMatches) -> Result<Task, Mistake>
    ensures { IfOk result (λ task. word_of task ≡ codes "show") }
{
    let around = match given.get_str("AROUND") {
        Some(word) => Some(page_named(word).ok_or(Mistake::NoPage)?),
        None => None,
    };
    Ok(Task::Show { around })
}

// How a check checks.
fn check_wanted(given: &ArgMatches) -> Result<Task, Mistake>
    ensures { IfOk result (λ task. word_of task ≡ codes "check") }
{
    let has_deck = given.get_str("DECK").is_some();
    let all = given.get_flag("ALL");
    let groups = given.get_flag("GROUPS");
    if groups && !has_deck {
        return Err(Mistake::GroupsOfNone);
    }
    if groups && all {
        return Err(Mistake::GroupsOfAll);
    }
    Ok(check_task(has_deck, all, groups))
}

// How a panel is matched.
fn match_wanted(given: &ArgMatches) -> Result<Task, Mistake>
    ensures { IfOk result (λ task. word_of task ≡ codes "match") }
{
    let has_deck = given.get_str("DECK").is_some();
    let hints = given.get_flag("HINT");
    if hints && has_deck {
        return Err(Mistake::HintOfDeck);
    }
    Ok(match_task(has_deck, hints))
}

// With what a text is folded: a blank, if nothing else is said.
fn fold_wanted(given: &ArgMatches) -> Result<Task, Mistake>
    ensures { IfOk result (λ task. word_of task ≡ codes "fold") }
{
    let word = given.get_str("WITH").unwrap_or(" ");
    let fill = Fill::named(word).ok_or(Mistake::NoFill)?;
    Ok(Task::Fold { fill })
}

// The task of a command by its name. The parser lets no other name through, and no command without the numbers that it has to have.
fn task_of(name: &str, given: &ArgMatches) -> Result<Task, Mistake>
    ensures { IfOk result (IsTaskOf name.now) }
{
    Ok(match name {
        "run" => run_wanted(given)?,
        "check" => check_wanted(given)?,
        "layout" => Task::Layout,
        "fields" => Task::Fields {
            card: given.get_one("CARD").unwrap_or(1),
        },
        "wire" => Task::Wire,
        "replay" => replay_task(given.get_str("ORDERS").is_some()),
        "upgrade" => Task::Upgrade,
        "chart" => Task::Chart,
        "match" => match_wanted(given)?,
        "legend" => Task::Legend,
        "explain" => Task::Explain {
            page: given.get_one("PAGE").unwrap_or(0),
            line: given.get_one("LINE").unwrap_or(0),
            wheel: given.get_one("WHEEL").unwrap_or(0),
            whole: given.get_flag("WHOLE"),
        },
        "ledger" => Task::Ledger {
            page: given.get_one("PAGE").unwrap_or(0),
            line: given.get_one("LINE").unwrap_or(0),
            wheel: given.get_one("WHEEL").unwrap_or(0),
            all: given.get_flag("ALL"),
        },
        "trace" => Task::Trace,
        "show" => show_wanted(given)?,
        "fold" => fold_wanted(given)?,
        "fault" => Task::Fault {
            number: given.get_one("NN").unwrap_or(0),
        },
        _ => Task::RunTogether,
    })
}

// The file of the text that a command reads: no command takes two of these.
fn text_of<'a>(given: &ArgMatches<'a>) -> Option<&'a str> {
    for word in ["CHART", "TEXT"] {
        if let Some(path) = given.get_str(word) {
            return Some(path);
        }
    }
    given.get_str("WIRING")
}

// The file of the text that it reads beside that: a wiring chart beside a planning chart, or orders beside a wiring chart.
fn other_of<'a>(given: &ArgMatches<'a>) -> Option<&'a str> {
    match given.get_str("CHART") {
        Some(_) => given.get_str("WIRING"),
        None => given.get_str("ORDERS"),
    }
}

// What is asked for by the words of a command.
fn command_wanted<'a>(
    alloc: Global,
    name: &str,
    given: &ArgMatches<'a>,
) -> Result<Wanted<'a>, Mistake>
    ensures { IfOk result (λ wanted. IsTaskOf name.now wanted.task) }
{
    let task = task_of(name, given)?;
    let mut decks = Vec::new(alloc);
    for deck in given.get_strs("DECK").unwrap_or(&[]) {
        decks.push(*deck)?;
    }
    Ok(Wanted {
        task,
        text: text_of(given),
        other: other_of(given),
        decks,
        output: given.get_str("OUTPUT"),
    })
}

// What is asked for without a command: a planning chart and then its deck stand on standard input.
fn input_wanted<'a>(alloc: Global) -> Wanted<'a>
    ensures { result.task ≡ Task.RunTogether }
{
    Wanted {
        task: Task::RunTogether,
        text: Some("-"),
        other: None,
        decks: Vec::new(alloc),
        output: None,
    }
}

// Whether the words of a command name standard input for two files.
fn names_input_twice(words: &[Word], given: &ArgMatches) -> bool {
    let mut is_named = false;
    for word in words {
        if !word.is_input() {
            continue;
        }
        for path in given.get_strs(word.name).unwrap_or(&[]) {
            if *path == "-" {
                if is_named {
                    return true;
                }
                is_named = true;
            }
        }
    }
    false
}

// The words that a command takes.
fn words_of(name: &str) -> &'static [Word] {
    match commands().iter().find(|row| row.name == name) {
        Some(row) => row.words,
        None => &[],
    }
}

// What is asked for by words that match.
fn wanted_by<'a>(alloc: Global, matches: &ArgMatches<'a>) -> Result<Wanted<'a>, Mistake> {
    match matches.subcommand() {
        Some((name, given)) if names_input_twice(words_of(name), given) => Err(Mistake::InputTwice),
        Some((name, given)) => command_wanted(alloc, name, given),
        None => Ok(input_wanted(alloc)),
    }
}

/// What the words ask for, the program's name first. `version` is what the program tells of itself if they ask for it.
///
/// # Errors
///
/// `Memory` if a growth was refused; `Mistaken` if the words are no command, or name standard input for two files, and `Answered` if they
/// ask for the help or the version, with the text of that written; `Unwritten` if that could not be.
pub fn read_words<'a>(
    rt: &HostRuntime,
    version: &'a str,
    words: &'a [String],
) -> Result<Wanted<'a>, Refused> {
    match matches_of(rt.alloc(), version, words) {
        Ok(matches) => wanted_by(rt.alloc(), &matches).map_err(|mistake| mistake.told(rt)),
        Err(error) => Err(told(rt, &error)),
    }
}
