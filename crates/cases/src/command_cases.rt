//! Does commands, and tells of each what it printed, what it told and its status.
//!
//! The file `rows` has a command, its text and its deck in each line, divided by `|`. A text or deck stands in its row with `;` in
//! place of each line feed, or in a file whose name is given between parentheses. Between parentheses stand too: `(standard input)`
//! and `(divide)` in place of a command, a text that has a chart and its deck, which are run, or of which the lengths are told;
//! `(10000000 letters)` in one line, and `(1000000 empty lines)` and `(1000001 empty lines)`, in place of a text or deck; `(every wire)`
//! in place of a wiring chart; `(unreadable)` and `(1000000 blank cards)` in place of a deck; and last of all `(unwritable)`, where the
//! output can't be written, `(read 5 fails)`, where the deck is read byte by byte until a read fails, or `(flushes)`, where it is told how
//! often the output was flushed.
//! A command `replay --orders` has its orders behind it, given as a text is; `fault` has its number behind it, `fields` that of the card, and
//! `explain`, `explain --whole`, `ledger` and `ledger --all` the page, the line and the wheel.
//! A `check deck` checks the deck too, where `check` leaves it alone, a `check groups` also tells the control keys that come back, a `check all`
//! tells every fault of the chart, and a `check all deck` shows the bad cards of the deck if there is none.
//! Behind `run pages` stand the first and the last page that are printed, or `all`.
//! A `run decks` has its decks in a row, divided by `~`, and `fold` its character behind it, or nothing for a blank.
//! Behind `show page` stands the page around which pages are shown. The rows of `show` are refused; its pages stand in `shown_cases`.
//! Of a million cards the number of bytes printed stands in place of these.

use crate::answered::{Served, write_status};
use allocate::CapacityFault;
use anyhow::Result;
use cli_calls::do_task;
use cli_commands::commands::{Fault, serve, tell};
use cli_tasks::{Fill, Pages, Task};
use fault_lines::program_io::chart_and_deck;
use report_streams::devices::limited::{LimitedReader, LimitedWriter, Stop};
use std::alloc::Global;
use std::fs;
use std::io::{Read, Write};

// The words between parentheses, where a row's part is that.
fn named(part: &str) -> Option<&str> {
    part.strip_prefix('(')?.strip_suffix(')')
}

// The byte that a text or a deck is made of, and how often, where it is made so.
fn repeated(name: &str) -> Option<(u8, usize)> {
    match name {
        "10000000 letters" => Some((b'A', 10_000_000)),
        "1000000 empty lines" | "1000000 blank cards" => Some((b'\n', 1_000_000)),
        "1000001 empty lines" => Some((b'\n', 1_000_001)),
        _ => None,
    }
}

// Writes the lines of the wires from each exit to each entry.
fn write_wires(text: &mut Vec<u8>, exits: &str, entries: &str) -> Result<()> {
    for exit in exits.lines() {
        for entry in entries.lines() {
            writeln!(text, "WIRE {exit} {entry}")?;
        }
    }
    Ok(())
}

// The wiring chart that has the most wires: each group in a ring, and each other exit wired to each other entry.
fn every_wire(rt: &HostRuntime) -> Result<Vec<u8>> {
    let mut text = read_named(rt, "every_ring.wiring")?;
    let exits = fs::read_to_string(rt, "commands/every_exit")?;
    let entries = fs::read_to_string(rt, "commands/every_entry")?;
    write_wires(&mut text, exits.as_str(), entries.as_str())?;
    text.extend_from_slice(b"END\n")?;
    Ok(text)
}

// The bytes of a file, or of a text that is made of one byte or of all wires.
fn named_bytes(rt: &HostRuntime, name: &str) -> Result<Vec<u8>> {
    if name == "every wire" {
        return every_wire(rt);
    }
    match repeated(name) {
        Some((byte, count)) => Ok(vec![in rt.alloc(); byte; count]?),
        None => read_named(rt, name),
    }
}

fn read_named(rt: &HostRuntime, name: &str) -> Result<Vec<u8>> {
    let path = ["commands/", name].concat(rt.alloc())?;
    Ok(fs::read(rt, &path)?)
}

// A text that stands in its row.
fn written_bytes(alloc: Global, part: &str) -> Result<Vec<u8>> {
    let mut bytes = part.as_bytes().to_vec(alloc)?;
    for byte in &mut bytes {
        if *byte == b';' {
            *byte = b'\n';
        }
    }
    Ok(bytes)
}

// A row's text or deck.
fn bytes_of(rt: &HostRuntime, part: &str) -> Result<Vec<u8>> {
    match named(part) {
        Some(name) => named_bytes(rt, name),
        None => written_bytes(rt.alloc(), part),
    }
}

// The cards of a row's deck, and the number of its read that fails, where the row names one.
fn failing_read(deck: &str) -> Option<(&str, u64)> {
    let Some((cards, words)) = deck.split_once("|(read ") else {
        return None;
    };
    let number = words.strip_suffix(" fails)")?;
    match number.parse() {
        Ok(read) => Some((cards, read)),
        Err(_) => None,
    }
}

// A row's deck, and the read of it that fails.
#[derive(Drop)]
struct RowDeck {
    cards: Vec<u8>,
    fails_at: Option<u64>,
}

impl RowDeck {
    fn of(rt: &HostRuntime, deck: &str) -> Result<RowDeck> {
        if deck == "(unreadable)" {
            return Ok(RowDeck {
                cards: Vec::new(rt.alloc()),
                fails_at: Some(1),
            });
        }
        if let Some((cards, read)) = failing_read(deck) {
            return Ok(RowDeck {
                cards: bytes_of(rt, cards)?,
                fails_at: Some(read),
            });
        }
        Ok(RowDeck {
            cards: bytes_of(rt, deck)?,
            fails_at: None,
        })
    }

    // A reader of the deck. Where a read of it fails, each gives one byte.
    fn reader(&self) -> LimitedReader<'_> {
        let cards = self.cards.as_slice();
        match self.fails_at {
            Some(_) => LimitedReader::new(cards, 1, self.fails_at),
            None => LimitedReader::new(cards, usize::MAX, None),
        }
    }
}

// A wheel of a line of a page.
#[derive(Clone, Copy)]
struct Place {
    page: u64,
    line: u32,
    wheel: u32,
}

// The wheel of a line that three numbers name.
fn place_of(words: &str) -> Option<Place> {
    let Some((page, rest)) = words.split_once(' ') else {
        return None;
    };
    let Some((line, wheel)) = rest.split_once(' ') else {
        return None;
    };
    match (page.parse(), line.parse(), wheel.parse()) {
        (Ok(page), Ok(line), Ok(wheel)) => Some(Place { page, line, wheel }),
        _ => None,
    }
}

// The sum behind the figure on a wheel.
fn ledger_of(words: &str, all: bool) -> Option<Task> {
    let Place { page, line, wheel } = place_of(words)?;
    Some(Task::Ledger {
        page,
        line,
        wheel,
        all,
    })
}

// Why a wheel printed its character.
fn explanation_of(words: &str, whole: bool) -> Option<Task> {
    let Place { page, line, wheel } = place_of(words)?;
    Some(Task::Explain {
        page,
        line,
        wheel,
        whole,
    })
}

// The pages from one number to another, or all.
fn pages_of(words: &str) -> Option<Task> {
    if words == "all" {
        return Some(Task::RunWhole);
    }
    let Some((first, last)) = words.split_once(' ') else {
        return None;
    };
    match (first.parse(), last.parse()) {
        (Ok(first), Ok(last)) => Some(Task::RunPages {
            pages: Pages { first, last },
        }),
        _ => None,
    }
}

// A text as a deck, with a character for what no card has.
fn folded(word: &str) -> Option<Task> {
    let fill = Fill::named(word)?;
    Some(Task::Fold { fill })
}

// What a command asks for that has numbers, pages or a character behind it.
fn worded(command: &str) -> Option<Task> {
    if let Some(number) = command.strip_prefix("fault ") {
        let number = number.parse().ok()?;
        return Some(Task::Fault { number });
    }
    if let Some(fill) = command.strip_prefix("fold ") {
        return folded(fill);
    }
    if let Some(pages) = command.strip_prefix("run pages ") {
        return pages_of(pages);
    }
    if let Some(page) = command.strip_prefix("show page ") {
        let around = Some(page.parse().ok()?);
        return Some(Task::Show { around });
    }
    if let Some(card) = command.strip_prefix("fields ") {
        let card = card.parse().ok()?;
        return Some(Task::Fields { card });
    }
    told_at(command)
}

// What a command asks for that tells of a wheel.
fn told_at(command: &str) -> Option<Task> {
    if let Some(place) = command.strip_prefix("ledger --all ") {
        return ledger_of(place, true);
    }
    if let Some(place) = command.strip_prefix("ledger ") {
        return ledger_of(place, false);
    }
    if let Some(place) = command.strip_prefix("explain --whole ") {
        return explanation_of(place, true);
    }
    explanation_of(command.strip_prefix("explain ")?, false)
}

// What a command asks for.
fn task_of(command: &str) -> Option<Task> {
    match command {
        "run" => Some(Task::Run),
        "(standard input)" => Some(Task::RunTogether),
        "check" => Some(Task::Check),
        "check all" => Some(Task::ListFaults),
        "check deck" => Some(Task::CheckDeck),
        "check groups" => Some(Task::GroupDeck),
        "check all deck" => Some(Task::ShowDeck),
        "wire" => Some(Task::Wire),
        "replay" => Some(Task::Replay),
        "upgrade" => Some(Task::Upgrade),
        "layout" => Some(Task::Layout),
        "legend" => Some(Task::Legend),
        "fold" => folded(" "),
        "trace" => Some(Task::Trace),
        "show" => Some(Task::Show { around: None }),
        _ => worded(command),
    }
}

// What a word that is no command gives.
fn mistaken(alloc: Global, command: &str) -> Served {
    let mut served = Served::new(alloc);
    let no_deck = b"".as_slice();
    served.status = serve(
        alloc,
        command,
        b"",
        "my.deck",
        no_deck,
        &mut served.output,
        &mut served.told,
    );
    served
}

// What a task gives on an output of its own, and behind what it printed how often that was flushed.
fn done_on<R: Read + Drop>(
    alloc: Global,
    task: Task,
    text: &[u8],
    deck: R,
    stop: Option<Stop>,
) -> Result<Served> {
    let mut served = Served::new(alloc);
    let mut output = LimitedWriter::new(alloc, usize::MAX, stop);
    let ending = do_task(
        alloc,
        task,
        text,
        b"",
        "my.deck",
        deck,
        false,
        &mut output,
        &mut served.told,
    );
    served.status = ending.status;
    served.output.extend_from_slice(output.bytes())?;
    if stop.is_none() {
        writeln!(served.output, "flushes {}", output.flushes())?;
    }
    Ok(served)
}

// The deck of a row, and what is to happen to its output, if its own is wanted.
fn with_output(deck: &str) -> (&str, Option<Option<Stop>>) {
    if let Some(deck) = deck.strip_suffix("|(unwritable)") {
        return (deck, Some(Some(Stop::Fails { write: 1 })));
    }
    match deck.strip_suffix("|(flushes)") {
        Some(deck) => (deck, Some(None)),
        None => (deck, None),
    }
}

// A row: its command, its text, and its deck with all after that.
#[derive(Clone, Copy)]
struct Row<'a> {
    command: &'a str,
    text: &'a str,
    deck: &'a str,
}

fn row_of(line: &str) -> Option<Row<'_>> {
    let Some((command, given)) = line.split_once('|') else {
        return None;
    };
    let Some((text, deck)) = given.split_once('|') else {
        return None;
    };
    Some(Row {
        command,
        text,
        deck,
    })
}

// What the command of a row gives on a text.
fn row_answer(rt: &HostRuntime, row: Row, text: &[u8]) -> Result<Served> {
    let alloc = rt.alloc();
    let (deck, own_output) = with_output(row.deck);
    let deck = RowDeck::of(rt, deck)?;
    if let Some(orders) = row.command.strip_prefix("replay --orders ") {
        let orders = bytes_of(rt, orders)?;
        let task = Task::ReplayByOrders;
        return Ok(Served::on(alloc, task, text, orders.as_slice(), deck.reader()));
    }
    if row.command == "run decks" {
        return Served::run_decks(alloc, text, deck.cards.as_slice());
    }
    match (task_of(row.command), own_output) {
        (Some(task), Some(stop)) => done_on(alloc, task, text, deck.reader(), stop),
        (Some(task), None) => Ok(Served::of(alloc, task, text, deck.reader())),
        (None, _) => Ok(mistaken(alloc, row.command)),
    }
}

fn write_lengths<W: Write>(out: &mut W, text: &[u8]) -> Result<()> {
    let (chart, cards) = chart_and_deck(text);
    writeln!(out, "chart {} deck {}", chart.len(), cards.len())?;
    Ok(())
}

// Writes how many bytes were printed, and the rest.
fn write_counted<W: Write>(out: &mut W, served: &Served) -> Result<()> {
    writeln!(out, "{} bytes", served.output.len())?;
    out.write_all(served.told.as_slice())?;
    write_status(out, served.status)
}

fn write_answer<W: Write>(rt: &HostRuntime, out: &mut W, row: Row, text: &[u8]) -> Result<()> {
    let served = row_answer(rt, row, text)?;
    if row.deck == "(1000000 blank cards)" {
        return write_counted(out, &served);
    }
    served.write_with_status(out)
}

fn write_for<W: Write>(rt: &HostRuntime, out: &mut W, row: Row) -> Result<()> {
    let text = bytes_of(rt, row.text)?;
    match row.command {
        "(divide)" => write_lengths(out, text.as_slice()),
        _ => write_answer(rt, out, row, text.as_slice()),
    }
}

/// Does what a row says, and writes what that gives.
pub fn write_row<W: Write>(rt: &HostRuntime, out: &mut W, line: &str) -> Result<()> {
    match row_of(line) {
        Some(row) => write_for(rt, out, row),
        None => Ok(()),
    }
}

// Writes what is told of a fault.
fn write_fault<W: Write>(alloc: Global, out: &mut W, fault: Fault) -> Result<()> {
    let mut told = Vec::new(alloc);
    let status = tell(&fault, &mut told).status;
    out.write_all(told.as_slice())?;
    write_status(out, status)
}

/// Two lines that no text brings: a chart that wants too many splits wants too many pilots, which are asked first, and memory suffices here.
pub fn write_told<W: Write>(alloc: Global, out: &mut W) -> Result<()> {
    out.write_all(b"told without a text\n")?;
    let splits = CapacityFault::Splits {
        wanted: 17,
        there: 16,
    };
    write_fault(alloc, out, Fault::from(splits))?;
    write_fault(alloc, out, Fault::Memory)
}
