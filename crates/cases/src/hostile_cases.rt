//! Gives tasks texts that are cut after each byte, and texts with each of the 256 bytes in a place, and tells where what is told of
//! them changes.
//!
//! Before each answer stands the number of bytes, or the byte, from which on it is told; `done` is told of a text that is not refused.

use crate::answered::Served;
use anyhow::Result;
use cli_tasks::Task;
use std::alloc::Global;
use std::fs;
use std::io::Write;

/// A task that is given texts.
#[derive(Clone, Copy)]
pub enum Given {
    Check,
    Replay,
}

impl Given {
    fn task(self) -> Task {
        match self {
            Given::Check => Task::Check,
            Given::Replay => Task::Replay,
        }
    }
}

/// What is done with the text of a file.
#[derive(Clone, Copy)]
pub enum Trial {
    /// A task is given the text cut after each of its bytes, and a deck.
    Cut { given: Given, deck: &'static str },
    /// A task is given the text with each byte in front of the other bytes.
    Behind { given: Given, after: &'static str },
    /// Each byte is a deck of one card.
    Card,
}

// What was told last, and is not written again.
#[derive(Drop)]
struct Changes {
    last: Vec<u8>,
}

impl Changes {
    fn new(alloc: Global) -> Changes {
        Changes {
            last: Vec::new(alloc),
        }
    }

    // Writes what is told of a text, where it is not what was told last.
    fn write<W: Write>(&mut self, out: &mut W, number: usize, told: Vec<u8>) -> Result<()> {
        if number > 0 && told == self.last {
            return Ok(());
        }
        write_told(out, number, told.as_slice())?;
        self.last = told;
        Ok(())
    }
}

// Writes what is told of a text, behind its number.
fn write_told<W: Write>(out: &mut W, number: usize, told: &[u8]) -> Result<()> {
    write!(out, "{number} ")?;
    let line = if told.is_empty() { b"done\n" } else { told };
    out.write_all(line)?;
    Ok(())
}

// What is told of a text that is cut after each of its bytes, before the first among them.
fn write_cuts<W: Write>(
    alloc: Global,
    out: &mut W,
    given: Given,
    text: &[u8],
    deck: &[u8],
) -> Result<()> {
    let mut changes = Changes::new(alloc);
    for (end, _) in text.iter().enumerate() {
        let told = Served::of(alloc, given.task(), &text[..end], deck).told;
        changes.write(out, end, told)?;
    }
    let told = Served::of(alloc, given.task(), text, deck).told;
    changes.write(out, text.len(), told)
}

// What a task tells of a text with a byte and other bytes after it.
fn told_with(alloc: Global, task: Task, before: &[u8], byte: u8, after: &[u8]) -> Result<Vec<u8>> {
    let whole = [before, &[byte], after].concat(alloc)?;
    Ok(Served::of(alloc, task, whole.as_slice(), b"\n".as_slice()).told)
}

// What is told of a text with each byte between two parts of it.
fn write_bytes<W: Write>(
    alloc: Global,
    out: &mut W,
    given: Given,
    before: &[u8],
    after: &[u8],
) -> Result<()> {
    let mut changes = Changes::new(alloc);
    for byte in 0..=255u8 {
        let told = told_with(alloc, given.task(), before, byte, after)?;
        changes.write(out, usize::from(byte), told)?;
    }
    Ok(())
}

// What is told of each byte as a deck of one card, by a chart.
fn write_decks<W: Write>(alloc: Global, out: &mut W, chart: &[u8]) -> Result<()> {
    let mut changes = Changes::new(alloc);
    for byte in 0..=255u8 {
        let told = Served::of(alloc, Task::Run, chart, [byte, b'\n'].as_slice()).told;
        changes.write(out, usize::from(byte), told)?;
    }
    Ok(())
}

// Writes what is told of a text.
fn write_for<W: Write>(alloc: Global, out: &mut W, trial: Trial, text: &[u8]) -> Result<()> {
    match trial {
        Trial::Cut { given, deck } => write_cuts(alloc, out, given, text, deck.as_bytes()),
        Trial::Behind { given, after } => { write_bytes(alloc, out, given, text, after.as_bytes()) }
        Trial::Card => write_decks(alloc, out, text),
    }
}

/// Writes what is told of the text of a file.
pub fn write_trial<W: Write>(
    rt: &HostRuntime,
    out: &mut W,
    path: &str,
    trial: Trial,
) -> Result<()> {
    let text = fs::read(rt, path)?;
    write_for(rt.alloc(), out, trial, text.as_slice())
}
